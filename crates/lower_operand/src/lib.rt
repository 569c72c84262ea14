// The forms of expressions, from the forms of their parts.
#![tactic(auto, using(crate::proofs::Rest::steps), unfolding(translation::specs::Walk::on))]

pub mod condition;
pub mod create;
pub mod literal;
pub mod operator;
pub mod step;
pub mod super_operator;
pub mod type_test;

pub use lower_string::whole::{constant_units, parts_of};
