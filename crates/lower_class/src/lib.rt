// The core of the members of classes.
#![tactic(auto, using(crate::proofs::Rest::steps, crate::proofs::Trees::trees), unfolding(translation::specs::Walk::on))]

pub mod construct;
pub mod factory;
pub mod field;
pub mod header;
pub mod initialise;
pub mod member;
pub mod redirect;
pub mod value;
