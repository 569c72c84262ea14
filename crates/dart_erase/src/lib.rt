// Units without the annotations that change nothing in production mode.
#![tactic(auto)]

mod declaration;
mod expression;
pub mod fact;
pub mod law;
mod leaf;
mod member;
mod statement;
pub mod unit;

pub use member::erase_member;
