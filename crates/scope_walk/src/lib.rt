// The declarations of a unit, in the order of its tokens.
#![tactic(auto)]

mod declaration;
mod expression;
mod leaf;
mod list;
mod member;
mod statement;
mod unit;

pub use unit::declares;
