// The tokens of a unit, in order.
#![tactic(auto)]

mod declaration;
mod expression;
mod leaf;
mod list;
mod statement;
mod unit;

pub use declaration::member_tokens;
pub use unit::tokens;
