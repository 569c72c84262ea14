// The code that reads operands up to unary expressions.
#![tactic(auto)]

pub mod operator;
mod postfix;
pub mod target;
pub mod unary;
