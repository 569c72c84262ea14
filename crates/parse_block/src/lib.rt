// The code that reads blocks, lists of statements, `do` and `switch`.
#![tactic(auto)]

pub mod block;
pub mod condition;
pub mod edge;
pub mod list;
pub mod repeat;
pub mod switch;
