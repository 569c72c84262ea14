// The code that reads expressions and cascades.
#![tactic(auto)]

pub mod assignment;
pub mod cascade;
pub mod expr;
