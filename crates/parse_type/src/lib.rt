// The code that reads types, and what may stand before the name of a variable or a function.
#![tactic(auto)]

pub mod kind;
pub mod look;
pub mod types;
