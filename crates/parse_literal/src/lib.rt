// The code that reads strings, list and map literals, and what stands in one pair of brackets.
#![tactic(auto)]

pub mod bracket;
pub mod collections;
pub mod look;
pub mod text;
