// The prelude's classes and names by number.
#![tactic(auto)]

pub mod known;
pub mod numbers;
