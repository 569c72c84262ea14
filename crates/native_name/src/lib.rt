// The names of natives.
#![tactic(auto)]

pub mod name;
