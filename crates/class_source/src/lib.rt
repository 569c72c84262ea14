// The class declarations of a program, as its units write them.
#![tactic(auto)]

pub mod fact;
pub mod law;
pub mod standing;
