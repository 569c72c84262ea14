// The class declarations of a program, and why their headers are refused.
#![tactic(auto)]

pub mod fault;
pub mod graph;
pub mod program;
mod reach;
mod verdict;
