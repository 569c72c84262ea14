// How the functions that read a node reach those that read the nodes inside it.
#![tactic(auto)]

pub mod inside;
pub mod statements;
