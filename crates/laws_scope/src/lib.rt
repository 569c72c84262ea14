// That the names of a program mean one thing.
#![tactic(auto)]

pub mod law;
