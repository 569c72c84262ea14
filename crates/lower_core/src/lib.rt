// The core of a program as a machine takes it.
#![tactic(auto)]

pub mod program;
pub mod slot;
pub mod table;
