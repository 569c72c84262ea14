// Programs whose names are within a table: their numbers and their texts determine each other.
#![tactic(auto)]

mod form;
pub mod law;
pub mod program;
pub mod types;
