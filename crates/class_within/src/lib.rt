// Class declarations whose names are within a table: then their texts determine them.
#![tactic(auto)]

pub mod law;
pub mod program;
