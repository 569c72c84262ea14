// The code that reads parameters, metadata, variables and functions.
#![tactic(auto)]

pub mod body;
pub mod list;
pub mod look;
pub mod metadata;
pub mod parameter;
pub mod variable;
