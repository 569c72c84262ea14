// The table of the classes of a loaded program.
#![tactic(auto)]

pub mod build;
pub mod home;
pub mod scopes;
