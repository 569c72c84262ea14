// The table of classes of a program whose names are resolved.
#![tactic(auto)]

pub mod above;
pub mod build;
mod instance;
mod members;
pub mod number;
pub mod renumber;
pub mod row;
pub mod table;
