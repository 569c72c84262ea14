// The order of the classes of a program, and the rows of their table.
#![tactic(auto)]

pub mod header;
pub mod order;
pub mod rows;
mod walk;
