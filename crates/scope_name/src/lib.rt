// The names of the units of a program.
#![tactic(auto)]

mod shown;
pub mod table;
