// The run of a program.
#![tactic(auto)]

pub mod known;
pub mod law;
pub mod mode;
pub mod run;
pub mod written;
