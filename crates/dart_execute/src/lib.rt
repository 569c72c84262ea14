// What becomes of a loaded program.
#![tactic(auto)]

pub mod cause;
pub mod execution;
pub mod isolate;
pub mod law;
