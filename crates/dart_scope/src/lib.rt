// What names mean in a program.
#![tactic(auto)]

pub mod making;
pub mod meaning;
pub mod program;
