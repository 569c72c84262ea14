// What a turn writes, and how it finishes.
#![tactic(auto)]

pub mod finish;
pub mod transcript;
