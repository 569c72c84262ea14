// The borders of the program: where files come from, where output goes, and what a worker calls before a turn.
#![tactic(auto)]

pub mod gate;
pub mod memory;
pub mod real;
pub mod sink;
pub mod source;
#[cfg(test)]
mod tests;
