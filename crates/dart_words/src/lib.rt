// The words of a command line: which command they are, with its options, and of which file.
#![tactic(auto)]

pub mod budget;
pub mod options;
#[cfg(test)]
mod tests;
pub mod words;
