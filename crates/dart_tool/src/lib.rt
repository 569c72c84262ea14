// The tool: from the words of a command line and a source of files to the bytes of a sink and a status.
#![tactic(auto)]

mod language;
pub mod laws;
mod outcome;
mod program;
pub mod status;
#[cfg(test)]
mod tests;
pub mod tool;
