// The code that reads statements and those that hold others.
#![tactic(auto)]

pub mod attempt;
pub mod branch;
pub mod iterate;
pub mod statement;

pub use parse_block::block::block_over;
