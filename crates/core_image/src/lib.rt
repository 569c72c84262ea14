// The image of a program in the core language: the program without columns and marks.
#![tactic(auto)]

pub mod form;
pub mod program;
