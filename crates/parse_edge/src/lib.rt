// What goes on at the right edge of an operand, and so does not stand behind it.
#![tactic(auto)]

pub mod edge;
pub mod opens;
