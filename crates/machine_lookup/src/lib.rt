// What the machine looks up in stacks of values and in a program.
#![tactic(auto, using(crate::proofs::Listed::listed))]

pub mod arguments;
pub mod linked;
pub mod member;
pub mod program;
pub mod row;
pub mod shapes;
