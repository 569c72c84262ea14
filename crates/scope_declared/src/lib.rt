// What a unit declares, and where each declaration counts: the definition, the numbers of names and the last tokens of trees.
#![tactic(auto)]

pub mod declaration;
pub mod last;
pub mod number;
