// What the names of a whole program mean.
#![tactic(auto)]

pub mod accessor;
pub mod class;
pub mod place;
pub mod program;
