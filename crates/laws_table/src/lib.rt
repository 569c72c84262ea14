// That units have one table of classes under a table of names, or one reason against it.
#![tactic(auto)]

pub mod alike;
pub mod law;
pub mod shape;
