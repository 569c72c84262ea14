// That a program has one table of classes, or one reason against it.
#![tactic(auto)]

pub mod law;
