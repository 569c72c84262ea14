// The numbers of implicit accessors in a table of classes.
#![tactic(auto)]

pub mod number;
