// The code that reads the heads of declarations: what holds only names and types.
#![tactic(auto)]

pub mod clause;
pub mod directive;
pub mod listing;
pub mod name;
