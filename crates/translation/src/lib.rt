// What the core of a program is.
#![tactic(auto)]

pub mod fact;
