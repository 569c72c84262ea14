// Lookup of members without a walk up the chain of superclasses.
#![tactic(auto)]

pub mod index;
pub mod linked;
pub mod tree;
