// What a program in the core language does, as a definition, and its laws. The crate runs nothing:
// each function here carries a law or a fact as its contract.
#![tactic(auto)]

pub mod fact;
pub mod law;
