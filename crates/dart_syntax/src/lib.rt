// The grammar of units: which trees are well formed, which tokens they have, and which lists of tokens begin one.
// The crate runs nothing. Each function carries facts on the definitions as its contract.
#![tactic(auto)]

pub mod agreement;
pub mod answer;
pub mod edge;
