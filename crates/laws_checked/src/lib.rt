// How a checked turn goes beside the same turn in production. The crate runs nothing: each function here carries a law as its
// contract.
#![tactic(auto)]

pub mod law;
