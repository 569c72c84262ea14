// What a machine works on: its frames, its stacks, its store, and the moves that all forms share.
#![tactic(auto, using(crate::proofs::Resume::resume_push, crate::proofs::Steps::load_push, crate::proofs::Rows::row_laws))]

pub mod around;
pub mod moves;
pub mod objects;
pub mod run;
pub mod same;
pub mod sites;
pub mod stacks;
pub mod variables;
