// Forms that are answered at once, and turns of loops.
#![tactic(auto, using(machine_frame::proofs::Resume::resume_push, machine_frame::proofs::Steps::load_push, machine_frame::proofs::Rows::row_laws))]

pub mod entries;
pub mod loops;
pub mod operators;
mod passing;
pub mod quick;
pub mod statements;
mod words;
