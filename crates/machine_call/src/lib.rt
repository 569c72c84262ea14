// Calls of functions, members and values, and new objects.
#![tactic(auto, using(machine_frame::proofs::Resume::resume_push, machine_frame::proofs::Steps::load_push, machine_frame::proofs::Rows::row_laws))]

pub mod callables;
pub mod calls;
pub mod creation;
pub mod missing;
mod parameters;
pub mod sends;
