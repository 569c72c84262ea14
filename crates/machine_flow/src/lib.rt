// Control flow: how calls, loops, labels and handlers are left.
#![tactic(auto, using(machine_frame::proofs::Resume::resume_push, machine_frame::proofs::Steps::load_push, machine_frame::proofs::Rows::row_laws))]

pub mod calls;
pub mod handlers;
pub mod jumps;
