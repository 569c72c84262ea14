// Natives that the machine carries out.
#![tactic(auto, using(machine_frame::proofs::Resume::resume_push, machine_frame::proofs::Steps::load_push, machine_frame::proofs::Rows::row_laws))]

mod known;
pub mod natives;
mod print;
mod steps;
