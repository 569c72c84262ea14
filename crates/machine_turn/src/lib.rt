// The turn of a program: how it starts, and what it shows at its end.
#![tactic(auto, using(machine_frame::proofs::Resume::resume_push, machine_frame::proofs::Steps::load_push, machine_frame::proofs::Rows::row_laws))]

pub mod fresh;
pub mod law;
pub mod start;
pub mod text;
pub mod turn;
pub mod turned;
