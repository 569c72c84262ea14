// Forms of the core language that the machine enters, and what it does with their operands.
#![tactic(auto, using(machine_frame::proofs::Resume::resume_push, machine_frame::proofs::Steps::load_push, machine_frame::proofs::Rows::row_laws))]

pub mod forms;
pub mod operands;
pub mod operations;
pub mod rows;
pub mod switches;
