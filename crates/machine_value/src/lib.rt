// What forms make and read that is no call: errors, strings, lists, closures, static variables, and types.
#![tactic(auto, using(machine_frame::proofs::Resume::resume_push, machine_frame::proofs::Steps::load_push, machine_frame::proofs::Rows::row_laws))]

pub mod checks;
pub mod errors;
pub mod heads;
pub mod objects;
mod scope;
pub mod statics;
pub mod texts;
pub mod types;
pub mod verdicts;
