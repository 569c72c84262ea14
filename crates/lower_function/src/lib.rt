// Parameters, and functions once their bodies are translated.
#![tactic(auto, using(crate::proofs::Steps::steps), unfolding(translation::specs::Walk::on))]

pub mod function;
pub mod inside;
pub mod literal;
pub mod parameter;
pub mod shared;
pub mod uses;
