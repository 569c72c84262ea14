// The tokens of a unit, and the tables of the words and signs that they spell.
#![tactic(auto)]

pub mod sign;
pub mod token;
pub mod word;
