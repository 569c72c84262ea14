// The refusal of types that are too large above a class, and the table of classes with every refusal of headers.
#![tactic(auto)]

mod bound;
pub mod build;
mod first;
mod large;
