// From a text to its unit, and to its text without annotations.
#![tactic(auto)]

pub mod check;
pub mod erased;
pub mod fault;
pub mod unit;

pub use dart_parse::parse::parse;
