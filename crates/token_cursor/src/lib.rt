// A cursor over tokens, and what the functions say that read with it.
#![tactic(auto)]

pub mod brackets;
pub mod codes;
pub mod cursor;
pub mod error;
mod value;
