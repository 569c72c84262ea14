// What names mean in a library, by their texts as they are written there.
#![tactic(auto)]

pub mod dictionary;
pub mod library;
pub mod written;
