// `identical`, and the natives of `Object`.
#![tactic(auto)]

pub mod identity;
pub mod known;
pub mod object;
pub mod shown;
mod types;
