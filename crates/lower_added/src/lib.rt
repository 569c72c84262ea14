// The functions of classes that no declaration writes, and the natives of the prelude.
#![tactic(auto)]

pub mod added;
pub mod native;
pub mod written;
