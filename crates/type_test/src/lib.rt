// Whether a type is a subtype of another, as a test that answers for all types.
#![tactic(auto)]

pub mod formed;
pub mod law;
pub mod subtype;
