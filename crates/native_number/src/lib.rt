// The natives of whole numbers.
#![tactic(auto)]

pub mod number;
