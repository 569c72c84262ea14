// The steps that natives take.
#![tactic(auto)]

pub mod length;
pub mod steps;
