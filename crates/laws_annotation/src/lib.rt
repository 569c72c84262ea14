// That names mean in an erased program what they mean in the program.
#![tactic(auto)]

pub mod law;
