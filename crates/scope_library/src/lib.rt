// The libraries of a loaded program (ECMA-408, 18 Libraries and Scripts).
#![tactic(auto)]

pub mod library;
