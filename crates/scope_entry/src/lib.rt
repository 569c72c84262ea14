// The libraries of a loaded program, as their namespaces are made from them.
#![tactic(auto)]

pub mod directive;
pub mod entry;
pub mod kind;
pub mod library;
