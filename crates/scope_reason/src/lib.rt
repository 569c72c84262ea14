// The first reason against a program whose units are all loaded.
#![tactic(auto)]

pub mod declared;
pub mod main_function;
pub mod reason;
