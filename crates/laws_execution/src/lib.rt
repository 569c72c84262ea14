// That annotations change no run of a program in production.
#![tactic(auto)]

pub mod law;
