// The units of a program, each taken once, or the first reason against them.
#![tactic(auto)]

pub mod follow;
pub mod judge;
pub mod load;
pub mod loaded;
pub mod reason;
pub mod units;
