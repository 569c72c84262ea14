// The code that reads constructors.
#![tactic(auto)]

pub mod constructor;
pub mod factory;
pub mod generative;
pub mod initializer;
pub mod rest;
pub mod scan;
