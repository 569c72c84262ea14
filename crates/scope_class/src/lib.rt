// What names mean inside of classes.
#![tactic(auto)]

pub mod class;
pub mod constructor;
pub mod members;
pub mod sense;
pub mod within;
