// The code that reads functions and accessors that are declared, and the members of a class that are no constructors.
#![tactic(auto)]

pub mod accessor;
pub mod function;
pub mod look;
pub mod member;
pub mod operator;
