// A loaded program is translated.
#![tactic(auto)]

pub mod copy;
pub mod lower;
pub mod number;
pub mod unit;
