// What the later stages speak of: numbers, types, the table of classes, values, objects, and how a turn ends.
#![tactic(auto)]

pub mod class;
pub mod ending;
pub mod kind;
pub mod native;
pub mod number;
pub mod object;
pub mod types;
pub mod value;
pub mod values;
