// The code that reads directives, declarations and units.
#![tactic(auto)]

pub mod declaration;
pub mod directive;
pub mod item;
pub mod look;
pub mod order;
pub mod unit;
