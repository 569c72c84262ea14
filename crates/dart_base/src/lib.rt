// What every crate speaks of: places in units, bytes, units of text, names, limits, and the features that the profile
// leaves out.
#![tactic(auto)]

pub mod bytes;
pub mod feature;
pub mod limit;
pub mod name;
pub mod names;
pub mod place;
pub mod units;
