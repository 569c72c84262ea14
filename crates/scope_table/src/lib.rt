// What names mean in a unit, which declarations clash, and where there is no instance.
#![tactic(auto)]

pub mod duplicate;
pub mod instance;
pub mod lookup;
pub mod place;
