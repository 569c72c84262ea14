// What string and integer literals stand for.
#![tactic(auto)]

pub mod integer;
pub mod part;
pub mod reading;
pub mod whole;
