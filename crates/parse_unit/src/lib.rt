// From tokens to units.
#![tactic(auto)]

pub mod answer;
pub mod fault;
pub mod left_out;
