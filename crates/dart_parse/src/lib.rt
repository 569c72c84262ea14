// From tokens to units: the circle of the functions that read nodes, and the answer on a whole list.
#![tactic(auto)]

mod knot;
pub mod parse;
