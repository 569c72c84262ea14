// What statements are made of.
#![tactic(auto)]

pub mod case;
pub mod handler;
pub mod jump;
pub mod part;
pub mod turns;
