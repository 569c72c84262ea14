// The relations between types, and the members that a class has.
#![tactic(auto)]

mod above;
mod assign;
mod clauses;
mod enter;
mod floor;
mod goals;
pub mod instance;
mod intern;
pub mod member;
mod search;
pub mod subtype;
