// An isolate's store: its objects and static variables, within a limit of units.
#![tactic(auto)]

mod hash;
mod items;
mod objects;
mod pool;
mod same;
pub mod store;
mod stored;
mod types;
pub mod view;
