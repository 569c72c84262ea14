// The natives of lists.
#![tactic(auto)]

mod item;
pub mod list;
mod made;
mod room;
mod size;
pub mod work;
