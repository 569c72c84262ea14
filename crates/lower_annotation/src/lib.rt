// What the annotations of library and static variables ask for, and what aliases of function types stand for.
#![tactic(auto)]

pub mod alias;
pub mod annotations;
pub mod bottom;
pub mod declaration;
pub mod entry;
pub mod instance;
pub mod number;
pub mod place;
pub mod round;
pub mod state;
pub mod surroundings;
pub mod variable;
