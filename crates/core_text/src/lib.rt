// Programs in the core language as text.
#![tactic(auto)]

pub mod declaration;
pub mod form;
pub mod head;
pub mod line;
pub mod name;
pub mod program;
pub mod types;
pub mod value;
