// The code that reads the statements that hold no other, and the parts of statements that hold none.
#![tactic(auto)]

pub mod catching;
pub mod declaration;
pub mod jump;
pub mod labels;
pub mod look;
