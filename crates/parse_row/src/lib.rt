// Rows of operators, from unary expressions to conditionals.
#![tactic(auto)]

pub mod chains;
pub mod choice;
pub mod comparisons;
pub mod lower;
pub mod operators;
pub mod rows;
pub mod shifts;
