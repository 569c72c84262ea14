// The trees of units, with what their tokens and their heights are.
#![tactic(auto)]

pub mod declaration;
pub mod expression;
pub mod identifier;
pub mod operator;
pub mod parameter;
pub mod statement;
pub mod types;
pub mod unit;
