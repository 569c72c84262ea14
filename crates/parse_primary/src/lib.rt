// The code that reads primaries, and the selectors and arguments behind them.
#![tactic(auto)]

pub mod arguments;
pub mod function;
pub mod open;
pub mod parenthesis;
pub mod primary;
pub mod selectors;
