// The natives of strings.
#![tactic(auto)]

mod numeral;
mod part;
pub mod text;
pub mod work;
