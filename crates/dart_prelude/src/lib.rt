// The texts of the libraries that come with the language.
#![tactic(auto)]

pub mod texts;
