// What names mean outside of local scopes.
#![tactic(auto)]

pub mod meaning;
pub mod sense;
