// The natives: what each does, and the steps that it takes.
#![tactic(auto)]

pub mod native;
