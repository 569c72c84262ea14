// Programs in the core language, to which sources are translated and which the evaluator runs.
#![tactic(auto)]

pub mod captured;
pub mod copy;
pub mod form;
pub mod program;
pub mod strip;
pub mod tables;
