// That the core of a program does not depend on annotations or columns.
#![tactic(auto)]

pub mod law;
