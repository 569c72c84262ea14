// The readers of the grammar: deterministic parsers on lists of tokens. The crate is definitions, and single lists that they
// are read by; it runs nothing.
#![tactic(auto)]

pub mod facts;
