// What the laws of the parser and of erasure cite of the grammar: how deep its trees are, that a larger depth accepts more,
// and which lists of tokens leave a choice. The crate runs nothing. Each function carries laws of the definitions as its
// contract.
#![tactic(auto)]

pub mod fronts;
pub mod heights;
pub mod readings;
