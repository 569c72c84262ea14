// Loops that read lists: what is known before each turn, and what each way out of the loop gives.
// The crate runs nothing: it has the invariants and the lemmas of the crates that read.
#![tactic(auto)]
