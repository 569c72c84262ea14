// What a turn may use, and what it comes to.

use dart_ir::ending::{Lines, TurnEnd};
use dart_store::store::Store;

/// What a turn may use.
#[derive(Clone, Copy)]
pub struct Limits {
    pub steps: u64,
    /// The units of the store, below 2^32.
    pub units: u64,
    /// How deep calls may nest.
    pub depth: u32,
}

/// What a turn shows, and what it leaves.
#[derive(Drop)]
pub struct Turned {
    pub output: Lines,
    pub end: TurnEnd,
    /// The steps left.
    pub left: u64,
    pub store: Store,
}
