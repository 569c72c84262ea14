// The limits of the product, each with its unit.

/// The most bytes of a unit, tested by the lexis.
pub const UNIT_BYTES: usize = 64_000_000;

/// The most lines of a unit, tested by the lexis.
pub const UNIT_LINES: usize = 1_000_000;

/// The greatest weight of a unit, tested by the lexis: the sum of its tokens' lengths in bytes, each counted as at
/// least 3.
pub const UNIT_WEIGHT: usize = 4_000_000;

/// The most units of a program.
pub const PROGRAM_UNITS: usize = 64;

/// The greatest weight of a program, the sum of its units'.
pub const PROGRAM_WEIGHT: usize = 8_000_000;

/// The greatest depth of a tree in nodes, tested by the parser.
pub const TREE_DEPTH: usize = 200;

/// The depth in nodes up to which the parser looks for a tree, so as to tell one that is too deep from what is none.
pub const FURTHER_TREE_DEPTH: usize = 300;

/// The most parameters of one list.
pub const PARAMETERS: usize = 255;

/// The most nodes of an instantiated type.
pub const TYPE_NODES: usize = 256;

/// The greatest integer, 2^127 - 1, the same for literals and for each operation on integers.
pub const GREATEST_INTEGER: u128 = 170141183460469231731687303715884105727;

/// The most calls in one another.
pub const NESTED_CALLS: u32 = 10_000;

/// The most isolates of a run, all that were ever made.
pub const ISOLATES: u32 = 32;

/// The most workers of a run.
pub const WORKERS: u32 = 16;

/// The workers of a run whose words give none.
pub const USUAL_WORKERS: u32 = 4;

/// The most steps of an isolate.
pub const STEPS: u64 = 1_000_000_000;

/// The steps of an isolate where the words give none.
pub const USUAL_STEPS: u64 = 10_000_000;

/// The most units of an isolate's store.
pub const STORE_UNITS: u64 = 2_000_000;

/// The units of an isolate's store where the words give none.
pub const USUAL_STORE_UNITS: u64 = 1_000_000;
