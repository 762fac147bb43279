//! How much a script and its tables may have.

/// The most nodes of a plan.
pub const MOST_NODES: usize = 256;

/// The most columns of a node.
pub const MOST_COLUMNS: usize = 32;

/// The fewest and the most inputs of a merge.
pub const FEWEST_INPUTS: usize = 2;

pub const MOST_INPUTS: usize = 16;

/// The most rows of a table, and the most that a line of a script may ask for.
pub const MOST_ROWS: u32 = 4_194_304;

/// Each key of a source is below it.
pub const SOURCE_KEYS: u64 = 1 << 40;

/// Each key of a node is below it.
pub const KEY_SPACE: u64 = 1 << 62;

/// The most words of the snapshot store.
pub const MOST_WORDS: u128 = 1_048_576;
