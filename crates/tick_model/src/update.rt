//! How the rows of a table change: where kept rows move, and which rule an update can break.

/// The keys from the first to the last.
#[derive(Clone, Copy, Debug, PartialEq, Eq)]
pub struct KeyRange {
    pub first: u64,
    pub last: u64,
}

/// The rows with the old keys from `begin` to `end` move by `delta`.
#[derive(Clone, Copy, Debug, PartialEq, Eq)]
pub struct ShiftRange {
    pub begin: u64,
    pub end: u64,
    pub delta: i64,
}

/// The old and the new key of a row that stays.
#[derive(Clone, Copy, Debug, PartialEq, Eq)]
pub struct KeyPair {
    pub old: u64,
    pub new: u64,
}

/// The first rule that an update breaks, with the least key that shows it; the rules are tried in this order.
#[derive(Clone, Copy, Debug, PartialEq, Eq)]
pub enum UpdateFault {
    /// A removed key is no old key.
    RemovedAbsent { key: u64 },
    /// The shift leads `second` past the limit (then `first` is `second`), or not past the key `first` before it.
    ShiftBreaks { first: u64, second: u64 },
    /// An added key is that of a row that stays.
    AddedTaken { key: u64 },
    /// A modified key is neither that of a row that stays nor added.
    ModifiedAbsent { key: u64 },
    /// A modified key is added.
    ModifiedAdded { key: u64 },
    /// Out of memory.
    Memory,
}

/// Why a block of a feed cannot be applied to its source.
#[derive(Clone, Copy, Debug, PartialEq, Eq)]
pub enum FeedRule {
    /// The block breaks a rule of updates; never `UpdateFault::Memory`.
    Update(UpdateFault),
    /// The source would have so many rows, more than it may have.
    TooManyRows { rows: u64 },
}
