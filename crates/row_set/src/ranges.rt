//! A range of keys.

/// The keys from `first` to `last`, both included.
#[derive(Debug, Clone, Copy, PartialEq, Eq)]
pub struct Range {
    /// The least key.
    pub first: u64,
    /// The greatest key.
    pub last: u64,
}

/// How many ranges make a block, of which the set knows the position at which it begins.
pub(crate) const BLOCK: usize = 16;
