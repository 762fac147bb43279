//! What calls answer.

/// What an attempt answers.
#[derive(Clone, Copy, Debug, PartialEq, Eq)]
pub enum Attempt {
    /// The words of the table at this step were taken.
    Taken { step: u64 },
    /// The clock, as it was at the first look and at the last, has gone so far that the words may have been overwritten
    /// in between.
    Moved { first: u64, last: u64 },
}

/// What a snapshot answers: the table was taken.
#[derive(Clone, Copy, Debug, PartialEq, Eq)]
pub struct Taken {
    /// The step whose words were taken.
    pub step: u64,
    /// How many attempts were made without the turn.
    pub tries: u32,
    /// Whether it was taken with the turn.
    pub locked: bool,
}

/// A table has more rows than its limit.
#[derive(Clone, Copy, Debug, PartialEq, Eq)]
pub struct Full {
    pub rows: u64,
    pub limit: u64,
}

/// What a store has come to.
#[derive(Clone, Copy, Debug, PartialEq, Eq)]
pub struct Ended {
    /// The last completed step.
    pub step: u64,
}
