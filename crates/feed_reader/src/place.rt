//! Where the reading of a feed is.

ghost use Rattle.std.specs.Prelude.{◌≡◌, ℕ, ℤ, List};
ghost use Rattle.tick_model.specs.declared.plan.Kind.{Kind};
ghost use Rattle.feed_reader.specs.Said.{said};
ghost use Rattle.feed_reader.specs.Places.{part_rank, opened as opened_at, passed as passed_at, place_after, is_outside as is_outside_of, is_past as is_past_of};

use crate::entries::FeedEntry;

/// The parts of a block, in their order.
#[derive(Clone, Copy, PartialEq, Eq)]
pub(crate) enum BlockPart {
    Removed,
    Shifts,
    Added,
    Modified,
}

/// What the first field of a record of a feed is.
#[derive(Clone, Copy, PartialEq, Eq)]
pub(crate) enum Tag {
    /// A block begins.
    Block,
    /// A record of a part of the block.
    Of(BlockPart),
    /// The step ends.
    End,
}

/// Where the reading of a feed is.
#[derive(Clone, Copy, PartialEq, Eq)]
pub(crate) enum BlockState {
    /// Before the first block of a step.
    Outside,
    /// In a block of a source: the part that was reached, and the last key of its last record, if it has one.
    Inside {
        table: u32,
        part: BlockPart,
        last: Option<u64>,
    },
}

impl BlockPart {
    fn rank(self) -> u8
        ensures { result ≡ part_rank self }
    {
        match self {
            BlockPart::Removed => 0,
            BlockPart::Shifts => 1,
            BlockPart::Added => 2,
            BlockPart::Modified => 3,
        }
    }
}

impl BlockState {
    /// Where a record of a part stands: in which source's block, and after which key of the same part. `None` where it may not stand here.
    pub(crate) fn opened(self, next: BlockPart) -> Option<(u32, Option<u64>)>
        ensures { result ≡ opened_at self next }
    {
        match self {
            BlockState::Outside => None,
            BlockState::Inside { part, .. } if next.rank() < part.rank() => None,
            BlockState::Inside { table, part, last } if next.rank() == part.rank() => Some((
                table, last,
            )),
            BlockState::Inside { table, .. } => Some((table, None)),
        }
    }

    fn passed(self, part: BlockPart, last: u64) -> BlockState
        ensures { result ≡ passed_at self part last }
    {
        match self {
            BlockState::Outside => BlockState::Outside,
            BlockState::Inside { table, .. } => BlockState::Inside {
                table,
                part,
                last: Some(last),
            },
        }
    }

    /// Where the reading is after a record.
    pub(crate) fn after(self, entry: &FeedEntry) -> BlockState
        ensures { (texts : List (List ℕ)) (kinds : List Kind) (cells : List ℤ) → result ≡ place_after self (said texts kinds cells entry.now) }
    {
        match entry {
            FeedEntry::Block(table) => BlockState::Inside {
                table: *table,
                part: BlockPart::Removed,
                last: None,
            },
            FeedEntry::Removed(range) => self.passed(BlockPart::Removed, range.last),
            FeedEntry::Shift(range) => self.passed(BlockPart::Shifts, range.end),
            FeedEntry::Added(key) => self.passed(BlockPart::Added, *key),
            FeedEntry::Modified(key) => self.passed(BlockPart::Modified, *key),
            FeedEntry::End => BlockState::Outside,
        }
    }

    /// Whether no step is begun.
    pub(crate) fn is_outside(self) -> bool
        ensures { result ≡ is_outside_of self }
    {
        matches!(self, BlockState::Outside)
    }
}

/// Whether a key ascends past the one before it.
pub(crate) fn is_past(before: Option<u64>, key: u64) -> bool
    ensures { result ≡ is_past_of before key }
{
    match before {
        None => true,
        Some(before) => before < key,
    }
}
