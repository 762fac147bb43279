//! Why a table file or a feed is not read.

ghost use Rattle.std.specs.Prelude.{◌≡◌};
ghost use Rattle.feed_reader.specs.declared.fault.TextFault.TheVariants.{Memory};

use std::alloc::{AllocError, AllocFailed};
use thiserror::Error;

/// Why a record is refused. The definitions say which kind comes first where several apply.
#[derive(Clone, Copy, Debug, PartialEq, Eq)]
pub enum TextKind {
    /// The first record of a table file is absent, or is not the list of the column names.
    Header,
    /// The first field of a record of a feed is none of the six tags.
    BadTag,
    /// The record has another number of fields than it is to have.
    FieldCount,
    /// A number is not of its form, or a range ends before it begins.
    BadNumber,
    /// A block is begun for a name that no source has.
    UnknownTable,
    /// A record stands outside a block, after one of a later tag, or does not ascend past the one before it.
    OutOfOrder,
    /// A field is not UTF-8.
    NotUtf8,
    /// The feed ends inside a step.
    Unfinished,
    /// The file has too many bytes, rows or steps.
    TooLong,
}

/// Why a table file or a feed is not read.
#[derive(Clone, Copy, Debug, PartialEq, Eq, Error)]
pub enum TextFault {
    /// Memory ran out.
    #[error("out of memory")]
    Memory,
    /// The record of this number, counted from 1, is the first that is refused. The number is 0 where the file has too many bytes.
    #[error("record {number} is refused: {kind:?}")]
    Refused { number: u64, kind: TextKind },
}

impl From<AllocError> for TextFault {
    ghost from_gives = { λ _ fault. fault ≡ Memory };

    fn from(_: AllocError) -> Self {
        TextFault::Memory
    }
}

impl<T: Drop> From<AllocFailed<T>> for TextFault {
    ghost from_gives = { λ _ fault. fault ≡ Memory };

    fn from(_: AllocFailed<T>) -> Self {
        TextFault::Memory
    }
}
