//! What is read back from a text.
ghost use Rattle.std.specs.Prelude.{◌≡◌};
ghost use Rattle.update_text.specs.declared.printed.PrintedFault.TheVariants.{Memory};

use std::alloc::{AllocError, AllocFailed};
use thiserror::Error;
use tick_model::items::Items;
use tick_model::table::PlainRow;
use tick_table::Change;

/// A change and the step at which it was printed.
#[derive(Drop)]
pub struct Printed {
    pub step: u64,
    pub change: Change,
}

/// A snapshot: whose it is, the step at which it was taken, and the rows of its table. Callers and calls are numbered from 0.
#[derive(Drop)]
pub struct Snapshot {
    pub caller: u32,
    pub call: u32,
    pub step: u64,
    pub rows: Items<PlainRow>,
}

/// Why nothing was read back from a text.
#[derive(Clone, Copy, Debug, PartialEq, Eq, Error)]
pub enum PrintedFault {
    /// Memory ran out.
    #[error("out of memory")]
    Memory,
    /// The text is not what is printed.
    #[error("the text is not what is printed")]
    NotPrinted,
}

impl From<AllocError> for PrintedFault {
    ghost from_gives = { λ _ fault. fault ≡ Memory };

    fn from(_: AllocError) -> Self {
        PrintedFault::Memory
    }
}

impl<T: Drop> From<AllocFailed<T>> for PrintedFault {
    ghost from_gives = { λ _ fault. fault ≡ Memory };

    fn from(_: AllocFailed<T>) -> Self {
        PrintedFault::Memory
    }
}
