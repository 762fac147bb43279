//! Why there is no run.

ghost use Rattle.std.specs.Prelude.{◌≡◌};
ghost use Rattle.feed_run.specs.declared.refusal.LoadStop.TheVariants.{Memory};

use feed_reader::TextKind;
use script_lines::fault::ScriptKind;
use std::alloc::{AllocError, AllocFailed};
use tick_model::name::Name;

/// Why words or a file are refused.
#[derive(Drop)]
pub enum Refusal {
    /// The words are of no command.
    Usage,
    /// The first refused line of the script, and why.
    Script {
        line: u64,
        kind: ScriptKind,
    },
    /// The first refused record of the table file of a source, and why.
    Table {
        source: Name,
        number: u64,
        kind: TextKind,
    },
    /// The first refused record of the feed, and why.
    Feed {
        number: u64,
        kind: TextKind,
    },
}

/// Why there is no run.
#[derive(Drop)]
pub enum LoadStop {
    /// Memory ran out.
    Memory,
    /// The file of this name could not be read.
    Unread(Name),
    /// The script, a table file or the feed is refused.
    Refused(Refusal),
}

impl From<AllocError> for LoadStop {
    ghost from_gives = { λ _ stop. stop ≡ Memory };

    fn from(_: AllocError) -> Self {
        LoadStop::Memory
    }
}

impl<T: Drop> From<AllocFailed<T>> for LoadStop {
    ghost from_gives = { λ _ stop. stop ≡ Memory };

    fn from(_: AllocFailed<T>) -> Self {
        LoadStop::Memory
    }
}
