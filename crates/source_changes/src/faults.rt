//! Why a batch cannot be applied.

use std::alloc::AllocError;
use tick_model::update::FeedRule;

/// Why a batch cannot be applied.
#[derive(Clone, Copy, Debug, PartialEq, Eq)]
pub enum BatchFault {
    /// Out of memory.
    Memory,
    /// The record of the feed that breaks a rule, and the rule.
    Rule { number: u64, rule: FeedRule },
}

/// Why the keys of a source cannot be brought on by a block.
#[derive(Clone, Copy, PartialEq, Eq)]
pub(crate) enum KeyFault {
    /// Out of memory.
    Memory,
    /// The rule that the block breaks.
    Broken(FeedRule),
}

impl From<AllocError> for BatchFault {
    ghost use Rattle.std.specs.Prelude.{◌≡◌};
    ghost use Rattle.source_changes.specs.declared.faults.BatchFault.TheVariants.{Memory};

    ghost from_gives = { λ _ fault. fault ≡ Memory };

    fn from(_error: AllocError) -> BatchFault {
        BatchFault::Memory
    }
}

impl From<AllocError> for KeyFault {
    ghost use Rattle.std.specs.Prelude.{◌≡◌};
    ghost use Rattle.source_changes.specs.declared.faults.KeyFault.TheVariants.{Memory};

    ghost from_gives = { λ _ fault. fault ≡ Memory };

    fn from(_error: AllocError) -> KeyFault {
        KeyFault::Memory
    }
}
