//! Why a step of a merge is refused.

use std::alloc::AllocError;

/// Why a step of a merge is refused.
#[derive(Clone, Copy, Debug, PartialEq, Eq)]
pub enum MergeFault {
    /// Out of memory.
    Memory,
    /// The inputs together have more rows than a table may have.
    TooManyRows { rows: u64 },
}

impl From<AllocError> for MergeFault {
    ghost use Rattle.std.specs.Prelude.{◌≡◌};
    ghost use Rattle.merge_op.specs.declared.fault.MergeFault.TheVariants.{Memory};

    ghost from_gives = { λ _ fault. fault ≡ Memory };

    fn from(_error: AllocError) -> MergeFault {
        MergeFault::Memory
    }
}
