//! Why a step of an operator is refused.

use std::alloc::AllocError;
use tick_model::table::NodeFault;

/// Why a step of an operator is refused.
#[derive(Clone, Copy, Debug, PartialEq, Eq)]
pub enum StepFault {
    /// Out of memory.
    Memory,
    /// The node has no table although its inputs have theirs.
    Node(NodeFault),
}

impl From<AllocError> for StepFault {
    ghost use Rattle.std.specs.Prelude.{◌≡◌};
    ghost use Rattle.table_operator.specs.declared.fault.StepFault.TheVariants.{Memory};

    ghost from_gives = { λ _ fault. fault ≡ Memory };

    fn from(_error: AllocError) -> StepFault {
        StepFault::Memory
    }
}
