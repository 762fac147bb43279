//! Why a run goes no further.

ghost use Rattle.source_changes.specs.Faults.{IsFault};
ghost use Rattle.tick_model.specs.Sources.{batch_fault};
ghost use Rattle.tick_model.specs.declared.feed.Run.{Run};
ghost use Rattle.update_graph.specs.Stops.{IsStop};

use source_changes::BatchFault;
use std::alloc::AllocError;
use tick_model::table::NodeFault;
use tick_model::update::FeedRule;

/// Why a run goes no further.
#[derive(Clone, Copy, Debug, PartialEq, Eq)]
pub enum Stop {
    /// Out of memory.
    Memory,
    /// The first record of the step's batch that breaks a rule, and the rule.
    Feed {
        step: u64,
        number: u64,
        fault: FeedRule,
    },
    /// The least node that has no table at the step although its inputs have theirs.
    Node {
        step: u64,
        node: u32,
        kind: NodeFault,
    },
}

impl From<AllocError> for Stop {
    ghost use Rattle.std.specs.Prelude.{◌≡◌};
    ghost use Rattle.update_graph.specs.declared.stop.Stop.TheVariants.{Memory};

    ghost from_gives = { λ _ stop. stop ≡ Memory };

    fn from(_error: AllocError) -> Stop {
        Stop::Memory
    }
}

/// What it is for a run that the batch of a step is refused.
pub(crate) fn refused(step: u64, fault: BatchFault) -> Stop
    ensures { (run : Run) → IsFault (batch_fault run step) fault → IsStop run step result }
{
    match fault {
        BatchFault::Memory => Stop::Memory,
        BatchFault::Rule { number, rule } => Stop::Feed {
            step,
            number,
            fault: rule,
        },
    }
}
