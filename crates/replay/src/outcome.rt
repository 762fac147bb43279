//! How a run is run, and what it ends with.
ghost use Rattle.std.specs.Prelude.{◌≡◌, IsFalse, IsTrue};
ghost use Rattle.replay.specs.Outcomes.{IsTold};
ghost use Rattle.replay.specs.declared.outcome.Outcome.TheVariants.{Memory};
ghost use Rattle.replay.specs.Stopped.{outcome_of_stop, outcome_of_write};

use crate::readers::KeptSnapshot;
use std::alloc::AllocError;
use tick_model::items::Items;
use tick_model::table::NodeFault;
use tick_model::update::FeedRule;
use update_graph::Stop;
use update_text::WriteFault;

/// How a run is run.
#[derive(Clone, Copy, Debug, PartialEq, Eq)]
pub struct Knobs {
    /// How many threads work the nodes of a step.
    pub workers: u32,
    /// How many callers take snapshots beside the run.
    pub callers: u32,
    /// How many snapshots a caller takes beside the run.
    pub snaps: u32,
    /// How often a snapshot is tried before its caller takes the turn.
    pub attempts: u32,
}

/// What a run ends with.
#[derive(Drop)]
pub enum Outcome {
    /// Every step is done: the last step, how many records its updates have, and how many rows each node has at the end.
    Done {
        step: u64,
        records: u64,
        rows: Items<u64>,
    },
    /// Memory ran out.
    Memory,
    /// The snapshots to be kept have too many words.
    Kept {
        words: u64,
    },
    /// The batch of this step breaks a rule at a record of the feed.
    Feed {
        step: u64,
        number: u64,
        fault: FeedRule,
    },
    /// A node has no table at this step although its inputs have theirs. The least such node is named.
    Node {
        step: u64,
        node: u32,
        kind: NodeFault,
    },
    /// A published table has more rows than its limit at this step. The least such table is named.
    Publish {
        step: u64,
        number: u32,
        rows: u64,
        limit: u64,
    },
    /// The sink failed.
    Write,
}

/// A run that has ended: what it ends with, and the snapshots that were taken beside it, by caller and then by call. There are none where
/// the run was cut off before its last calls.
#[derive(Drop)]
pub struct Ran {
    pub outcome: Outcome,
    pub snapshots: Items<Items<KeptSnapshot>>,
}

impl Outcome {
    /// Whether memory did not run out and the sink did not fail.
    pub(crate) fn is_told(&self) -> bool
        ensures told { IsTrue result → IsTold self.now }
        ensures not { IsFalse result → IsTold self.now → ⊥ }
    {
        match self {
            Outcome::Memory | Outcome::Write => false,
            _ => true,
        }
    }
}

impl From<AllocError> for Outcome {
    ghost from_gives = { λ _ outcome. outcome ≡ Memory };

    fn from(_: AllocError) -> Self {
        Outcome::Memory
    }
}

impl From<WriteFault> for Outcome {
    ghost from_gives = { λ fault outcome. outcome ≡ outcome_of_write fault };

    fn from(fault: WriteFault) -> Self {
        match fault {
            WriteFault::Memory => Outcome::Memory,
            WriteFault::Failed => Outcome::Write,
        }
    }
}

impl From<Stop> for Outcome {
    ghost from_gives = { λ stop outcome. outcome ≡ outcome_of_stop stop };

    fn from(stop: Stop) -> Self {
        match stop {
            Stop::Memory => Outcome::Memory,
            Stop::Feed {
                step,
                number,
                fault,
            } => Outcome::Feed {
                step,
                number,
                fault,
            },
            Stop::Node { step, node, kind } => Outcome::Node { step, node, kind },
        }
    }
}
