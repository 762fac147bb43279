//! How many cells an operator reads in each of its steps. The counts are for contracts alone, and take no bytes.

use boxcar::tag::{Names, Tag};
use std::snapshot::Snapshot;
use std::sync::ledger::Ledger;
use tick_table::Steps;

/// The counts of the steps before a step, and the counter of reads as the step begins and as it ends.
#[derive(Drop)]
pub(crate) struct StepCount<L: Ledger> {
    pub(crate) before: Tag,
    pub(crate) start: Snapshot<Steps<L>>,
    pub(crate) end: Snapshot<Steps<L>>,
}

/// One step more, in which as many cells were read as the counter counted.
pub(crate) struct Counted;

impl<L: Ledger> Names<StepCount<L>> for Counted {
    ghost use Rattle.std.specs.Prelude.{◌-◌, ◌++◌, ◌∷◌, []};

    ghost numbers = { λ step. step.before.numbers ++ (step.end.value - step.start.value) ∷ [] };
}

/// One step more, in which no cell was read.
pub(crate) struct Idle;

impl Names<Tag> for Idle {
    ghost use Rattle.std.specs.Prelude.{◌++◌, ◌∷◌, []};

    ghost numbers = { λ before. before.numbers ++ 0 ∷ [] };
}
