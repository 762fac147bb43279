//! A merge as an operator of a plan.

use crate::fault::MergeFault;
use crate::merging::Merge;
use std::alloc::{AllocError, Global};
use std::sync::ledger::Ledger;
use table_operator::{StepFault, TableOperator};
use tick_model::plan::Op;
use tick_model::table::NodeFault;
use tick_table::{Change, Shared, Steps, TickTable};

impl From<MergeFault> for StepFault {
    ghost use Rattle.std.specs.Prelude.{◌≡◌};
    ghost use Rattle.merge_op.specs.Made.{of_merge};

    ghost from_gives = { λ error fault. fault ≡ of_merge error };

    fn from(error: MergeFault) -> StepFault {
        match error {
            MergeFault::Memory => StepFault::Memory,
            MergeFault::TooManyRows { rows } => StepFault::Node(NodeFault::TooManyRows { rows }),
        }
    }
}

impl TableOperator for Merge {
    ghost use Rattle.merge_op.specs.Made.{CanMerge, merge_made};

    ghost made = { merge_made };

    ghost stands = { λ _ _. Unit {0} };

    ghost can_be = { CanMerge };

    fn of(_alloc: Global, op: &Op, widths: &[u32]) -> Result<Merge, AllocError> {
        match op {
            Op::Merge { inputs } => Ok(Merge::new(inputs.len() as u32, widths[0])),
            _ => unreachable!(),
        }
    }

    fn advance<L: Ledger>(
        self,
        alloc: Global,
        own: &TickTable,
        inputs: &[Shared],
        reads: &mut Steps<L>,
    ) -> Result<(Merge, Change), StepFault> {
        let change = self.change(alloc, inputs, own.rows(), reads)?;
        Ok((self, change))
    }
}
