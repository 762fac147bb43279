//! The joins as operators of a plan.

use crate::as_of_op::AsOfOp;
use crate::join_op::{JoinFault, JoinOp};
use std::alloc::{AllocError, Global};
use std::sync::ledger::Ledger;
use table_operator::{StepFault, TableOperator, copied, two_inputs};
use tick_model::plan::Op;
use tick_model::table::NodeFault;
use tick_table::{Change, Shared, Steps, TickTable};

impl From<JoinFault> for StepFault {
    ghost use Rattle.std.specs.Prelude.{◌≡◌};
    ghost use Rattle.lookup_join.specs.Made.{of_join};

    ghost from_gives = { λ error fault. fault ≡ of_join error };

    fn from(error: JoinFault) -> StepFault {
        match error {
            JoinFault::Memory => StepFault::Memory,
            JoinFault::DuplicateRight {
                left_key,
                first,
                second,
            } => StepFault::Node(NodeFault::DuplicateRight {
                left_key,
                first,
                second,
            }),
        }
    }
}

impl TableOperator for JoinOp {
    ghost use Rattle.lookup_join.specs.Made.{CanJoin, StandsForBoth, join_made};

    ghost made = { join_made };

    ghost stands = { StandsForBoth };

    ghost can_be = { CanJoin };

    fn of(alloc: Global, op: &Op, widths: &[u32]) -> Result<JoinOp, AllocError> {
        match op {
            Op::Join {
                on,
                take,
                choice,
                ..
            } => {
                let on = copied(alloc, on)?;
                let take = copied(alloc, take)?;
                Ok(JoinOp::new(alloc, on, take, *choice, widths[0], widths[1]))
            }
            _ => unreachable!(),
        }
    }

    fn advance<L: Ledger>(
        self,
        alloc: Global,
        _own: &TickTable,
        inputs: &[Shared],
        reads: &mut Steps<L>,
    ) -> Result<(JoinOp, Change), StepFault> {
        let (left, right) = two_inputs(inputs);
        Ok(self.step(alloc, left, right, reads)?)
    }
}

impl TableOperator for AsOfOp {
    ghost use Rattle.lookup_join.specs.Made.{CanMatch, MatchesBoth, as_of_made};

    ghost made = { as_of_made };

    ghost stands = { MatchesBoth };

    ghost can_be = { CanMatch };

    fn of(alloc: Global, op: &Op, widths: &[u32]) -> Result<AsOfOp, AllocError> {
        match op {
            Op::AsOf { on, at, take, .. } => {
                let on = copied(alloc, on)?;
                let take = copied(alloc, take)?;
                Ok(AsOfOp::new(alloc, on, *at, take, widths[0], widths[1]))
            }
            _ => unreachable!(),
        }
    }

    fn advance<L: Ledger>(
        self,
        alloc: Global,
        _own: &TickTable,
        inputs: &[Shared],
        reads: &mut Steps<L>,
    ) -> Result<(AsOfOp, Change), StepFault> {
        let (left, right) = two_inputs(inputs);
        Ok(self.step(alloc, left, right, reads)?)
    }
}
