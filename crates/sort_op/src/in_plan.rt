//! A sort as an operator of a plan.

use crate::operator::SortOp;
use std::alloc::{AllocError, Global};
use std::sync::ledger::Ledger;
use table_operator::{StepFault, TableOperator, copied, one_input};
use tick_model::plan::Op;
use tick_table::{Change, Shared, Steps, TickTable};

impl TableOperator for SortOp {
    ghost use Rattle.sort_op.specs.Made.{CanSort, HasEntries, sort_made};

    ghost made = { sort_made };

    ghost stands = { HasEntries };

    ghost can_be = { λ op _. CanSort op };

    fn of(alloc: Global, op: &Op, widths: &[u32]) -> Result<SortOp, AllocError> {
        match op {
            Op::Sort { by, .. } => {
                let by = copied(alloc, by)?;
                Ok(SortOp::new(alloc, by, widths[0]))
            }
            _ => unreachable!(),
        }
    }

    fn advance<L: Ledger>(
        self,
        alloc: Global,
        _own: &TickTable,
        inputs: &[Shared],
        reads: &mut Steps<L>,
    ) -> Result<(SortOp, Change), StepFault> {
        Ok(self.step(alloc, one_input(inputs), reads)?)
    }
}
