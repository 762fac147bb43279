//! An aggregation as an operator of a plan.

use crate::aggregation::Aggregation;
use std::alloc::{AllocError, Global};
use std::sync::ledger::Ledger;
use table_operator::{StepFault, TableOperator, copied, one_input};
use tick_model::plan::Op;
use tick_table::{Change, Shared, Steps, TickTable};

impl TableOperator for Aggregation {
    ghost use Rattle.agg_by.specs.Made.{CanAggregate, KeepsFirst, agg_made};

    ghost made = { agg_made };

    ghost stands = { KeepsFirst };

    ghost can_be = { CanAggregate };

    fn of(alloc: Global, op: &Op, widths: &[u32]) -> Result<Aggregation, AllocError> {
        match op {
            Op::Agg { by, aggs, .. } => {
                let by = copied(alloc, by)?;
                let aggs = copied(alloc, aggs)?;
                Ok(Aggregation::new(alloc, by, aggs, widths[0]))
            }
            _ => unreachable!(),
        }
    }

    fn advance<L: Ledger>(
        self,
        alloc: Global,
        own: &TickTable,
        inputs: &[Shared],
        reads: &mut Steps<L>,
    ) -> Result<(Aggregation, Change), StepFault> {
        Ok(self.change(alloc, one_input(inputs), own, reads)?)
    }
}
