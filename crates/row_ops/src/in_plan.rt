//! A filter and a view as operators of a plan.

use crate::copies::{copied_exprs, copied_test};
use crate::row_filter::RowFilter;
use crate::view_op::ViewOp;
use std::alloc::{AllocError, Global};
use std::sync::ledger::Ledger;
use table_operator::{StepFault, TableOperator, one_input};
use tick_model::plan::Op;
use tick_table::{Change, Shared, Steps, TickTable};

impl TableOperator for RowFilter {
    ghost use Rattle.row_ops.specs.Made.{CanFilter, filter_made};

    ghost made = { filter_made };

    ghost stands = { λ _ _. Unit {0} };

    ghost can_be = { CanFilter };

    fn of(alloc: Global, op: &Op, widths: &[u32]) -> Result<RowFilter, AllocError> {
        match op {
            Op::Keep { test, .. } => {
                let test = copied_test(alloc, test)?;
                Ok(RowFilter::new(test, widths[0]))
            }
            _ => unreachable!(),
        }
    }

    fn advance<L: Ledger>(
        self,
        alloc: Global,
        own: &TickTable,
        inputs: &[Shared],
        reads: &mut Steps<L>,
    ) -> Result<(RowFilter, Change), StepFault> {
        let change = self.change(alloc, one_input(inputs), own.rows(), reads)?;
        Ok((self, change))
    }
}

impl TableOperator for ViewOp {
    ghost use Rattle.row_ops.specs.Made.{CanView, view_made};

    ghost made = { view_made };

    ghost stands = { λ _ _. Unit {0} };

    ghost can_be = { CanView };

    fn of(alloc: Global, op: &Op, widths: &[u32]) -> Result<ViewOp, AllocError> {
        match op {
            Op::View { exprs, .. } => {
                let exprs = copied_exprs(alloc, exprs)?;
                Ok(ViewOp::new(alloc, exprs, widths[0]))
            }
            _ => unreachable!(),
        }
    }

    fn advance<L: Ledger>(
        self,
        alloc: Global,
        _own: &TickTable,
        inputs: &[Shared],
        reads: &mut Steps<L>,
    ) -> Result<(ViewOp, Change), StepFault> {
        Ok(self.step(alloc, one_input(inputs), reads)?)
    }
}
