//! A head and a tail as operators of a plan.

use crate::end::AtEnd;
use crate::end_rows::EndRows;
use std::alloc::{AllocError, Global};
use std::sync::ledger::Ledger;
use table_operator::{StepFault, TableOperator, one_input};
use tick_model::plan::Op;
use tick_table::{Change, Shared, Steps, TickTable};

impl<E: AtEnd> TableOperator for EndRows<E> {
    ghost use Rattle.head_tail.specs.Made.{IsAt, made_at};

    ghost made = { made_at E.end };

    ghost stands = { λ _ _. Unit {0} };

    ghost can_be = { λ op _. IsAt E.end op };

    fn of(_alloc: Global, op: &Op, widths: &[u32]) -> Result<EndRows<E>, AllocError> {
        match op {
            Op::Head { rows, .. } | Op::Tail { rows, .. } => Ok(EndRows::new(*rows, widths[0])),
            _ => unreachable!(),
        }
    }

    fn advance<L: Ledger>(
        self,
        alloc: Global,
        own: &TickTable,
        inputs: &[Shared],
        reads: &mut Steps<L>,
    ) -> Result<(EndRows<E>, Change), StepFault> {
        let change = self.change(alloc, one_input(inputs), own.rows(), reads)?;
        Ok((self, change))
    }
}
