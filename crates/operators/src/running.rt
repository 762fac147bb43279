//! The operators by what they do.

use agg_by::Aggregation;
use head_tail::{AtFirst, AtLast, EndRows};
use lookup_join::{AsOfOp, JoinOp};
use merge_op::Merge;
use row_ops::{RowFilter, ViewOp};
use sort_op::SortOp;
use std::alloc::{AllocError, Global};
use std::sync::ledger::Ledger;
use table_operator::{StepFault, TableOperator};
use tick_model::plan::Op;
use tick_table::{Change, Shared, Steps, TickTable};

/// An operator with what it keeps.
#[derive(Drop)]
pub enum AnyOperator {
    Where(RowFilter),
    View(ViewOp),
    Join(JoinOp),
    Agg(Aggregation),
    Merge(Merge),
    Sort(SortOp),
    Head(EndRows<AtFirst>),
    Tail(EndRows<AtLast>),
    AsOf(AsOfOp),
}

impl TableOperator for AnyOperator {
    ghost use Rattle.operators.specs.Operating.{CanBeMade, KeepsOf, made_of};

    ghost made = { made_of };

    ghost stands = { KeepsOf };

    ghost can_be = { CanBeMade };

    fn of(alloc: Global, op: &Op, widths: &[u32]) -> Result<AnyOperator, AllocError> {
        match op {
            Op::Source => unreachable!(),
            Op::Keep { .. } => Ok(AnyOperator::Where(RowFilter::of(alloc, op, widths)?)),
            Op::View { .. } => Ok(AnyOperator::View(ViewOp::of(alloc, op, widths)?)),
            Op::Join { .. } => Ok(AnyOperator::Join(JoinOp::of(alloc, op, widths)?)),
            Op::Agg { .. } => Ok(AnyOperator::Agg(Aggregation::of(alloc, op, widths)?)),
            Op::Merge { .. } => Ok(AnyOperator::Merge(Merge::of(alloc, op, widths)?)),
            Op::Sort { .. } => Ok(AnyOperator::Sort(SortOp::of(alloc, op, widths)?)),
            Op::Head { .. } => Ok(AnyOperator::Head(EndRows::of(alloc, op, widths)?)),
            Op::Tail { .. } => Ok(AnyOperator::Tail(EndRows::of(alloc, op, widths)?)),
            Op::AsOf { .. } => Ok(AnyOperator::AsOf(AsOfOp::of(alloc, op, widths)?)),
        }
    }

    fn advance<L: Ledger>(
        self,
        alloc: Global,
        own: &TickTable,
        inputs: &[Shared],
        reads: &mut Steps<L>,
    ) -> Result<(AnyOperator, Change), StepFault> {
        match self {
            AnyOperator::Where(filter) => {
                let (filter, change) = filter.advance(alloc, own, inputs, reads)?;
                Ok((AnyOperator::Where(filter), change))
            }
            AnyOperator::View(view) => {
                let (view, change) = view.advance(alloc, own, inputs, reads)?;
                Ok((AnyOperator::View(view), change))
            }
            AnyOperator::Join(join) => {
                let (join, change) = join.advance(alloc, own, inputs, reads)?;
                Ok((AnyOperator::Join(join), change))
            }
            AnyOperator::Agg(agg) => {
                let (agg, change) = agg.advance(alloc, own, inputs, reads)?;
                Ok((AnyOperator::Agg(agg), change))
            }
            AnyOperator::Merge(merge) => {
                let (merge, change) = merge.advance(alloc, own, inputs, reads)?;
                Ok((AnyOperator::Merge(merge), change))
            }
            AnyOperator::Sort(sort) => {
                let (sort, change) = sort.advance(alloc, own, inputs, reads)?;
                Ok((AnyOperator::Sort(sort), change))
            }
            AnyOperator::Head(head) => {
                let (head, change) = head.advance(alloc, own, inputs, reads)?;
                Ok((AnyOperator::Head(head), change))
            }
            AnyOperator::Tail(tail) => {
                let (tail, change) = tail.advance(alloc, own, inputs, reads)?;
                Ok((AnyOperator::Tail(tail), change))
            }
            AnyOperator::AsOf(join) => {
                let (join, change) = join.advance(alloc, own, inputs, reads)?;
                Ok((AnyOperator::AsOf(join), change))
            }
        }
    }
}
