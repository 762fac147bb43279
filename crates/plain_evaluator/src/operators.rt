//! What each operator makes of the tables of its inputs.

ghost use Rattle.tick_model.specs.Evaluation.{or_fault};
ghost use Rattle.tick_model.specs.Operators.{fault_of, result as result_of, IsReady};
ghost use Rattle.tick_model.specs.Ready.{table_in};
ghost use Rattle.plain_evaluator.specs.Gives.{Gives};

use crate::groups::grouped;
use crate::joins::{joined, joined_as_of};
use crate::merges::merged;
use crate::selections::{head, kept, tail};
use crate::sort::sorted;
use crate::views::viewed;
use std::alloc::{AllocError, Global};
use tick_model::plan::Op;
use tick_model::table::{NodeFault, PlainTable};

/// Why an operator has made no table.
#[derive(Clone, Copy, Debug, PartialEq, Eq)]
pub enum NoTable {
    /// Out of memory.
    Memory,
    /// There is none.
    Fault(NodeFault),
}

impl From<AllocError> for NoTable {
    ghost use Rattle.std.specs.Prelude.{◌≡◌};
    ghost use Rattle.plain_evaluator.specs.declared.operators.NoTable.TheVariants.{Memory};

    ghost from_gives = { λ _ e. e ≡ Memory };

    fn from(_error: AllocError) -> NoTable {
        NoTable::Memory
    }
}

/// The table of an operator, from those of the nodes before it, or why there is none.
pub fn operated(alloc: Global, op: &Op, tables: &[PlainTable]) -> Result<PlainTable, NoTable>
    requires { IsReady op.now tables.now }
    ensures { Gives result (or_fault (fault_of op.now (table_in tables.now)) (result_of op.now (table_in tables.now))) }
{
    match op {
        Op::Source => unreachable!(),
        Op::Keep { input, test } => Ok(kept(alloc, test, &tables[*input as usize])?),
        Op::View { input, exprs } => Ok(viewed(alloc, exprs.as_slice(), &tables[*input as usize])?),
        Op::Join {
            left,
            right,
            on,
            take,
            choice,
        } => {
            let left = &tables[*left as usize];
            let right = &tables[*right as usize];
            joined(alloc, on.as_slice(), take.as_slice(), *choice, left, right)
        }
        Op::Agg { input, by, aggs } => {
            Ok(grouped(
                alloc,
                by.as_slice(),
                aggs.as_slice(),
                &tables[*input as usize],
            )?)
        }
        Op::Merge { inputs } => merged(alloc, tables, inputs.as_slice()),
        Op::Sort { input, by } => Ok(sorted(alloc, by.as_slice(), &tables[*input as usize])?),
        Op::Head { input, rows } => Ok(head(alloc, *rows, &tables[*input as usize])?),
        Op::Tail { input, rows } => Ok(tail(alloc, *rows, &tables[*input as usize])?),
        Op::AsOf {
            left,
            right,
            on,
            at,
            take,
        } => {
            let left = &tables[*left as usize];
            let right = &tables[*right as usize];
            Ok(joined_as_of(alloc, on.as_slice(), *at, take.as_slice(), left, right)?)
        }
    }
}
