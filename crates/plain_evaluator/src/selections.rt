//! Operators that show some rows of their input, under their keys.

ghost use Rattle.std.specs.Prelude.{◌≡◌, IfOk};
ghost use Rattle.tick_model.specs.Formulas.{IsTestWithin};
ghost use Rattle.tick_model.specs.HeadTail.{head_table, tail_table};
ghost use Rattle.tick_model.specs.Ready.{IsWhole};
ghost use Rattle.tick_model.specs.Where.{where_table};

use crate::rows::{copied, rows_copied};
use std::alloc::{AllocError, Global};
use tick_model::formula::passes;
use tick_model::items::Items;
use tick_model::plan::Pred;
use tick_model::table::PlainTable;

/// The rows that pass a test.
pub fn kept(alloc: Global, test: &Pred, input: &PlainTable) -> Result<PlainTable, AllocError>
    requires whole { IsWhole input.now }
    requires within { IsTestWithin input.now.width test.now }
    ensures { IfOk result (λ table. table ≡ where_table test.now input.now) }
{
    let mut rows = Items::new(alloc);
    for row in input.rows.as_slice() {
        if passes(test, row.cells.as_slice()) {
            rows.push(copied(alloc, row)?)?;
        }
    }
    Ok(PlainTable {
        width: input.width,
        rows,
    })
}

/// The first rows, or all where there are fewer.
pub fn head(alloc: Global, count: u32, input: &PlainTable) -> Result<PlainTable, AllocError>
    ensures { IfOk result (λ table. table ≡ head_table count input.now) }
{
    let rows = input.rows.as_slice();
    let first = &rows[..(count as usize).min(rows.len())];
    Ok(PlainTable {
        width: input.width,
        rows: Items::of(rows_copied(alloc, first)?),
    })
}

/// The last rows, or all where there are fewer.
pub fn tail(alloc: Global, count: u32, input: &PlainTable) -> Result<PlainTable, AllocError>
    ensures { IfOk result (λ table. table ≡ tail_table count input.now) }
{
    let rows = input.rows.as_slice();
    let last = &rows[rows.len().saturating_sub(count as usize)..];
    Ok(PlainTable {
        width: input.width,
        rows: Items::of(rows_copied(alloc, last)?),
    })
}
