//! Rows that are followed by the values of formulas.

ghost use Rattle.std.specs.Prelude.{◌≡◌, ◌+◌, ◌^◌, ◌<◌, length, IfOk};
ghost use Rattle.std.specs.List.{All};
ghost use Rattle.tick_model.specs.Formulas.{IsWithin};
ghost use Rattle.tick_model.specs.Ready.{IsWhole};
ghost use Rattle.tick_model.specs.View.{view_row, view_table};

use std::alloc::{AllocError, Global};
use tick_model::formula::value;
use tick_model::items::Items;
use tick_model::plan::Expr;
use tick_model::table::{PlainRow, PlainTable};

fn viewed_row(alloc: Global, exprs: &[Expr], row: &PlainRow) -> Result<PlainRow, AllocError>
    requires { All (IsWithin (length row.now.cells)) exprs.now }
    ensures { IfOk result (λ view. view ≡ view_row exprs.now row.now) }
{
    let mut cells = row.cells.as_slice().to_vec(alloc)?;
    for expr in exprs {
        cells.push(value(expr, row.cells.as_slice()))?;
    }
    Ok(PlainRow {
        key: row.key,
        cells: Items::of(cells),
    })
}

/// Each row, followed by the values of formulas.
pub fn viewed(alloc: Global, exprs: &[Expr], input: &PlainTable) -> Result<PlainTable, AllocError>
    requires whole { IsWhole input.now }
    requires within { All (IsWithin input.now.width) exprs.now }
    requires narrow { input.now.width + length exprs.now < 2 ^ 32 }
    ensures { IfOk result (λ table. table ≡ view_table exprs.now input.now) }
{
    let mut rows = Items::new(alloc);
    for row in input.rows.as_slice() {
        rows.push(viewed_row(alloc, exprs, row)?)?;
    }
    Ok(PlainTable {
        width: input.width + exprs.len() as u32,
        rows,
    })
}
