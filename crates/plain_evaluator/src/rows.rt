//! Rows and tables that are copied.

ghost use Rattle.std.specs.Prelude.{◌≡◌, IfOk};

use std::alloc::{AllocError, Global};
use tick_model::items::Items;
use tick_model::table::{PlainRow, PlainTable};

/// A row with the same key and cells.
pub fn copied(alloc: Global, row: &PlainRow) -> Result<PlainRow, AllocError>
    ensures { IfOk result (λ copy. copy ≡ row.now) }
{
    Ok(PlainRow {
        key: row.key,
        cells: Items::of(row.cells.as_slice().to_vec(alloc)?),
    })
}

/// The same rows.
pub fn rows_copied(alloc: Global, rows: &[PlainRow]) -> Result<Vec<PlainRow>, AllocError>
    ensures { IfOk result (λ copies. copies.items ≡ rows.now) }
{
    let mut copies = Vec::new(alloc);
    for row in rows {
        copies.push(copied(alloc, row)?)?;
    }
    Ok(copies)
}

/// The same table.
pub fn table_copied(alloc: Global, table: &PlainTable) -> Result<PlainTable, AllocError>
    ensures { IfOk result (λ copy. copy ≡ table.now) }
{
    let rows = rows_copied(alloc, table.rows.as_slice())?;
    Ok(PlainTable {
        width: table.width,
        rows: Items::of(rows),
    })
}
