//! Where the rows of a message are read: those that the last message left, and those of the slice now.

ghost use Rattle.std.specs.Prelude.{◌≡◌, ◌+◌, ◌≤◌, ◌++◌, IsTrue, length, map, OnOk};
ghost use Rattle.key_lists.specs.Keys.{is_among};
ghost use Rattle.tick_model.specs.Tables.{cell as cell_of, cells_at, keys};
ghost use Rattle.viewport.specs.Slices.{AreColumns};

use crate::slice::Slice;
use row_changes::Rows;
use std::alloc::AllocError;
use std::sync::ledger::Ledger;
use tick_table::{Steps, TickTable, Version};

/// The rows that the last message left, and those of the slice of a table.
#[derive(Drop)]
pub(crate) struct SliceRows<'a> {
    pub last: &'a TickTable,
    pub table: &'a TickTable,
    pub slice: &'a Slice,
}

impl<L: Ledger> Rows<L> for SliceRows<'_> {
    ghost use Rattle.std.specs.Prelude.{◌≡◌, length};
    ghost use Rattle.viewport.specs.Slices.{AreColumns, slice_in};

    ghost table = { λ rows version. slice_in version rows.last.now.new rows.slice.now rows.table.now.new };

    ghost row_reads = { λ rows. length rows.slice.now.columns };

    ghost ready = { λ rows. AreColumns rows.table.now.new.width rows.slice.now.columns × (rows.last.now.new.width ≡ length rows.slice.now.columns) };

    fn row(
        &self,
        version: Version,
        key: u64,
        cells: &mut Vec<i64>,
        reads: &mut Steps<L>,
    ) -> Result<(), AllocError> {
        match version {
            Version::Before => self.last.row(Version::Now, key, cells, reads),
            Version::Now => {
                let _rows = self.table.rows();
                put_cells(self.table, self.slice.columns.as_slice(), key, cells, reads)
            }
        }
    }
}

/// Puts the cells of a row now behind others, those of the chosen columns alone.
fn put_cells<L: Ledger>(
    table: &TickTable,
    columns: &[u32],
    key: u64,
    cells: &mut Vec<i64>,
    reads: &mut Steps<L>,
) -> Result<(), AllocError>
    requires here { IsTrue (is_among key (keys table.now.new.rows)) }
    requires columns { AreColumns table.now.new.width columns.now }
    ensures cells { OnOk result (cells.new.items ≡ cells.old.items ++ map (cell_of (cells_at key table.now.new.rows)) columns.now) }
    ensures reads { reads.new ≤ reads.old + length columns.now }
{
    for column in columns {
        cells.push(table.cell(*column, key, reads))?;
    }
    Ok(())
}
