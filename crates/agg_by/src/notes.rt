//! The rows of the touched groups before the step.

ghost use Rattle.std.specs.Prelude.{◌≡◌, ◌+◌, ◌*◌, ◌≤◌, Some, None, IfOk, length, option_map, slice_range, vec_len, if◌then◌else◌};
ghost use Rattle.key_lists.specs.Keys.{is_among};
ghost use Rattle.row_changes.specs.Parts.{AreThere};
ghost use Rattle.tick_model.specs.declared.table.PlainTable.{PlainTable};
ghost use Rattle.tick_model.specs.Tables.{IsTable, cells_at};

use row_changes::Rows;
use row_set::RowSet;
use std::alloc::AllocError;
use std::sync::ledger::Ledger;
use tick_table::{Steps, TickTable};

/// The rows that some groups had, by the keys of their first rows.
#[derive(Drop)]
pub(crate) struct PriorRows {
    pub keys: RowSet,
    /// The cells of the rows, one row after the other.
    cells: Vec<i64>,
    /// How many cells a row has.
    width: usize,
}

impl PriorRows {
    ghost use Rattle.agg_by.specs.Notes.{IsNoted};

    /// Notes the rows that a table has now under these keys. `cells` is room for them.
    pub fn take<L: Ledger>(
        keys: RowSet,
        table: &TickTable,
        mut cells: Vec<i64>,
        reads: &mut Steps<L>,
    ) -> Result<PriorRows, AllocError>
        requires table { IsTable table.now.new }
        requires there { AreThere table.now.new keys }
        ensures noted { IfOk result (λ notes. IsNoted notes table.now.new) }
        ensures keys { IfOk result (λ notes. notes.keys ≡ keys) }
        ensures reads { reads.new ≤ reads.old + table.now.new.width * length keys }
    {
        cells.clear();
        let width = table.width() as usize;
        cells.reserve((keys.len() as usize).saturating_mul(width))?;
        table.all_now(&keys, &mut cells, reads)?;
        Ok(PriorRows { keys, cells, width })
    }

    /// The row at a position.
    pub fn row_at(&self, position: u64) -> &[i64]
        requires { position * self.now.width + self.now.width ≤ vec_len self.now.cells }
        ensures { result.now ≡ slice_range self.now.cells.items (position * self.now.width) (position * self.now.width + self.now.width) }
    {
        let start = position as usize * self.width;
        &self.cells[start..start + self.width]
    }

    /// The row under a key, if it is noted.
    pub fn row(&self, key: u64) -> Option<&[i64]>
        requires { length self.now.keys * self.now.width ≤ vec_len self.now.cells }
        ensures { (table : PlainTable) → IsNoted self.now table
            → option_map (λ row. row.now) result ≡ (if is_among key self.now.keys then Some (cells_at key table.rows) else None) }
    {
        let position = self.keys.find(key).ok()?;
        Some(self.row_at(position))
    }

    /// The room that they took, to be used again.
    pub fn into_cells(self) -> Vec<i64> {
        let PriorRows {
            keys: _,
            cells,
            width: _,
        } = self;
        cells
    }
}
