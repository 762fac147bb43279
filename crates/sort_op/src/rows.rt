//! The rows of a sort, under their positions, before a step and now.
ghost use Rattle.std.specs.Prelude.{◌≡◌, ◌+◌, ◌≤◌, ◌++◌, IsTrue, OnOk};
ghost use Rattle.key_lists.specs.Keys.{IsRising, is_among};
ghost use Rattle.tick_model.specs.Sort.{sort_table};
ghost use Rattle.tick_model.specs.Tables.{cells_at, keys};
ghost use Rattle.sort_op.specs.Ranks.{listed};
ghost use Rattle.sort_op.specs.Sorted.{entries_of};

use crate::order_keys::OrderKeys;
use crate::row_order::RowOrder;
use row_changes::Rows;
use row_set::RowSet;
use shift_data::ShiftData;
use std::alloc::AllocError;
use std::sync::ledger::Ledger;
use tick_table::{RowReader, Steps, TickTable, Version};

/// The rows of a sort. The order is the one now; of the one before the step there are the keys at the positions that the step
/// touches. A row that it does not touch is the same now, at the position to which it moves.
#[derive(Drop)]
pub(crate) struct SortedRows<'a> {
    pub input: &'a TickTable,
    pub order: &'a RowOrder,
    /// The old positions of the rows that go or may differ.
    pub touched: RowSet,
    /// The old keys of these rows, position by position.
    pub touched_keys: Vec<u64>,
    /// Where the rows that stay move.
    pub shifted: ShiftData,
}

impl SortedRows<'_> {
    /// Puts the cells of the row at a position now behind others.
    fn row_now<L: Ledger>(
        &self,
        position: u64,
        cells: &mut Vec<i64>,
        reads: &mut Steps<L>,
    ) -> Result<(), AllocError>
        requires here { IsTrue (is_among position (keys (sort_table self.now.order.now.by self.now.input.now.new).rows)) }
        requires rising { IsRising (keys self.now.input.now.new.rows) }
        requires order { listed self.now.order.now ≡ entries_of self.now.order.now.by self.now.input.now.new.rows }
        ensures cells { OnOk result (cells.new.items ≡ cells.old.items ++ cells_at position (sort_table self.now.order.now.by self.now.input.now.new).rows) }
        ensures reads { reads.new ≤ reads.old + self.now.input.now.new.width }
    {
        let key = self.order.key_at(position);
        self.input.row(Version::Now, key, cells, reads)
    }
}

impl<L: Ledger> Rows<L> for SortedRows<'_> {
    ghost use Rattle.std.specs.Prelude.{◌≡◌, ◌+◌, ◌≤◌, ◌++◌, OnOk};
    ghost use Rattle.sort_op.specs.Steps.{IsReady};
    ghost use Rattle.tick_table.specs.Versions.{table_in};

    ghost table = { λ rows version. sort_table rows.order.now.by (table_in version rows.input.now) };

    ghost row_reads = { λ rows. rows.input.now.new.width };

    ghost ready = { λ rows. IsReady rows.order.now.by (listed rows.order.now) rows.input.now rows.touched rows.touched_keys.items rows.shifted };

    fn row(
        &self,
        version: Version,
        key: u64,
        cells: &mut Vec<i64>,
        reads: &mut Steps<L>,
    ) -> Result<(), AllocError> {
        match version {
            Version::Before => match self.touched.find(key) {
                Ok(place) => {
                    let old_key = self.touched_keys[place as usize];
                    self.input.row(Version::Before, old_key, cells, reads)
                }
                Err(_) => self.row_now(self.shifted.landing(key), cells, reads),
            },
            Version::Now => self.row_now(key, cells, reads),
        }
    }

    fn all_now(
        &self,
        rows: &RowSet,
        cells: &mut Vec<i64>,
        reads: &mut Steps<L>,
    ) -> Result<(), AllocError> {
        let mut input = RowReader::of(self.input, Version::Now);
        let mut keys = OrderKeys::of(self.order);
        for position in rows {
            let key = keys.key_at(position);
            cells.extend_from_slice(input.row(key, reads))?;
        }
        Ok(())
    }
}
