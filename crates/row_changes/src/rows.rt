//! Where the rows of an operator are read, before the step and now.

ghost use Rattle.std.specs.Prelude.{◌≡◌, ℕ, ◌+◌, ◌*◌, ◌≤◌, ◌++◌, IsTrue, length, OnOk};
ghost use Rattle.key_lists.specs.Keys.{is_among};
ghost use Rattle.tick_model.specs.declared.table.PlainTable.{PlainTable};
ghost use Rattle.tick_model.specs.Tables.{cells_at, keys};
ghost use Rattle.row_changes.specs.Parts.{AreThere, cells_under};
ghost use Rattle.tick_table.specs.declared.version.Version.{Version};
ghost use Rattle.tick_table.specs.Versions.{table_in};

use row_set::RowSet;
use std::alloc::AllocError;
use std::sync::ledger::Ledger;
use tick_table::{RowReader, Steps, TickTable, Version};

/// Gives whole rows of a table, as it was before the step and as it is now. A table gives its own; an operator whose rows
/// are computed gives them by a type of its own. A refusal is told after no more reads than the rows would have taken.
pub trait Rows<L: Ledger> {
    /// The table in each version.
    ghost table: { Self → Version → PlainTable };

    /// No row takes more reads.
    ghost row_reads: { Self → ℕ };

    /// What has to hold where rows are read.
    ghost ready: { Self → Type 0 };

    /// Puts the cells of a row, before the step or now, behind others.
    fn row(
        &self,
        version: Version,
        key: u64,
        cells: &mut Vec<i64>,
        reads: &mut Steps<L>,
    ) -> Result<(), AllocError>
        requires ready { ready self.now }
        requires here { IsTrue (is_among key (keys (table self.now version).rows)) }
        ensures cells { OnOk result (cells.new.items ≡ cells.old.items ++ cells_at key (table self.now version).rows) }
        ensures reads { reads.new ≤ reads.old + row_reads self.now };

    /// Puts the cells that rows have now behind others, one row after the other.
    fn all_now(
        &self,
        rows: &RowSet,
        cells: &mut Vec<i64>,
        reads: &mut Steps<L>,
    ) -> Result<(), AllocError>
        requires ready { ready self.now }
        requires there { AreThere (table self.now Version.Now) rows.now }
        ensures cells { OnOk result (cells.new.items ≡ cells.old.items ++ cells_under (table self.now Version.Now) rows.now) }
        ensures reads { reads.new ≤ reads.old + row_reads self.now * length rows.now }
    {
        for key in rows {
            self.row(Version::Now, key, cells, reads)?;
        }
        Ok(())
    }
}

/// A table gives its own rows, with a read for each cell.
impl<L: Ledger> Rows<L> for TickTable {
    ghost table = { λ table version. table_in version table };

    ghost row_reads = { λ table. table.new.width };

    ghost ready = { λ _. Unit {0} };

    fn row(
        &self,
        version: Version,
        key: u64,
        cells: &mut Vec<i64>,
        reads: &mut Steps<L>,
    ) -> Result<(), AllocError> {
        self.row(version, key, cells, reads)
    }

    fn all_now(
        &self,
        rows: &RowSet,
        cells: &mut Vec<i64>,
        reads: &mut Steps<L>,
    ) -> Result<(), AllocError> {
        let mut reader = RowReader::of(self, Version::Now);
        for key in rows {
            cells.extend_from_slice(reader.row(key, reads))?;
        }
        Ok(())
    }
}
