//! Where the rows of the groups are found, before the step and now.

ghost use Rattle.std.specs.Prelude.{◌≡◌, ◌+◌, ◌≤◌, ◌++◌, IsTrue, OnOk, length};
ghost use Rattle.agg_by.specs.Rows.{AreReady};
ghost use Rattle.agg_by.specs.Steps.{first_keys};
ghost use Rattle.key_lists.specs.Keys.{is_among};
ghost use Rattle.tick_model.specs.Agg.{agg_table};
ghost use Rattle.tick_model.specs.Tables.{cells_at};

use crate::firsts::LedGroup;
use crate::kept::AggIndex;
use crate::notes::PriorRows;
use row_changes::Rows;
use std::alloc::AllocError;
use std::sync::ledger::Ledger;
use tick_table::{Steps, TickTable, Version};

/// The rows of the groups: those of now by what is kept, and those of before by what is noted. A group that is not noted has
/// the same row before and now.
#[derive(Drop)]
pub(crate) struct GroupRows<'a> {
    pub input: &'a TickTable,
    pub kept: &'a AggIndex,
    /// The touched groups of now.
    pub led: &'a [LedGroup],
    pub notes: &'a PriorRows,
}

impl GroupRows<'_> {
    /// Puts the row that the group has now, whose first row has this key, behind other cells.
    fn put_now<L: Ledger>(
        &self,
        first: u64,
        cells: &mut Vec<i64>,
        reads: &mut Steps<L>,
    ) -> Result<(), AllocError>
        requires ready { AreReady self.now.input.now self.now.kept.now self.now.led.now self.now.notes.now }
        requires here { IsTrue (is_among first (first_keys self.now.kept.now.by self.now.input.now.new.rows)) }
        ensures cells { OnOk result (cells.new.items ≡ cells.old.items ++ cells_at first (agg_table self.now.kept.now.by self.now.kept.now.aggs self.now.input.now.new).rows) }
        ensures reads { reads.new ≤ reads.old + length self.now.kept.now.aggs }
    {
        let place = self.led.partition_point(|group| group.first < first);
        self.kept
            .put_group(self.input, first, self.led, place, cells, reads)
    }
}

impl<L: Ledger> Rows<L> for GroupRows<'_> {
    ghost use Rattle.tick_table.specs.Versions.{table_in};

    ghost table = { λ rows version. agg_table rows.kept.now.by rows.kept.now.aggs (table_in version rows.input.now) };

    ghost row_reads = { λ rows. length rows.kept.now.aggs };

    ghost ready = { λ rows. AreReady rows.input.now rows.kept.now rows.led.now rows.notes.now };

    fn row(
        &self,
        version: Version,
        key: u64,
        cells: &mut Vec<i64>,
        reads: &mut Steps<L>,
    ) -> Result<(), AllocError> {
        match version {
            Version::Before => match self.notes.row(key) {
                Some(row) => cells.extend_from_slice(row),
                None => {
                    let now = self.input.update().shifted().landing(key);
                    self.put_now(now, cells, reads)
                }
            },
            Version::Now => self.put_now(key, cells, reads),
        }
    }
}
