//! The rows of a join, before a step and now.

ghost use Rattle.std.specs.Prelude.{◌≡◌, ◌+◌, ◌≤◌, ◌++◌, drop, length, vec_len, OnOk};
ghost use Rattle.lookup_join.specs.Keyed.{key_cells, time_of};
ghost use Rattle.lookup_join.specs.Latest.{AreTimed, match_of};
ghost use Rattle.lookup_join.specs.Notes.{taken_key};
ghost use Rattle.row_groups.specs.Members.{groups_of};
ghost use Rattle.tick_table.specs.Versions.{table_in};
ghost use Rattle.lookup_join.specs.Taken.{AreMatched, HasRow, match_in, match_now, speaks, taken_cells};

use crate::keyed::{Side, put_key_cells, time_from};
use crate::latest::{latest, latest_key};
use crate::matches::Match;
use crate::notes::PriorMatches;
use crate::pick::Pick;
use row_changes::Rows;
use row_groups::NumberedGroups;
use row_set::RowSet;
use std::alloc::AllocError;
use std::sync::ledger::Ledger;
use tick_model::plan::OnPair;
use tick_table::{RowReader, Steps, TickTable, Version};

/// The rows of a join, of both inputs: what was taken before the step is noted, or else it is what is taken now.
#[derive(Drop)]
pub(crate) struct MatchedRows<'a> {
    pub left: &'a TickTable,
    pub right: &'a TickTable,
    pub on: &'a [OnPair],
    pub pick: Pick,
    pub take: &'a [u32],
    /// The right rows of now.
    pub index: &'a NumberedGroups,
    pub notes: &'a PriorMatches,
}

impl MatchedRows<'_> {
    /// The right row that left rows with these key cells take now at a time.
    fn match_now(&self, cells: &[i64], time: i64) -> Match
        requires { AreTimed self.now.pick self.now.index.now.members }
        ensures { result ≡ match_now (taken_key self.now.pick self.now.index.now.members cells.now time) }
    {
        Match::now(latest_key(self.pick, self.index, cells, time))
    }

    /// Whether a note of this time speaks for left rows: no right row of now came after it.
    fn speaks(&self, cells: &[i64], time: i64, noted: i64) -> bool
        requires { AreTimed self.now.pick self.now.index.now.members }
        ensures { result ≡ speaks (match_of self.now.pick cells.now time self.now.index.now.members) noted }
    {
        match latest(self.pick, self.index, cells, time) {
            Some(row) => row.at <= noted,
            None => true,
        }
    }

    /// The right row that they took before the step, or take now. What they took a note says, but where a right row of now came
    /// after it.
    fn match_in(&self, version: Version, cells: &[i64], time: i64) -> Match
        requires { AreTimed self.now.pick self.now.index.now.members }
        ensures { result ≡ match_in version self.now.pick self.now.index.now.members self.now.notes.now.notes cells.now time }
    {
        match version {
            Version::Before => match self.notes.of(cells, time) {
                Some(note) if self.speaks(cells, time, note.at) => Match::before(note.before),
                _ => self.match_now(cells, time),
            },
            Version::Now => self.match_now(cells, time),
        }
    }

    /// Puts the cells that a left row took before the step, or takes now, behind it. It is the last row of the cells, and begins at
    /// `start`.
    fn put_taken<L: Ledger>(
        &self,
        version: Version,
        start: usize,
        cells: &mut Vec<i64>,
        reads: &mut Steps<L>,
    ) -> Result<(), AllocError>
        requires start { start ≤ vec_len cells.old }
        requires some { HasRow (table_in version self.now.left.now) }
        requires matched { AreMatched self.now.on.now self.now.pick self.now.take.now self.now.left.now self.now.right.now (groups_of self.now.index.now) self.now.notes.now.notes }
        ensures cells { OnOk result (cells.new.items ≡ cells.old.items
            ++ taken_cells self.now.on.now self.now.pick self.now.take.now (table_in version self.now.right.now).rows
            (key_cells Side.Left self.now.on.now (drop start cells.old.items)) (time_of Side.Left self.now.pick (drop start cells.old.items))) }
        ensures reads { reads.new ≤ reads.old + length self.now.take.now }
    {
        let end = cells.len();
        let time = time_from(Side::Left, self.pick, start, cells);
        put_key_cells(Side::Left, self.on, start, cells)?;
        let taken = self.match_in(version, &cells[end..], time);
        cells.truncate(end);
        taken.put_cells(self.right, self.take, cells, reads)
    }
}

impl<L: Ledger> Rows<L> for MatchedRows<'_> {
    ghost use Rattle.std.specs.Prelude.{◌≡◌, ◌+◌, ◌≤◌, ◌++◌, length, OnOk};
    ghost use Rattle.lookup_join.specs.Matched.{matched_table};
    ghost use Rattle.lookup_join.specs.Taken.{AreMatched};
    ghost use Rattle.row_groups.specs.Members.{groups_of};
    ghost use Rattle.tick_table.specs.Versions.{table_in};

    ghost table = { λ rows version. matched_table rows.on.now rows.pick rows.take.now (table_in version rows.left.now) (table_in version rows.right.now) };

    ghost row_reads = { λ rows. rows.left.now.new.width + length rows.take.now };

    ghost ready = { λ rows. AreMatched rows.on.now rows.pick rows.take.now rows.left.now rows.right.now (groups_of rows.index.now) rows.notes.now.notes };

    fn row(
        &self,
        version: Version,
        key: u64,
        cells: &mut Vec<i64>,
        reads: &mut Steps<L>,
    ) -> Result<(), AllocError> {
        let start = cells.len();
        self.left.row(version, key, cells, reads)?;
        self.put_taken(version, start, cells, reads)
    }

    fn all_now(
        &self,
        rows: &RowSet,
        cells: &mut Vec<i64>,
        reads: &mut Steps<L>,
    ) -> Result<(), AllocError> {
        let mut left = RowReader::of(self.left, Version::Now);
        for key in rows {
            let start = cells.len();
            cells.extend_from_slice(left.row(key, reads))?;
            self.put_taken(Version::Now, start, cells, reads)?;
        }
        Ok(())
    }
}
