//! The right row that a left row takes, and the cells that it takes of it.

ghost use Rattle.std.specs.Prelude.{◌≡◌, ◌+◌, ◌*◌, ◌<◌, ◌≤◌, ◌++◌, length, map, OnOk};
ghost use Rattle.std.specs.List.{AllByRecursion};
ghost use Rattle.lookup_join.specs.Taken.{IsThere, cell_of, match_before, match_now};
ghost use Rattle.tick_model.specs.Tables.{keys, same_cells};

use std::alloc::AllocError;
use std::sync::ledger::Ledger;
use tick_model::formula::NULL;
use tick_table::{Steps, TickTable};

/// The right row that a left row takes.
#[derive(Clone, Copy, Debug, PartialEq, Eq)]
pub enum Match {
    /// The row that was under this key before the step.
    Before(u64),
    /// The row that is under this key now.
    Now(u64),
    /// There is none.
    Nothing,
}

impl Match {
    /// The row before the step, if there is one.
    pub(crate) fn before(key: Option<u64>) -> Match
        ensures { result ≡ match_before key }
    {
        match key {
            Some(key) => Match::Before(key),
            None => Match::Nothing,
        }
    }

    /// The row of now, if there is one.
    pub(crate) fn now(key: Option<u64>) -> Match
        ensures { result ≡ match_now key }
    {
        match key {
            Some(key) => Match::Now(key),
            None => Match::Nothing,
        }
    }

    /// A cell of the row, or null where there is none.
    fn cell<L: Ledger>(self, right: &TickTable, column: u32, reads: &mut Steps<L>) -> i64
        requires there { IsThere right.now.old right.now.new self }
        requires before { column < right.now.old.width }
        requires now { column < right.now.new.width }
        ensures cell { result ≡ cell_of right.now.old.rows right.now.new.rows self column }
        ensures reads { reads.new ≤ reads.old + 1 }
    {
        match self {
            Match::Before(key) => right.prev_cell(column, key, reads),
            Match::Now(key) => right.cell(column, key, reads),
            Match::Nothing => NULL,
        }
    }

    /// Puts the taken cells of the row behind others.
    pub(crate) fn put_cells<L: Ledger>(
        self,
        right: &TickTable,
        take: &[u32],
        cells: &mut Vec<i64>,
        reads: &mut Steps<L>,
    ) -> Result<(), AllocError>
        requires there { IsThere right.now.old right.now.new self }
        requires take { AllByRecursion (λ column. column < right.now.new.width) take.now }
        ensures cells { OnOk result (cells.new.items ≡ cells.old.items ++ map (cell_of right.now.old.rows right.now.new.rows self) take.now) }
        ensures reads { reads.new ≤ reads.old + length take.now }
    {
        let _ = right.width();
        for column in take {
            let taken = self.cell(right, *column, reads);
            cells.push(taken)?;
        }
        Ok(())
    }

    /// Whether another row has the same taken cells.
    pub(crate) fn gives_as<L: Ledger>(
        self,
        other: Match,
        right: &TickTable,
        take: &[u32],
        reads: &mut Steps<L>,
    ) -> bool
        requires there { IsThere right.now.old right.now.new self }
        requires other { IsThere right.now.old right.now.new other }
        requires take { AllByRecursion (λ column. column < right.now.new.width) take.now }
        ensures same { result ≡ same_cells (map (cell_of right.now.old.rows right.now.new.rows self) take.now) (map (cell_of right.now.old.rows right.now.new.rows other) take.now) }
        ensures reads { reads.new ≤ reads.old + 2 * length take.now }
    {
        let _ = right.width();
        for column in take {
            if self.cell(right, *column, reads) != other.cell(right, *column, reads) {
                return false;
            }
        }
        true
    }
}
