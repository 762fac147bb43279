//! The table itself: what it is made of, what it answers and how a change is applied.

ghost use Rattle.std.specs.Prelude.{◌++◌, ◌≡◌, ◌+◌, ◌*◌, ◌^◌, ◌<◌, ◌≤◌, ◌⊎◌, ℕ, IsTrue, None, false, flat_map, length, map, slice_index, IfOk, OnErr, OnOk};
ghost use Rattle.key_lists.specs.Keys.{is_among};
ghost use Rattle.row_set.specs.Sets.{found};
ghost use Rattle.table_update.specs.Kept.{old_modified};
ghost use Rattle.tick_model.specs.Changes.{change_of, changed, told_keys};
ghost use Rattle.tick_model.specs.Rules.{update_fault};
ghost use Rattle.tick_model.specs.Shifts.{as_key, moved};
ghost use Rattle.tick_model.specs.Tables.{IsTable, cell as cell_of, cells_at, keys};
ghost use Rattle.tick_model.specs.Updates.{IsTick, Tick};
ghost use Rattle.tick_table.specs.Exact.{ticking};
ghost use Rattle.tick_table.specs.Ticking.{fresh};
ghost use Rattle.tick_table.specs.Versions.{table_in};

use crate::change::Change;
use crate::placed::PlacedRows;
use crate::slots::row_at;
use crate::stepping::{bring_on, next_keys};
use crate::steps::Steps;
use crate::version::Version;
use new_counts::NewCopy;
use row_set::RowSet;
use std::alloc::{AllocError, Global};
use std::marker::Model;
use std::mem;
use std::sync::Arc;
use std::sync::ledger::Ledger;
use table_update::Update;
use tick_model::items::Items;

/// A table that several may read.
pub type Shared = Arc<TickTable>;

/// A table as it is and as it was before the last step, with the update between the two. A contract sees two plain tables
/// of one width and the update.
pub struct TickTable {
    /// The keys of the rows now.
    rows: RowSet,
    /// The keys of the rows before the step.
    prev_rows: RowSet,
    /// The cells of the rows by position, and what the step took out and replaced of them.
    placed: PlacedRows,
    /// How the rows of before became those of now.
    update: Update,
    /// The cells of the rows that the update tells.
    told: Items<i64>,
    /// How often the table was copied whole since it was made.
    copies: u32,
}

impl Drop for TickTable {
    fn drop(self) {
        let Self {
            rows: _,
            prev_rows: _,
            placed: _,
            update: _,
            told: _,
            copies: _,
        } = self;
    }
}

impl Model for TickTable {
    ghost use Rattle.tick_table.specs.Kept.{IsKept, shown};
    ghost use Rattle.tick_table.specs.Ticking.{Ticking};

    ghost Value = { Ticking };

    ghost view = { λ table. shown table.rows table.prev_rows table.placed table.update };

    ghost invariant = { λ table. IsKept table.rows table.prev_rows table.placed table.update table.told };
}

impl TickTable {
    /// A table of this width without rows, before and now.
    pub fn new(alloc: Global, width: u32) -> Result<TickTable, AllocError>
        requires some { 1 ≤ width }
        requires few { width ≤ 32 }
        ensures { IfOk result (λ table. table ≡ fresh width) }
    {
        Ok(TickTable::empty(alloc, width))
    }

    /// A table of this width without rows, before and now. It takes no memory, so that it is not refused.
    pub fn empty(alloc: Global, width: u32) -> TickTable
        requires some { 1 ≤ width }
        requires few { width ≤ 32 }
        ensures { result ≡ fresh width }
    {
        TickTable {
            rows: RowSet::new(alloc),
            prev_rows: RowSet::new(alloc),
            placed: PlacedRows::new(alloc, width as usize),
            update: Update::none(alloc),
            told: Items::new(alloc),
            copies: 0,
        }
    }

    /// The number of columns, before and now.
    pub fn width(&self) -> u32
        ensures now { result ≡ self.now.new.width }
        ensures before { result ≡ self.now.old.width }
        ensures some { 1 ≤ result }
        ensures few { result ≤ 32 }
    {
        self.placed.width() as u32
    }

    /// The keys of the rows now.
    pub fn rows(&self) -> &RowSet
        ensures keys { result.now ≡ keys self.now.new.rows }
        ensures table { IsTable self.now.new }
    {
        &self.rows
    }

    /// The keys of the rows before the step.
    pub fn prev_rows(&self) -> &RowSet
        ensures keys { result.now ≡ keys self.now.old.rows }
        ensures table { IsTable self.now.old }
    {
        &self.prev_rows
    }

    /// How the rows before the step became those of now.
    pub fn update(&self) -> &Update
        ensures { result.now ≡ self.now.update }
    {
        &self.update
    }

    /// The cell of a row now. It is one read.
    pub fn cell<L: Ledger>(&self, column: u32, key: u64, reads: &mut Steps<L>) -> i64
        requires column { column < self.now.new.width }
        requires here { IsTrue (is_among key (keys self.now.new.rows)) }
        ensures cell { result ≡ cell_of (cells_at key self.now.new.rows) column }
        ensures read { reads.new ≡ reads.old + 1 }
    {
        reads.tick();
        self.row_now(key)[column as usize]
    }

    /// The cell that a row had before the step. It is one read.
    pub fn prev_cell<L: Ledger>(&self, column: u32, key: u64, reads: &mut Steps<L>) -> i64
        requires column { column < self.now.old.width }
        requires here { IsTrue (is_among key (keys self.now.old.rows)) }
        ensures cell { result ≡ cell_of (cells_at key self.now.old.rows) column }
        ensures read { reads.new ≡ reads.old + 1 }
    {
        reads.tick();
        self.row_before(key)[column as usize]
    }

    /// Puts the cells of a row, before the step or now, behind others. Each is one read. After a refusal none was read, and the others
    /// are as before.
    pub fn row<L: Ledger>(
        &self,
        version: Version,
        key: u64,
        cells: &mut Vec<i64>,
        reads: &mut Steps<L>,
    ) -> Result<(), AllocError>
        requires here { IsTrue (is_among key (keys (table_in version self.now).rows)) }
        ensures cells { OnOk result (cells.new.items ≡ cells.old.items ++ cells_at key (table_in version self.now).rows) }
        ensures whole { length (cells_at key (table_in version self.now).rows) ≡ self.now.new.width }
        ensures reads { OnOk result (reads.new ≡ reads.old + self.now.new.width) }
        ensures refused { OnErr result (cells.new.items ≡ cells.old.items) }
        ensures unread { OnErr result (reads.new ≡ reads.old) }
    {
        let row = self.cells_of(version, key);
        cells.extend_from_slice(row)?;
        read_all(row, reads);
        Ok(())
    }

    /// The cells of an added row, by the place of its key among those of the update. Each is one read.
    pub fn added_row<L: Ledger>(&self, place: u64, reads: &mut Steps<L>) -> &[i64]
        requires { place < length self.now.update.added }
        ensures cells { result.now ≡ cells_at (slice_index self.now.update.added place) self.now.new.rows }
        ensures whole { length result.now ≡ self.now.new.width }
        ensures reads { reads.new ≡ reads.old + self.now.new.width }
    {
        let row = self.told_row(place as usize);
        read_all(row, reads);
        row
    }

    /// The cells of a modified row, by the place of its key among those of the update. Each is one read.
    pub fn modified_row<L: Ledger>(&self, place: u64, reads: &mut Steps<L>) -> &[i64]
        requires { place < length self.now.update.modified }
        ensures cells { result.now ≡ cells_at (slice_index self.now.update.modified place) self.now.new.rows }
        ensures whole { length result.now ≡ self.now.new.width }
        ensures reads { reads.new ≡ reads.old + self.now.new.width }
    {
        let _ = self.update.modified();
        let place = self.update.added().len() as usize + place as usize;
        let row = self.told_row(place);
        read_all(row, reads);
        row
    }

    /// The cells that a modified row had before the step, by the place of its key among those of the update. Each is one read.
    pub fn modified_row_before<L: Ledger>(&self, place: u64, reads: &mut Steps<L>) -> &[i64]
        requires { place < length self.now.update.modified }
        ensures cells { result.now ≡ cells_at (slice_index (old_modified (keys self.now.old.rows) self.now.update) place) self.now.old.rows }
        ensures whole { length result.now ≡ self.now.old.width }
        ensures reads { reads.new ≡ reads.old + self.now.old.width }
    {
        let _ = self.update.modified();
        let row = self.placed.saved_row(place as usize);
        read_all(row, reads);
        row
    }

    /// The cells that a removed row had, by the place of its key among those of the update. Each is one read.
    pub fn removed_row<L: Ledger>(&self, place: u64, reads: &mut Steps<L>) -> &[i64]
        requires { place < length self.now.update.removed }
        ensures cells { result.now ≡ cells_at (slice_index self.now.update.removed place) self.now.old.rows }
        ensures whole { length result.now ≡ self.now.old.width }
        ensures reads { reads.new ≡ reads.old + self.now.old.width }
    {
        let _ = self.update.removed();
        let row = self.placed.left_row(place as usize);
        read_all(row, reads);
        row
    }

    /// The cells of the rows that the update tells, one row after the other: those that it adds and then those that it modifies. Each
    /// is one read.
    pub fn told_cells<L: Ledger>(&self, reads: &mut Steps<L>) -> &[i64]
        ensures cells { result.now ≡ flat_map (λ key. cells_at key self.now.new.rows) (told_keys self.now.update) }
        ensures reads { reads.new ≡ reads.old + length result.now }
    {
        let cells = self.told.as_slice();
        read_all(cells, reads);
        cells
    }

    /// How often the table was copied whole since it was made: 0 as long as each change was applied where the rows lie. A
    /// contract sees no difference between a table and its copy.
    pub fn copies(&self) -> u32 {
        self.copies
    }

    /// An equal table, with its rows before and its update. It is counted as a copy. Only a crate that lists `new_counts` has the leave.
    pub fn copy(&self, _leave: NewCopy) -> Result<TickTable, AllocError>
        ensures { IfOk result (λ table. table ≡ self.now) }
    {
        let told = Vec::from_slice(self.placed.allocator(), self.told.as_slice())?;
        Ok(TickTable {
            rows: self.rows.copy()?,
            prev_rows: self.prev_rows.copy()?,
            placed: self.placed.copy()?,
            update: self.update.copy()?,
            told: Items::of(told),
            copies: self.copies.saturating_add(1),
        })
    }

    /// The table after a change: the rows of now become those from before the step, and the change makes those of now. After
    /// a refusal the table is given up. The change of a tick from the rows of now makes the table that the tick leaves, whose
    /// update is exactly the one between the two.
    pub fn apply(self, change: Change) -> Result<TickTable, AllocError>
        requires lawful { update_fault (2 ^ 62) (keys self.new.rows) change.update ≡ None }
        requires whole { length change.cells ≡ length (told_keys change.update) * self.new.width }
        ensures old { IfOk result (λ table. table.old ≡ self.new) }
        ensures new { IfOk result (λ table. table.new ≡ changed self.new change) }
        ensures update { IfOk result (λ table. table.update ≡ change.update) }
        ensures exact { IfOk result (λ table. (tick : Tick) → IsTick tick → self.new ≡ tick.old → change ≡ change_of tick → table ≡ ticking tick) }
    {
        let TickTable {
            rows,
            prev_rows,
            mut placed,
            update: last,
            told: _,
            copies,
        } = self;
        let Change { update, cells } = change;
        let now = next_keys(&rows, prev_rows, &last, &update)?;
        bring_on(&mut placed, &rows, &now, &update, cells.as_slice())?;
        Ok(TickTable {
            rows: now,
            prev_rows: rows,
            placed,
            update,
            told: cells,
            copies,
        })
    }

    /// Applies a change where the table lies, as `apply` does. After a refusal the table is as it was, or has no rows.
    pub fn bring_on(&mut self, change: Change) -> Result<(), AllocError>
        requires lawful { update_fault (2 ^ 62) (keys self.old.new.rows) change.update ≡ None }
        requires whole { length change.cells ≡ length (told_keys change.update) * self.old.new.width }
        ensures old { OnOk result (self.new.old ≡ self.old.new) }
        ensures new { OnOk result (self.new.new ≡ changed self.old.new change) }
        ensures update { OnOk result (self.new.update ≡ change.update) }
        ensures exact { OnOk result ((tick : Tick) → IsTick tick → self.old.new ≡ tick.old → change ≡ change_of tick → self.new ≡ ticking tick) }
        ensures refused { OnErr result ((self.new ≡ self.old) ⊎ (self.new ≡ fresh self.old.new.width)) }
    {
        let empty = TickTable::empty(self.placed.allocator(), self.width());
        let table = mem::replace(self, empty);
        *self = table.apply(change)?;
        Ok(())
    }

    /// The cells of a row, before the step or now.
    fn cells_of(&self, version: Version, key: u64) -> &[i64]
        requires { IsTrue (is_among key (keys (table_in version self.now).rows)) }
        ensures cells { result.now ≡ cells_at key (table_in version self.now).rows }
        ensures whole { length result.now ≡ self.now.new.width }
    {
        let _width = self.width();
        match version {
            Version::Before => self.row_before(key),
            Version::Now => self.row_now(key),
        }
    }

    /// The cells of a row now.
    pub(crate) fn row_now(&self, key: u64) -> &[i64]
        requires { IsTrue (is_among key (keys self.now.new.rows)) }
        ensures cells { result.now ≡ cells_at key self.now.new.rows }
        ensures whole { length result.now ≡ self.now.new.width }
    {
        self.placed.row(self.rows.count_below(key) as usize)
    }

    /// The cells that a row had before the step.
    fn row_before(&self, key: u64) -> &[i64]
        requires { IsTrue (is_among key (keys self.now.old.rows)) }
        ensures cells { result.now ≡ cells_at key self.now.old.rows }
        ensures whole { length result.now ≡ self.now.old.width }
    {
        match self.update.removed().find(key) {
            Ok(place) => self.placed.left_row(place as usize),
            Err(_) => {
                let now = self.key_now(key);
                self.row_stayed(now, self.update.modified().find(now))
            }
        }
    }

    /// The key now of a row that stays.
    pub(crate) fn key_now(&self, key: u64) -> u64
        requires here { IsTrue (is_among key (keys self.now.old.rows)) }
        requires stays { is_among key self.now.update.removed ≡ false }
        ensures key { result ≡ as_key (moved self.now.update.shifted key) }
        ensures there { IsTrue (is_among result (keys self.now.new.rows)) }
    {
        let _ = self.prev_rows.ranges();
        self.update.shifted().landing(key)
    }

    /// The cells that a row which stays had before the step, by its key now and by where that is found among the modified ones.
    pub(crate) fn row_stayed(&self, now: u64, place: Result<u64, u64>) -> &[i64]
        requires there { IsTrue (is_among now (keys self.now.new.rows)) }
        requires place { place ≡ found now self.now.update.modified }
        ensures cells { (key : ℕ) → IsTrue (is_among key (keys self.now.old.rows)) → is_among key self.now.update.removed ≡ false
            → now ≡ as_key (moved self.now.update.shifted key) → result.now ≡ cells_at key self.now.old.rows }
        ensures whole { length result.now ≡ self.now.old.width }
    {
        let _ = self.update.modified();
        match place {
            Ok(place) => self.placed.saved_row(place as usize),
            Err(_) => self.row_now(now),
        }
    }

    /// The cells of a row that the last change tells, by the place of its key.
    fn told_row(&self, place: usize) -> &[i64]
        requires { place < length (told_keys self.now.update) }
        ensures cells { result.now ≡ cells_at (slice_index (told_keys self.now.update) place) self.now.new.rows }
        ensures whole { length result.now ≡ self.now.new.width }
    {
        row_at(self.told.as_slice(), place, self.placed.width())
    }
}

/// Each cell of a row is one read.
pub(crate) fn read_all<L: Ledger>(row: &[i64], reads: &mut Steps<L>)
    ensures { reads.new ≡ reads.old + length row.now }
{
    for _ in row {
        reads.tick();
    }
}
