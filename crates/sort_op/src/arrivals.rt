//! Rows that come into an order.
ghost use Rattle.std.specs.Prelude.{◌≡◌, ◌+◌, ◌*◌, ◌<◌, ◌≤◌, ◌^◌, ◌≢◌, ◌||◌, ◌==◌, ℕ, false, length, map, IfOk, IsPermutation, OnOk, Some};
ghost use Rattle.std.specs.List.{AllByRecursion};
ghost use Rattle.key_lists.specs.Keys.{IsRising, is_among};
ghost use Rattle.row_changes.specs.Parts.{AreThere};
ghost use Rattle.row_handles.specs.Entries.{key_with, keys_of};
ghost use Rattle.sort_op.specs.declared.entry.Entry.{Entry};
ghost use Rattle.sort_op.specs.declared.row_order.OrderedRow.{OrderedRow};
ghost use Rattle.sort_op.specs.Entries.{AreDistinct, Falls, Rises, entry_cmp, is_in, keys_in};
ghost use Rattle.sort_op.specs.Firsts.{coming_cmp, coming_of, rows_in};
ghost use Rattle.sort_op.specs.Places.{AreFound};
ghost use Rattle.sort_op.specs.Ranks.{AreArrived, HasArrived, arrived, listed, row_entry};
ghost use Rattle.sort_op.specs.Reading.{entries_under, entry_with};

use crate::row_order::{OrderedRow, RowOrder};
use crate::sort_cells::SortCells;
use row_handles::{Handle, Handles};
use row_set::RowSet;
use std::alloc::{AllocError, Global};
use std::cmp::Ordering;
use std::sync::ledger::Ledger;
use tick_model::plan::SortBy;
use tick_table::{RowReader, Steps, TickTable, Version};

/// The handle of the row under a key, which gets one where it has none.
fn handle_for(handles: &mut Handles, key: u64) -> Result<Handle, AllocError>
    requires { key < 2 ^ 62 }
    ensures own { IfOk result (λ handle. key_with handle handles.new ≡ Some key) }
    ensures others { (handle other : ℕ) → key_with handle handles.old ≡ Some other → key_with handle handles.new ≡ Some other }
    ensures keys { OnOk result ((other : ℕ) → is_among other (keys_of handles.new) ≡ ((key == other) || is_among other (keys_of handles.old))) }
    ensures rising { IsRising (keys_of handles.new) }
{
    match handles.handle_of(key) {
        Some(handle) => Ok(handle),
        None => handles.add(key),
    }
}

/// How a row stands to another, by the sort columns and then by key.
fn compare(by: &[SortBy], cells: &SortCells, row: OrderedRow, other: OrderedRow) -> Ordering
    ensures { result ≡ entry_cmp by.now (row_entry by.now cells.now row) (row_entry by.now cells.now other) }
{
    match cells.compare(by, row.handle, other.handle) {
        Ordering::Equal => row.key.cmp(&other.key),
        order => order,
    }
}

/// A row that comes, with its first sort cell as it ranks, by which most rows are told apart.
#[derive(Clone, Copy)]
struct Coming {
    first: i64,
    row: OrderedRow,
}

impl Coming {
    /// How the row stands to another, by their first sort cells, and where these are equal by all.
    fn compare(&self, other: &Coming, by: &[SortBy], cells: &SortCells) -> Ordering
        ensures { result ≡ coming_cmp by.now cells.now self.now other.now }
    {
        match self.first.cmp(&other.first) {
            Ordering::Equal => compare(by, cells, self.row, other.row),
            order => order,
        }
    }
}

/// The rows with their first sort cells.
fn with_firsts(
    by: &[SortBy],
    cells: &SortCells,
    rows: Vec<OrderedRow>,
) -> Result<Vec<Coming>, AllocError>
    ensures { IfOk result (λ coming. coming.items ≡ map (coming_of by.now cells.now) rows.items) }
{
    let mut coming = Vec::with_capacity(*rows.allocator(), rows.len())?;
    for row in rows {
        let first = cells.first_rank(by, row.handle);
        coming.push(Coming { first, row })?;
    }
    Ok(coming)
}

/// The rows in order, but the first one last.
fn sorted_backward(
    by: &[SortBy],
    cells: &SortCells,
    rows: Vec<OrderedRow>,
) -> Result<Vec<Coming>, AllocError>
    ensures permutation { IfOk result (λ coming. IsPermutation rows.items (rows_in coming.items)) }
    ensures backward { IfOk result (λ coming. Falls by.now (map (row_entry by.now cells.now) (rows_in coming.items))) }
{
    let mut coming = with_firsts(by, cells, rows)?;
    coming.sort_unstable_by(|row, other| other.compare(row, by, cells));
    Ok(coming)
}

impl RowOrder {
    /// Takes note of a row that comes or that has other sort cells now, and is not in the order. It gets a handle if it has none.
    fn enter(&mut self, key: u64, cells: &[i64]) -> Result<OrderedRow, AllocError>
        requires small { key < 2 ^ 62 }
        requires absent { is_among key (keys_in (listed self.old)) ≡ false }
        ensures by { self.new.by ≡ self.old.by }
        ensures listed { listed self.new ≡ listed self.old }
        ensures entered { IfOk result (λ row. HasArrived self.new row (entry_with self.old.by cells.now key)) }
        ensures others { (row : OrderedRow) (entry : Entry) → row.key ≢ key → HasArrived self.old row entry → HasArrived self.new row entry }
        ensures keys { OnOk result ((other : ℕ) → is_among other (keys_of self.new.handles) ≡ ((key == other) || is_among other (keys_of self.old.handles))) }
    {
        let handle = handle_for(&mut self.handles, key)?;
        self.cells.put_row(self.by.as_slice(), handle, cells)?;
        Ok(OrderedRow { key, handle })
    }

    /// Takes note of the rows under these keys as they are now.
    pub(crate) fn enter_rows<L: Ledger>(
        &mut self,
        alloc: Global,
        input: &TickTable,
        keys: &RowSet,
        reads: &mut Steps<L>,
    ) -> Result<Vec<OrderedRow>, AllocError>
        requires here { AreThere input.now.new keys.now }
        requires absent { AllByRecursion (λ key. is_among key (keys_in (listed self.old)) ≡ false) keys.now }
        ensures by { self.new.by ≡ self.old.by }
        ensures listed { listed self.new ≡ listed self.old }
        ensures entered { IfOk result (λ rows. AreArrived self.new rows.items (entries_under self.old.by input.now.new keys.now)) }
        ensures keys { OnOk result ((key : ℕ) → is_among key (keys_of self.new.handles) ≡ (is_among key keys.now || is_among key (keys_of self.old.handles))) }
        ensures reads { reads.new ≤ reads.old + input.now.new.width * length keys.now }
    {
        let mut entered = Vec::new(alloc);
        let mut rows = RowReader::of(input, Version::Now);
        for key in keys {
            entered.push(self.enter(key, rows.row(key, reads))?)?;
        }
        Ok(entered)
    }

    /// Puts rows in that are not there, no two of which are the same, and gives the positions at which they stand then. They
    /// come in the order in which they stand, each behind the one before it, so that the position of none moves any more; and
    /// where one comes to stand last, so do those behind it, without a search.
    pub(crate) fn insert_rows(&mut self, rows: Vec<OrderedRow>) -> Result<Vec<u64>, AllocError>
        requires known { AllByRecursion (λ row. key_with row.handle self.old.handles ≡ Some row.key) rows.items }
        requires absent { AllByRecursion (λ row. is_in (arrived self.old row) (listed self.old) ≡ false) rows.items }
        requires distinct { AreDistinct (map (arrived self.old) rows.items) }
        ensures listed { OnOk result ((entry : Entry) → is_in entry (listed self.new) ≡ (is_in entry (listed self.old) || is_in entry (map (arrived self.old) rows.items))) }
        ensures positions { IfOk result (λ positions. AreFound (listed self.new) (map (arrived self.old) rows.items) positions.items) }
        ensures rises { Rises self.new.by (listed self.new) }
        ensures by { self.new.by ≡ self.old.by }
        ensures handles { self.new.handles ≡ self.old.handles }
    {
        let mut coming = sorted_backward(self.by.as_slice(), &self.cells, rows)?;
        let mut positions = Vec::with_capacity(*coming.allocator(), coming.len())?;
        let mut is_last = false;
        while let Some(next) = coming.pop() {
            let count = self.len();
            let position = self.insert(next.row, is_last)?;
            is_last = position == count;
            positions.push(position)?;
        }
        Ok(positions)
    }
}
