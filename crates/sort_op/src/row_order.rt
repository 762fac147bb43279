//! The rows of an input in the order of a sort.
//!
//! A row stands in the list by its handle, which it keeps where its key moves, so that a shift writes nothing in the list; and
//! its sort cells lie beside those of the other rows, so that no row has memory of its own.
ghost use Rattle.std.specs.Prelude.{◌≡◌, ◌<◌, ◌≤◌, [], true, false, drop, insert, length, map, remove, slice_get, take, None, Some, IfOk, IsSome, IsTrue, OnErr, OnOk};
ghost use Rattle.std.specs.List.{AllByRecursion};
ghost use Rattle.std.specs.Option.{option_map_or};
ghost use Rattle.key_lists.specs.Keys.{is_among, without};
ghost use Rattle.row_handles.specs.Entries.{key_with, keys_of};
ghost use Rattle.shift_data.specs.Moves.{IsLawful};
ghost use Rattle.tick_model.specs.Shifts.{as_key, moved};
ghost use Rattle.tick_model.specs.Tables.{same_cells};
ghost use Rattle.sort_op.specs.declared.entry.Entry.{Entry};
ghost use Rattle.sort_op.specs.Entries.{Rises, comes_before, is_in, keys_in, place_of, rekeyed};
ghost use Rattle.sort_op.specs.Places.{IsRun, key_at, left_from};
ghost use Rattle.sort_op.specs.Ranks.{IsRanking, arrived, key_in, listed};
ghost use Rattle.sort_op.specs.Sorted.{sort_cells};

use crate::sort_cells::SortCells;
use chunk_list::ChunkList;
use row_handles::{Handle, Handles};
use row_set::RowSet;
use shift_data::ShiftData;
use std::alloc::{AllocError, Global};
use std::cmp::Ordering;
use std::marker::Model;
use tick_model::items::Items;
use tick_model::plan::SortBy;

/// A row by its key and its handle.
#[derive(Clone, Copy)]
pub(crate) struct OrderedRow {
    pub key: u64,
    pub handle: Handle,
}

/// The rows of an input in order by the sort columns, each ascending or descending, and then by key. A position is a place in
/// this order. In the midst of a step there are rows with a handle that are not in the order.
#[derive(Drop)]
pub(crate) struct RowOrder {
    pub(crate) by: Items<SortBy>,
    pub(crate) handles: Handles,
    pub(crate) cells: SortCells,
    /// The handles of the rows, in order.
    rows: ChunkList<Handle>,
}

impl Model for RowOrder {
    ghost use Rattle.chunk_list.specs.Chunked.{joined};
    ghost use Rattle.sort_op.specs.Ranks.{IsRanking, Ranking};

    ghost Value = { Ranking };

    ghost view = { λ order. record { by = order.by; handles = order.handles; cells = order.cells; rows = joined order.rows } };

    ghost invariant = { λ order. IsRanking (record { by = order.by; handles = order.handles; cells = order.cells; rows = joined order.rows }) };
}

impl RowOrder {
    /// An order by these columns that has no rows.
    pub(crate) fn new(alloc: Global, by: Items<SortBy>) -> RowOrder
        ensures by { result.by ≡ by }
        ensures handles { result.handles ≡ [] }
        ensures rows { result.rows ≡ [] }
    {
        RowOrder {
            by,
            handles: Handles::new(alloc),
            cells: SortCells::new(alloc),
            rows: ChunkList::new(alloc),
        }
    }

    /// How many rows there are.
    pub(crate) fn len(&self) -> u64
        ensures count { result ≡ length (listed self.now) }
        ensures ranking { IsRanking self.now }
    {
        self.rows.len() as u64
    }

    /// The key of the row at a position, or 0 past the end.
    pub(crate) fn key_at(&self, position: u64) -> u64
        ensures { result ≡ key_at (listed self.now) position }
    {
        match self.rows.get(position as usize) {
            Some(handle) => self.handles.key_of(*handle),
            None => 0,
        }
    }

    /// The key of the row with a handle.
    pub(crate) fn key_of(&self, handle: Handle) -> u64
        requires { IsSome (key_with handle self.now.handles) }
        ensures { result ≡ key_in self.now.handles handle }
    {
        self.handles.key_of(handle)
    }

    /// The handles of rows that stand one behind the other, from a position on. There are some, but past the end.
    pub(crate) fn run_at(&self, position: usize) -> &[Handle]
        ensures run { IsRun self.now.rows position result.now }
        ensures some { length result.now ≡ 0 → length self.now.rows ≤ position }
        ensures ranking { IsRanking self.now }
    {
        if position >= self.rows.len() {
            return &[];
        }
        self.rows.run_at(position)
    }

    /// Whether a row stands at a position before another.
    fn stands_before(&self, position: usize, row: OrderedRow) -> bool
        ensures { result ≡ option_map_or (λ entry. comes_before self.now.by entry (arrived self.now row)) (slice_get (listed self.now) position) false }
    {
        let Some(handle) = self.rows.get(position) else {
            return false;
        };
        match self.cells.compare(self.by.as_slice(), *handle, row.handle) {
            Ordering::Less => true,
            Ordering::Equal => self.handles.key_of(*handle) < row.key,
            Ordering::Greater => false,
        }
    }

    /// How many rows stand before one by their sort cells: a binary search that looks at no key.
    fn count_cells_before(&self, row: OrderedRow) -> usize
        ensures within { result ≤ length (listed self.now) }
        ensures before { AllByRecursion (λ entry. comes_before self.now.by entry (arrived self.now row) ≡ true) (take result (listed self.now)) }
        ensures ranking { IsRanking self.now }
    {
        let by = self.by.as_slice();
        let cells = &self.cells;
        self.rows
            .partition_point(|handle| cells.are_before(by, *handle, row.handle))
    }

    /// How many rows stand before one. Where the last one does, no other is looked at; and where rows of the same cells do, one
    /// more search finds how many.
    fn count_before(&self, row: OrderedRow) -> usize
        ensures within { result ≤ length (listed self.now) }
        ensures before { AllByRecursion (λ entry. comes_before self.now.by entry (arrived self.now row) ≡ true) (take result (listed self.now)) }
        ensures others { AllByRecursion (λ entry. comes_before self.now.by entry (arrived self.now row) ≡ false) (drop result (listed self.now)) }
    {
        let mut high = self.rows.len();
        if self.stands_before(high.saturating_sub(1), row) {
            return high;
        }
        let mut low = self.count_cells_before(row);
        if !self.stands_before(low, row) {
            return low;
        }
        while low < high {
            let middle = low + (high - low) / 2;
            if self.stands_before(middle, row) {
                low = middle + 1;
            } else {
                high = middle;
            }
        }
        low
    }

    /// The position of the row under a key.
    pub(crate) fn position_of(&self, key: u64) -> u64
        requires { IsTrue (is_among key (keys_in (listed self.now))) }
        ensures { slice_get (keys_in (listed self.now)) result ≡ Some key }
    {
        let handle = self.handles.handle_of(key).unwrap();
        self.count_before(OrderedRow { key, handle }) as u64
    }

    /// Whether the row under a key has the sort cells of this one.
    pub(crate) fn has_cells(&self, key: u64, row: &[i64]) -> bool
        requires { IsTrue (is_among key (keys_in (listed self.now))) }
        ensures { (entry : Entry) → IsTrue (is_in entry (listed self.now)) → entry.key ≡ key → result ≡ same_cells entry.cells (sort_cells self.now.by row.now) }
    {
        let handle = self.handles.handle_of(key).unwrap();
        self.cells.are_of(self.by.as_slice(), handle, row)
    }

    /// How many rows stand before one. Where it is known to stand behind all, no row is looked at.
    fn position_for(&self, row: OrderedRow, is_last: bool) -> usize
        requires { IsTrue is_last → AllByRecursion (λ entry. comes_before self.now.by entry (arrived self.now row) ≡ true) (listed self.now) }
        ensures within { result ≤ length (listed self.now) }
        ensures before { AllByRecursion (λ entry. comes_before self.now.by entry (arrived self.now row) ≡ true) (take result (listed self.now)) }
        ensures others { AllByRecursion (λ entry. comes_before self.now.by entry (arrived self.now row) ≡ false) (drop result (listed self.now)) }
    {
        if is_last {
            self.len() as usize
        } else {
            self.count_before(row)
        }
    }

    /// Puts a row in that is not there, and gives its position. It may be known to stand behind all others.
    pub(crate) fn insert(&mut self, row: OrderedRow, is_last: bool) -> Result<u64, AllocError>
        requires known { key_with row.handle self.old.handles ≡ Some row.key }
        requires absent { place_of (arrived self.old row) (listed self.old) ≡ None }
        requires last { IsTrue is_last → AllByRecursion (λ entry. comes_before self.old.by entry (arrived self.old row) ≡ true) (listed self.old) }
        ensures within { IfOk result (λ position. position ≤ length (listed self.old)) }
        ensures rows { IfOk result (λ position. self.new ≡ record self.old { rows = insert self.old.rows position row.handle }) }
        ensures rises { Rises self.new.by (listed self.new) }
        ensures refused { OnErr result (self.new ≡ self.old) }
    {
        let position = self.position_for(row, is_last);
        self.rows.insert(position, row.handle)?;
        Ok(position as u64)
    }

    /// Takes the row at a position out. It keeps its handle. It takes no memory.
    fn remove_at(&mut self, position: usize)
        requires { position < length self.old.rows }
        ensures { self.new ≡ record self.old { rows = remove self.old.rows position } }
    {
        let _ = self.rows.remove(position);
    }

    /// Takes out the rows at these positions. It takes no memory.
    pub(crate) fn remove_found(&mut self, positions: &RowSet)
        requires { AllByRecursion (λ position. position < length self.old.rows) positions.now }
        ensures left { self.new ≡ record self.old { rows = left_from 0 positions.now self.old.rows } }
        ensures ranking { IsRanking self.old }
    {
        let _count = self.len();
        let mut removed = 0;
        for position in positions {
            self.remove_at(position as usize - removed);
            removed += 1;
        }
    }

    /// Forgets the handles of the rows that are gone, and moves the other rows to the keys to which the shift leads them.
    /// Their order is the same. After a refusal, which comes where memory runs out, they are under the keys from before.
    pub(crate) fn shift(&mut self, gone: &RowSet, shifts: &ShiftData) -> Result<(), AllocError>
        requires gone { AllByRecursion (λ entry. is_among entry.key gone.now ≡ false) (listed self.old) }
        requires lawful { IsLawful shifts.now (without gone.now (keys_of self.old.handles)) }
        ensures by { self.new.by ≡ self.old.by }
        ensures listed { OnOk result (listed self.new ≡ map (rekeyed shifts.now) (listed self.old)) }
        ensures keys { OnOk result (keys_of self.new.handles ≡ map (λ key. as_key (moved shifts.now key)) (without gone.now (keys_of self.old.handles))) }
    {
        self.handles.remove(gone);
        self.handles.shift(shifts)
    }
}
