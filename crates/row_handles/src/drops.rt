//! Rows that leave.
ghost use Rattle.std.specs.Prelude.{◌≡◌, ℕ, ◌+◌, ◌^◌, ◌<◌, ◌≤◌, ◌++◌, false, length, take, drop, vec_len};
ghost use Rattle.std.specs.List.{AllByRecursion};
ghost use Rattle.slab.specs.Slab.{get};
ghost use Rattle.row_handles.specs.Blocks.{IsIndex, rows};
ghost use Rattle.row_handles.specs.Moves.{has_handle};
ghost use Rattle.row_handles.specs.Drops.{AreOutside, left_by, outside};

use crate::block::BlockRow;
use crate::index::{HandleIndex, Location, begun_by};
use row_set::Range;
use slab::Slab;

/// Gives the handles of the rows back.
fn vacate(places: &mut Slab<Location>, rows: &[BlockRow])
    ensures { (handle : ℕ) → has_handle handle rows.now ≡ false → get places.new handle ≡ get places.old handle }
{
    for row in rows {
        let _ = places.try_remove(row.handle as usize);
    }
}

/// Takes out the rows from `from` up to `to`.
fn take_out(rows: &mut Vec<BlockRow>, from: usize, to: usize)
    requires order { from ≤ to }
    requires within { to ≤ vec_len rows.old }
    ensures { rows.new.items ≡ take from rows.old.items ++ drop to rows.old.items }
{
    let len = rows.len();
    rows.copy_within(to..len, from);
    rows.truncate(len - (to - from));
}

impl HandleIndex {
    /// Leaves out the rows of the block at an index under the keys from first to last, and the block where none is left;
    /// returns the index of the next block.
    fn leave_at(&mut self, index: usize, first: u64, last: u64) -> usize
        requires sound { IsIndex self.old }
        requires within { index < length self.old.blocks.items }
        requires order { first ≤ last }
        requires small { last < 2 ^ 62 }
        ensures sound { IsIndex self.new }
        ensures rest { outside first last (rows self.new.blocks.items) ≡ outside first last (rows self.old.blocks.items) }
        ensures within { result ≤ length self.new.blocks.items }
        ensures nearer { length self.new.blocks.items + index < length self.old.blocks.items + result }
        ensures done { AreOutside first last (rows (take index self.old.blocks.items)) → AreOutside first last (rows (take result self.new.blocks.items)) }
    {
        let block = &mut self.blocks[index];
        let leaving = block.rows_between(first, last);
        vacate(&mut self.places, &block.rows[leaving.from..leaving.to]);
        take_out(&mut block.rows, leaving.from, leaving.to);
        if block.rows.is_empty() {
            let _ = self.ceilings.try_remove(block.number as usize);
            self.blocks.remove(index);
            return index;
        }
        block.first = block.rows[0].key(block.ceiling);
        index + 1
    }

    /// Leaves out the rows under the keys from first to last.
    pub(crate) fn leave_rows(&mut self, first: u64, last: u64)
        requires sound { IsIndex self.old }
        requires order { first ≤ last }
        requires small { last < 2 ^ 62 }
        ensures rows { rows self.new.blocks.items ≡ outside first last (rows self.old.blocks.items) }
        ensures sound { IsIndex self.new }
    {
        let mut index = begun_by(&self.blocks, first).saturating_sub(1);
        while index < self.blocks.len() && self.blocks[index].first <= last {
            index = self.leave_at(index, first, last);
        }
    }

    /// Leaves out the rows of all ranges.
    pub(crate) fn leave_ranges(&mut self, ranges: &[Range])
        requires sound { IsIndex self.old }
        requires order { AllByRecursion (λ range. range.first ≤ range.last) ranges.now }
        requires small { AllByRecursion (λ range. range.last < 2 ^ 62) ranges.now }
        ensures rows { rows self.new.blocks.items ≡ left_by ranges.now (rows self.old.blocks.items) }
        ensures sound { IsIndex self.new }
    {
        for range in ranges {
            self.leave_rows(range.first, range.last);
        }
    }
}
