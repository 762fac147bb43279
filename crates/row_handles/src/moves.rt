//! Rows that move to other keys, in whole blocks.
ghost use Rattle.std.specs.Prelude.{◌≡◌, ◌^◌, ◌<◌, length, map, slice_set, Some, None, OnOk, OnErr};
ghost use Rattle.std.specs.List.{AllByRecursion};
ghost use Rattle.tick_model.specs.Rules.{shift_fault};
ghost use Rattle.slab.specs.Slab.{Updates, get};
ghost use Rattle.row_handles.specs.Entries.{AreDistinct, keys_of, moved_rows};
ghost use Rattle.row_handles.specs.Blocks.{AtBlock, IsBlock, IsIndex, number_of, rows};
ghost use Rattle.row_handles.specs.Moves.{AreRenamed, IsBesideRange, IsCut, IsMovable, IsSplit, moved_block};

use crate::block::{BlockRow, RowBlock, Span};
use crate::index::{HandleIndex, Location, begun_by, short};
use shift_data::ShiftData;
use slab::Slab;
use std::alloc::AllocError;
use tick_model::update::ShiftRange;

/// Makes the rows those of the block with this number.
fn rename(places: &mut Slab<Location>, rows: &[BlockRow], number: u32)
    ensures { AreRenamed number rows.now places.old places.new }
{
    for row in rows {
        if let Some(place) = places.get_mut(row.handle as usize) {
            place.block = number;
        }
    }
}

impl HandleIndex {
    /// Makes two blocks of one, the second from a row on.
    fn split(&mut self, index: usize, from: usize) -> Result<(), AllocError>
        requires sound { IsIndex self.old }
        requires within { index < length self.old.blocks.items }
        requires some { 0 < from }
        requires others { AtBlock self.old.blocks.items index (λ block. from < length block.rows.items) }
        ensures ok { OnOk result (AtBlock self.old.blocks.items index (λ block. IsSplit from block index self.old.blocks.items self.new.blocks.items)) }
        ensures same { rows self.new.blocks.items ≡ rows self.old.blocks.items }
        ensures sound { IsIndex self.new }
    {
        self.ceilings.reserve(1)?;
        let number = short(self.ceilings.vacant_key())?;
        let alloc = *self.blocks.allocator();
        let block = &self.blocks[index];
        let ceiling = block.ceiling;
        let rows = Vec::from_slice(alloc, &block.rows[from..])?;
        let right = RowBlock {
            number,
            first: rows[0].key(ceiling),
            ceiling,
            rows,
        };
        self.blocks.insert(index + 1, right)?;
        let left = &mut self.blocks[index];
        rename(&mut self.places, &left.rows[from..], number);
        left.rows.truncate(from);
        let _ = self.ceilings.insert_reserved(ceiling);
        Ok(())
    }

    /// Splits the block that has rows on both sides of a key, if there is one.
    pub(crate) fn cut(&mut self, key: u64) -> Result<(), AllocError>
        requires { IsIndex self.old }
        ensures ok { OnOk result (IsCut key self.old.blocks.items self.new.blocks.items) }
        ensures same { rows self.new.blocks.items ≡ rows self.old.blocks.items }
        ensures sound { IsIndex self.new }
    {
        let next = begun_by(&self.blocks, key);
        if next == 0 {
            return Ok(());
        }
        let block = &self.blocks[next - 1];
        let from = block.rows_below(key);
        if from == 0 || from == block.rows.len() {
            return Ok(());
        }
        self.split(next - 1, from)
    }

    /// Splits blocks so that each range of a shift moves whole blocks.
    fn cut_ranges(&mut self, ranges: &[ShiftRange]) -> Result<(), AllocError>
        requires sound { IsIndex self.old }
        requires small { AllByRecursion (λ range. range.end < 2 ^ 62) ranges.now }
        ensures ok { OnOk result (AllByRecursion (λ range. AllByRecursion (IsBesideRange range) self.new.blocks.items) ranges.now) }
        ensures same { rows self.new.blocks.items ≡ rows self.old.blocks.items }
        ensures sound { IsIndex self.new }
    {
        for range in ranges {
            self.cut(range.begin)?;
            self.cut(range.end + 1)?;
        }
        Ok(())
    }

    /// Moves the rows of the block at an index.
    fn move_block(&mut self, index: usize, shifts: &ShiftData)
        requires within { index < length self.old.blocks.items }
        requires sound { AtBlock self.old.blocks.items index IsBlock }
        requires movable { AtBlock self.old.blocks.items index (IsMovable shifts.now) }
        requires held { AtBlock self.old.blocks.items index (λ block. get self.old.ceilings block.number ≡ Some block.ceiling) }
        ensures blocks { AtBlock self.old.blocks.items index (λ block. self.new.blocks.items ≡ slice_set self.old.blocks.items index (moved_block shifts.now block)) }
        ensures ceilings { AtBlock self.old.blocks.items index (λ block. Updates self.old.ceilings self.new.ceilings block.number (Some (moved_block shifts.now block).ceiling)) }
        ensures places { self.new.places ≡ self.old.places }
    {
        let block = &mut self.blocks[index];
        // The first row lies so far below the ceiling, by a number of 32 bits. It is not looked at: its block alone is.
        let _ = block.rows[0].depth as u64;
        let depth = block.ceiling - block.first;
        block.first = shifts.landing(block.first);
        block.ceiling = block.first + depth;
        self.ceilings[block.number as usize] = block.ceiling;
    }

    /// Moves whole blocks: those from the first range to the last. Returns where they are.
    fn move_blocks(&mut self, shifts: &ShiftData) -> Span
        requires sound { IsIndex self.old }
        requires movable { AllByRecursion (IsMovable shifts.now) self.old.blocks.items }
        ensures blocks { self.new.blocks.items ≡ map (moved_block shifts.now) self.old.blocks.items }
        ensures held { AllByRecursion (λ block. get self.new.ceilings block.number ≡ Some block.ceiling) self.new.blocks.items }
        ensures places { self.new.places ≡ self.old.places }
    {
        let ranges = shifts.ranges();
        if ranges.is_empty() {
            return Span { from: 0, to: 0 };
        }
        let from = begun_by(&self.blocks, ranges[0].begin).saturating_sub(1);
        let to = begun_by(&self.blocks, ranges[ranges.len() - 1].end);
        for index in from..to {
            self.move_block(index, shifts);
        }
        Span { from, to }
    }

    /// Moves the rows of each range by its delta.
    pub(crate) fn shift(&mut self, shifts: &ShiftData) -> Result<(), AllocError>
        requires sound { IsIndex self.old }
        requires lawful { shift_fault (2 ^ 62) shifts.now (keys_of (rows self.old.blocks.items)) ≡ None }
        ensures ok { OnOk result (rows self.new.blocks.items ≡ moved_rows shifts.now (rows self.old.blocks.items)) }
        ensures err { OnErr result (rows self.new.blocks.items ≡ rows self.old.blocks.items) }
        ensures sound { IsIndex self.new }
    {
        self.cut_ranges(shifts.ranges())?;
        let moved = self.move_blocks(shifts);
        self.join_between(moved.from, moved.to);
        Ok(())
    }
}
