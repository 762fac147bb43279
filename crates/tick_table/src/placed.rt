//! The rows of a table by position, each in a slot.

ghost use Rattle.std.specs.Prelude.{◌≡◌, ◌+◌, ◌*◌, ◌<◌, ◌≤◌, [], ◌∷◌, ◌++◌, length, take, drop, insert, set, slice_index, slice_index_or, slice_range, IfOk, OnOk};
ghost use Rattle.std.specs.List.{remove_range};
ghost use Rattle.chunk_list.specs.Chunked.{joined};
ghost use Rattle.tick_table.specs.Slots.{slot_list};

use crate::slots::{Slots, row_at};
use chunk_list::ChunkList;
use std::alloc::{AllocError, Global};
use std::marker::Model;

/// The rows of one width, by position, and what the step took out or replaced of them. A row that stays keeps its slot. A
/// contract sees the cells of the rows.
#[derive(Drop)]
pub(crate) struct PlacedRows {
    /// The slot of the row at each position.
    places: ChunkList<usize>,
    /// The cells of the slots.
    slots: Slots,
    /// The slots of the rows that this step took out, in this order: they are free from the next one on.
    left: Vec<usize>,
    /// The cells of the rows that this step replaced, one row after the other.
    saved: Vec<i64>,
}

impl Model for PlacedRows {
    ghost use Rattle.chunk_list.specs.Chunked.{joined};
    ghost use Rattle.tick_table.specs.Placed.{AreOwn, Placed, cells_of};

    ghost Value = { Placed };

    ghost view = { λ placed. record {
      width = placed.slots.width;
      rows = cells_of placed.slots.rows (joined placed.places);
      left = cells_of placed.slots.rows placed.left.items;
      saved = placed.saved.items;
    } };

    ghost invariant = { λ placed. AreOwn placed.slots (joined placed.places) placed.left.items };
}

impl PlacedRows {
    /// No rows.
    pub(crate) fn new(alloc: Global, width: usize) -> PlacedRows
        requires { 1 ≤ width }
        ensures width { result.width ≡ width }
        ensures rows { result.rows ≡ [] }
        ensures left { result.left ≡ [] }
        ensures saved { result.saved ≡ [] }
    {
        PlacedRows {
            places: ChunkList::new(alloc),
            slots: Slots::new(alloc, width),
            left: Vec::new(alloc),
            saved: Vec::new(alloc),
        }
    }

    /// Where memory is taken from.
    pub(crate) fn allocator(&self) -> Global {
        *self.saved.allocator()
    }

    /// The number of cells of a row.
    pub(crate) fn width(&self) -> usize
        ensures { result ≡ self.now.width }
    {
        self.slots.width()
    }

    /// The cells of the row at a position.
    pub(crate) fn row(&self, position: usize) -> &[i64]
        requires { position < length self.now.rows }
        ensures cells { result.now ≡ slice_index_or self.now.rows position [] }
        ensures whole { length result.now ≡ self.now.width }
    {
        self.slots.row(slot_at(&self.places, position))
    }

    /// How many rows this step took out.
    pub(crate) fn count_left(&self) -> usize
        ensures { result ≡ length self.now.left }
    {
        self.left.len()
    }

    /// The cells of one of the rows that this step took out.
    pub(crate) fn left_row(&self, place: usize) -> &[i64]
        requires { place < length self.now.left }
        ensures cells { result.now ≡ slice_index_or self.now.left place [] }
        ensures whole { length result.now ≡ self.now.width }
    {
        self.slots.row(self.left[place])
    }

    /// The cells of one of the rows that this step replaced.
    pub(crate) fn saved_row(&self, place: usize) -> &[i64]
        requires { place * self.now.width + self.now.width ≤ length self.now.saved }
        ensures cells { result.now ≡ take self.now.width (drop (place * self.now.width) self.now.saved) }
        ensures whole { length result.now ≡ self.now.width }
    {
        row_at(&self.saved, place, self.slots.width())
    }

    /// Begins a step. The slots of the rows that the last one took out become free: those that left first are taken first, so
    /// rows that come together lie together.
    pub(crate) fn begin_step(&mut self) -> Result<(), AllocError>
        ensures width { self.new.width ≡ self.old.width }
        ensures rows { OnOk result (self.new.rows ≡ self.old.rows) }
        ensures left { OnOk result (self.new.left ≡ []) }
        ensures saved { OnOk result (self.new.saved ≡ []) }
    {
        self.left.reverse();
        self.slots.release(&self.left)?;
        self.left.clear();
        self.saved.clear();
        Ok(())
    }

    /// Takes rows out, so many from a position on. After a refusal the rows are to be given up.
    pub(crate) fn take_out(&mut self, position: usize, count: usize) -> Result<(), AllocError>
        requires { position + count ≤ length self.old.rows }
        ensures width { self.new.width ≡ self.old.width }
        ensures rows { OnOk result (self.new.rows ≡ remove_range self.old.rows position (position + count)) }
        ensures left { OnOk result (self.new.left ≡ self.old.left ++ slice_range self.old.rows position (position + count)) }
        ensures saved { OnOk result (self.new.saved ≡ self.old.saved) }
    {
        self.places.remove_run(position, count, &mut self.left)?;
        Ok(())
    }

    /// Puts a row in at a position. After a refusal the rows are to be given up.
    pub(crate) fn put_in(&mut self, position: usize, row: &[i64]) -> Result<(), AllocError>
        requires within { position ≤ length self.old.rows }
        requires whole { length row.now ≡ self.old.width }
        ensures width { OnOk result (self.new.width ≡ self.old.width) }
        ensures rows { OnOk result (self.new.rows ≡ insert self.old.rows position row.now) }
        ensures left { OnOk result (self.new.left ≡ self.old.left) }
        ensures saved { OnOk result (self.new.saved ≡ self.old.saved) }
    {
        let slot = self.slots.fill(row)?;
        self.places.insert(position, slot)?;
        Ok(())
    }

    /// How many rows there are.
    pub(crate) fn len(&self) -> usize
        ensures { result ≡ length self.now.rows }
    {
        self.places.len()
    }

    /// Puts rows, whose cells stand one after the other, in behind all others. After a refusal the rows are to be given up.
    pub(crate) fn append(&mut self, count: usize, rows: &[i64]) -> Result<(), AllocError>
        requires { length rows.now ≡ count * self.old.width }
        ensures width { OnOk result (self.new.width ≡ self.old.width) }
        ensures rows { OnOk result (self.new.rows ≡ self.old.rows ++ slot_list self.old.width count rows.now) }
        ensures left { OnOk result (self.new.left ≡ self.old.left) }
        ensures saved { OnOk result (self.new.saved ≡ self.old.saved) }
    {
        let slots = self.slots.fill_all(count, rows)?;
        self.places.extend_from_slice(&slots)?;
        Ok(())
    }

    /// Replaces the cells of the row at a position. After a refusal the rows are to be given up.
    pub(crate) fn replace(&mut self, position: usize, row: &[i64]) -> Result<(), AllocError>
        requires within { position < length self.old.rows }
        requires whole { length row.now ≡ self.old.width }
        ensures width { OnOk result (self.new.width ≡ self.old.width) }
        ensures rows { OnOk result (self.new.rows ≡ set self.old.rows position row.now) }
        ensures left { OnOk result (self.new.left ≡ self.old.left) }
        ensures saved { OnOk result (self.new.saved ≡ self.old.saved ++ slice_index_or self.old.rows position []) }
    {
        let slot = slot_at(&self.places, position);
        self.saved.extend_from_slice(self.slots.row(slot))?;
        self.slots.overwrite(slot, row);
        Ok(())
    }

    /// Equal rows.
    pub(crate) fn copy(&self) -> Result<PlacedRows, AllocError>
        ensures { IfOk result (λ copy. copy ≡ self.now) }
    {
        let alloc = self.allocator();
        Ok(PlacedRows {
            places: self.places.copy()?,
            slots: self.slots.copy()?,
            left: Vec::from_slice(alloc, &self.left)?,
            saved: Vec::from_slice(alloc, &self.saved)?,
        })
    }
}

/// The slot at a position.
fn slot_at(places: &ChunkList<usize>, position: usize) -> usize
    requires { position < length (joined places.now) }
    ensures { result ≡ slice_index (joined places.now) position }
{
    *places.get(position).unwrap()
}
