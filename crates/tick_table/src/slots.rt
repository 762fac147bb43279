//! Slots that hold the cells of rows, one slot after the other.

ghost use Rattle.std.specs.Prelude.{ℕ, ◌≡◌, ◌+◌, ◌*◌, ◌^◌, ◌<◌, ◌≤◌, List, [], ◌∷◌, ◌++◌, length, take, drop, set, slice_index_or, IfOk, OnOk, OnErr};
ghost use Rattle.std.specs.List.{range_with_len};
ghost use Rattle.tick_table.specs.Placed.{AreFilled, AreOwn};
ghost use Rattle.tick_table.specs.Slots.{AreSlots, IsFilled, slot_list};

use std::alloc::{AllocError, Global};
use std::marker::Model;

/// The cells of rows of one width. A row that comes gets a slot that is free, or else a new one behind the last. A contract
/// sees the cells of each slot and the list of the free ones.
#[derive(Drop)]
pub(crate) struct Slots {
    /// The number of cells of a slot.
    width: usize,
    /// The number of slots.
    count: usize,
    /// The cells of each slot.
    cells: Vec<i64>,
    /// The slots that are free: the last of them is taken first.
    free: Vec<usize>,
}

impl Model for Slots {
    ghost use Rattle.tick_table.specs.Slots.{IsSlotList, SlotCells, slot_list};

    ghost Value = { SlotCells };

    ghost view = { λ slots. record {
      width = slots.width;
      rows = slot_list slots.width slots.count slots.cells.items;
      free = slots.free.items;
    } };

    ghost invariant = { λ slots. IsSlotList slots.width slots.count slots.cells.items slots.free.items };
}

impl Slots {
    /// No slots.
    pub(crate) fn new(alloc: Global, width: usize) -> Slots
        requires { 1 ≤ width }
        ensures width { result.width ≡ width }
        ensures rows { result.rows ≡ [] }
        ensures free { result.free ≡ [] }
    {
        Slots {
            width,
            count: 0,
            cells: Vec::new(alloc),
            free: Vec::new(alloc),
        }
    }

    /// The number of cells of a slot.
    pub(crate) fn width(&self) -> usize
        ensures { result ≡ self.now.width }
    {
        self.width
    }

    /// The cells of a slot.
    pub(crate) fn row(&self, slot: usize) -> &[i64]
        requires { slot < length self.now.rows }
        ensures cells { result.now ≡ slice_index_or self.now.rows slot [] }
        ensures whole { length result.now ≡ self.now.width }
    {
        row_at(&self.cells, slot, self.width)
    }

    /// Puts the cells of a row into a slot, and gives the slot. After a refusal all is as it was.
    pub(crate) fn fill(&mut self, row: &[i64]) -> Result<usize, AllocError>
        requires { length row.now ≡ self.old.width }
        ensures filled { IfOk result (λ slot. IsFilled row.now self.old self.new slot) }
        ensures refused { OnErr result (self.new ≡ self.old) }
    {
        match self.free.pop() {
            Some(slot) => {
                self.overwrite(slot, row);
                Ok(slot)
            }
            None => self.open(row),
        }
    }

    /// Puts the cells of a row into one of the slots.
    pub(crate) fn overwrite(&mut self, slot: usize, row: &[i64])
        requires slot { slot < length self.old.rows }
        requires whole { length row.now ≡ self.old.width }
        ensures width { self.new.width ≡ self.old.width }
        ensures rows { self.new.rows ≡ set self.old.rows slot row.now }
        ensures free { self.new.free ≡ self.old.free }
    {
        let start = slot * self.width;
        self.cells[start..start + self.width].copy_from_slice(row);
    }

    /// Puts the cells of a row into a new slot, and gives the slot. After a refusal all is as it was.
    fn open(&mut self, row: &[i64]) -> Result<usize, AllocError>
        requires { length row.now ≡ self.old.width }
        ensures slot { IfOk result (λ slot. slot ≡ length self.old.rows) }
        ensures width { self.new.width ≡ self.old.width }
        ensures rows { OnOk result (self.new.rows ≡ self.old.rows ++ row.now ∷ []) }
        ensures free { self.new.free ≡ self.old.free }
        ensures refused { OnErr result (self.new ≡ self.old) }
    {
        self.cells.extend_from_slice(row)?;
        let slot = self.count;
        self.count += 1;
        Ok(slot)
    }

    /// Puts the cells of rows, one row after the other, into slots, and gives these: those that are free first. After a refusal
    /// no slot has two rows.
    pub(crate) fn fill_all(&mut self, count: usize, rows: &[i64]) -> Result<Vec<usize>, AllocError>
        requires { length rows.now ≡ count * self.old.width }
        ensures width { self.new.width ≡ self.old.width }
        ensures filled { IfOk result (λ slots. (places left : List ℕ) → AreOwn self.old places left
            → AreFilled (slot_list self.old.width count rows.now) self.old self.new slots.items places left) }
        ensures refused { OnErr result ((places left : List ℕ) → AreOwn self.old places left → AreOwn self.new places left) }
    {
        if self.free.is_empty() {
            return self.open_all(count, rows);
        }
        let width = self.width;
        let mut slots = Vec::with_capacity(*self.cells.allocator(), count)?;
        for place in 0..count {
            let slot = self.fill(row_at(rows, place, width))?;
            slots.push(slot)?;
        }
        Ok(slots)
    }

    /// Puts the cells of rows, one row after the other, into new slots, and gives these, with room for a quarter more behind them:
    /// the rows that come next then find it. After a refusal all is as it was.
    fn open_all(&mut self, count: usize, rows: &[i64]) -> Result<Vec<usize>, AllocError>
        requires { length rows.now ≡ count * self.old.width }
        ensures width { self.new.width ≡ self.old.width }
        ensures filled { IfOk result (λ slots. (places left : List ℕ) → AreOwn self.old places left
            → AreFilled (slot_list self.old.width count rows.now) self.old self.new slots.items places left) }
        ensures refused { OnErr result (self.new ≡ self.old) }
    {
        let slots = slots_from(*self.cells.allocator(), self.count, count)?;
        self.cells
            .reserve(rows.len().saturating_add(rows.len() / 4))?;
        self.cells.extend_from_slice(rows)?;
        self.count += count;
        Ok(slots)
    }

    /// Makes slots free: the last of them is taken first. After a refusal all is as it was.
    pub(crate) fn release(&mut self, slots: &[usize]) -> Result<(), AllocError>
        requires { AreSlots (length self.old.rows) slots.now }
        ensures width { self.new.width ≡ self.old.width }
        ensures rows { self.new.rows ≡ self.old.rows }
        ensures free { OnOk result (self.new.free ≡ self.old.free ++ slots.now) }
        ensures refused { OnErr result (self.new ≡ self.old) }
    {
        self.free.extend_from_slice(slots)
    }

    /// Equal slots.
    pub(crate) fn copy(&self) -> Result<Slots, AllocError>
        ensures { IfOk result (λ copy. copy ≡ self.now) }
    {
        let alloc = *self.cells.allocator();
        Ok(Slots {
            width: self.width,
            count: self.count,
            cells: Vec::from_slice(alloc, &self.cells)?,
            free: Vec::from_slice(alloc, &self.free)?,
        })
    }
}

/// The slots from one on.
fn slots_from(alloc: Global, first: usize, count: usize) -> Result<Vec<usize>, AllocError>
    requires { first + count < 2 ^ 64 }
    ensures { IfOk result (λ slots. slots.items ≡ range_with_len first count) }
{
    let mut slots = Vec::with_capacity(alloc, count)?;
    for place in 0..count {
        slots.push(first + place)?;
    }
    Ok(slots)
}

/// The cells of one of several rows of one width, which stand one after the other.
pub(crate) fn row_at(cells: &[i64], place: usize, width: usize) -> &[i64]
    requires { place * width + width ≤ length cells.now }
    ensures cells { result.now ≡ take width (drop (place * width) cells.now) }
    ensures whole { length result.now ≡ width }
{
    let start = place * width;
    &cells[start..start + width]
}
