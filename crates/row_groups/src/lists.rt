//! The rows of each group, in order, by the number of the group.
ghost use Rattle.std.specs.Prelude.{◌≡◌, ◌≢◌, ◌∷◌, ℕ, List, ℤ, [], None, Some, IfOk, IsSome, OnErr};
ghost use Rattle.row_groups.specs.Slots.{AreKnown, handle_from, is_before, IsParted, slots_with, slots_without};

use crate::numbers::GroupNumbers;
use crate::place::{GroupRow, SearchKey};
use crate::sequence::Sequence;
use row_handles::Handle;
use slab::Slab;
use std::alloc::{AllocError, Global};

/// The rows of a group, and the key cells that they have.
#[derive(Drop)]
pub(crate) struct KeyedRows {
    pub(crate) cells: Vec<i64>,
    pub(crate) rows: Sequence,
}

/// The groups. A group comes with its first row and leaves with its last, and its number is then free for another.
#[derive(Drop)]
pub(crate) struct Lists {
    alloc: Global,
    pub(crate) numbers: GroupNumbers,
    pub(crate) groups: Slab<KeyedRows>,
    /// Whether a row has come to a group that was there.
    pub(crate) crowded: bool,
    /// What stands for the groups that are not there.
    none: Sequence,
    ghost nothing: { none ≡ [] },
}

impl Lists {
    ghost use Rattle.row_groups.specs.Rows.{AreNumbered, Becomes, cells_with, number_under, slots_numbered, slots_under};

    /// No groups.
    pub(crate) fn new(alloc: Global) -> Lists
        ensures numbers { (cells : List ℤ) → number_under cells result.numbers ≡ None }
        ensures groups { result.groups.slots ≡ [] }
        ensures sound { AreNumbered result }
    {
        Lists {
            alloc,
            numbers: GroupNumbers::new(alloc),
            groups: Slab::new(alloc),
            crowded: false,
            none: Sequence::new(alloc),
        }
    }

    /// The rows with these cells.
    pub(crate) fn rows_with(&self, cells: &[i64]) -> &Sequence
        requires { AreNumbered self.now }
        ensures { result.now ≡ slots_under cells.now self.now }
    {
        match self.numbers.get(cells) {
            Some(number) => &self.groups[number].rows,
            None => &self.none,
        }
    }

    /// The key cells of a group.
    pub(crate) fn cells_of(&self, number: usize) -> &[i64]
        requires { IsSome (cells_with number self.now.groups) }
        ensures { Some result.now ≡ cells_with number self.now.groups }
    {
        &self.groups[number].cells
    }

    /// Begins the group of these cells with its first row, and gives it a number.
    fn begin(&mut self, cells: &[i64], slot: GroupRow) -> Result<usize, AllocError>
        requires sound { AreNumbered self.old }
        requires absent { number_under cells.now self.old.numbers ≡ None }
        ensures ok { IfOk result (λ number. Becomes cells.now (slot ∷ []) self.old self.new) }
        ensures number { IfOk result (λ number. cells_with number self.new.groups ≡ Some cells.now) }
        ensures others { (other : ℕ) → IsSome (cells_with other self.old.groups) → cells_with other self.new.groups ≡ cells_with other self.old.groups }
        ensures err { OnErr result (Becomes cells.now [] self.old self.new) }
        ensures sound { AreNumbered self.new }
    {
        let mut rows = Sequence::new(self.alloc);
        rows.push(slot)?;
        let kept = Vec::from_slice(self.alloc, cells)?;
        self.groups.reserve(1)?;
        self.numbers.insert(cells, self.groups.vacant_key())?;
        Ok(self.groups.insert_reserved(KeyedRows { cells: kept, rows }))
    }

    /// The number of the group with these cells. Where the group with the number `near` has them, no hash is taken.
    fn number_near(&self, cells: &[i64], near: usize) -> Option<usize>
        requires { AreNumbered self.now }
        ensures { result ≡ number_under cells.now self.now.numbers }
    {
        match self.groups.get(near) {
            Some(group) if group.cells.as_slice() == cells => Some(near),
            _ => self.numbers.get(cells),
        }
    }

    /// Puts a row in at its place among the rows with these cells, whose group may have the number `near`. Returns the number of
    /// their group. After a refusal all is as it was.
    pub(crate) fn put(
        &mut self,
        cells: &[i64],
        place: &SearchKey<'_>,
        slot: GroupRow,
        near: usize,
    ) -> Result<usize, AllocError>
        requires sound { AreNumbered self.old }
        requires known { AreKnown place.now.handles.now (slots_under cells.now self.old) }
        requires parted { IsParted (is_before place.now.handles.now place.now.table.now place.now.at place.now.key) (slots_under cells.now self.old) }
        ensures ok { IfOk result (λ number. Becomes cells.now (slots_with place.now.handles.now place.now.table.now place.now.at place.now.key slot (slots_under cells.now self.old)) self.old self.new) }
        ensures number { IfOk result (λ number. cells_with number self.new.groups ≡ Some cells.now) }
        ensures others { (other : ℕ) → IsSome (cells_with other self.old.groups) → cells_with other self.new.groups ≡ cells_with other self.old.groups }
        ensures err { OnErr result (Becomes cells.now (slots_under cells.now self.old) self.old self.new) }
        ensures sound { AreNumbered self.new }
    {
        let Some(number) = self.number_near(cells, near) else {
            return self.begin(cells, slot);
        };
        self.crowded = true;
        self.groups[number].rows.put(place, slot)?;
        Ok(number)
    }

    /// Gives up a group.
    fn give_up(&mut self, number: usize)
        requires { AreNumbered self.old }
        ensures rows { (cells : List ℤ) → cells_with number self.old.groups ≡ Some cells → Becomes cells [] self.old self.new }
        ensures gone { cells_with number self.new.groups ≡ None }
        ensures others { (other : ℕ) → other ≢ number → cells_with other self.new.groups ≡ cells_with other self.old.groups }
        ensures sound { AreNumbered self.new }
    {
        if let Some(group) = self.groups.try_remove(number) {
            self.numbers.remove(group.cells.as_slice());
        }
    }

    /// Takes out the row at a place of a group, and gives up the group if it has no other. Returns the handle of the row.
    pub(crate) fn take(&mut self, number: usize, place: &SearchKey<'_>) -> Option<Handle>
        requires sound { AreNumbered self.old }
        requires there { IsSome (cells_with number self.old.groups) }
        requires known { AreKnown place.now.handles.now (slots_numbered number self.old.groups) }
        requires parted { IsParted (is_before place.now.handles.now place.now.table.now place.now.at place.now.key) (slots_numbered number self.old.groups) }
        ensures rows { (cells : List ℤ) → cells_with number self.old.groups ≡ Some cells → Becomes cells (slots_without place.now.handles.now place.now.table.now place.now.at place.now.key (slots_under cells self.old)) self.old self.new }
        ensures handle { result ≡ handle_from place.now.handles.now place.now.table.now place.now.at place.now.key (slots_numbered number self.old.groups) }
        ensures own { slots_without place.now.handles.now place.now.table.now place.now.at place.now.key (slots_numbered number self.old.groups) ≢ [] → cells_with number self.new.groups ≡ cells_with number self.old.groups }
        ensures others { (other : ℕ) → other ≢ number → cells_with other self.new.groups ≡ cells_with other self.old.groups }
        ensures fewer { (other : ℕ) (cells : List ℤ) → cells_with other self.new.groups ≡ Some cells → cells_with other self.old.groups ≡ Some cells }
        ensures sound { AreNumbered self.new }
    {
        let rows = &mut self.groups[number].rows;
        let handle = rows.take(place);
        if rows.is_empty() {
            self.give_up(number);
        }
        handle
    }
}
