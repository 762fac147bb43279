//! The rows with the same key cells.
ghost use Rattle.std.specs.Prelude.{◌≡◌, ◌-◌, ◌<◌, ◌==◌, Some, length, map, slice_get, int_le, int_lt};
ghost use Rattle.std.specs.List.{AllByRecursion, count_by};
ghost use Rattle.row_handles.specs.Entries.{AreHandled};
ghost use Rattle.row_groups.specs.Members.{keys_of};
ghost use Rattle.row_groups.specs.Slots.{AreKnown, AreRanked};

use crate::place::SearchKey;
use crate::sequence::Sequence;
use crate::table::Table;
use row_handles::Handles;
use std::marker::Model;
use tick_model::limits::KEY_SPACE;

/// The rows of a group, by rising `at` and then by rising key.
#[derive(Drop)]
pub struct Group<'a> {
    handles: &'a Handles,
    table: &'a Table,
    cells: &'a [i64],
    rows: &'a Sequence,
}

impl<'a> Model for Group<'a> {
    ghost use Rattle.std.specs.Prelude.{List, map};
    ghost use Rattle.row_groups.specs.Members.{Member};
    ghost use Rattle.row_groups.specs.Slots.{IsGroup, member_at};

    ghost Value = { List Member };

    ghost view = { λ group. map (member_at group.handles.now group.table.now group.cells.now) group.rows.now };

    ghost invariant = { λ group. IsGroup group.handles.now group.table.now group.rows.now };
}

impl<'a> Group<'a> {
    ghost use Rattle.row_groups.specs.Slots.{member_at};

    /// The rows with these cells.
    pub(crate) fn new(
        handles: &'a Handles,
        table: &'a Table,
        cells: &'a [i64],
        rows: &'a Sequence,
    ) -> Group<'a>
        requires handled { AreHandled handles.now }
        requires known { AreKnown handles.now rows.now }
        requires ranked { AreRanked handles.now table.now rows.now }
        ensures { result ≡ map (member_at handles.now table.now cells.now) rows.now }
    {
        Group {
            handles,
            table,
            cells,
            rows,
        }
    }

    /// The key cells that the rows have.
    pub fn cells(&self) -> &'a [i64]
        ensures { AllByRecursion (λ member. member.cells ≡ result.now) self.now }
    {
        self.cells
    }

    /// How many rows there are.
    pub fn len(&self) -> usize
        ensures { result ≡ length self.now }
    {
        self.rows.len()
    }

    /// Whether there is no row.
    pub fn is_empty(&self) -> bool
        ensures { result ≡ (length self.now == 0) }
    {
        self.rows.is_empty()
    }

    /// The key of the row at a position.
    pub fn key_at(&self, position: usize) -> u64
        requires { position < length self.now }
        ensures { slice_get (keys_of self.now) position ≡ Some result }
    {
        self.handles.key_of(self.rows.get(position).handle as usize)
    }

    /// The `at` of the row at a position.
    pub fn at_at(&self, position: usize) -> i64
        requires { position < length self.now }
        ensures { slice_get (map (λ member. member.at) self.now) position ≡ Some result }
    {
        self.table.at(self.rows.get(position).handle as usize)
    }

    /// The key of the first row, or None where there is none.
    pub fn first_key(&self) -> Option<u64>
        ensures { result ≡ slice_get (keys_of self.now) 0 }
    {
        let slot = self.rows.first()?;
        Some(self.handles.key_of(slot.handle as usize))
    }

    /// The key of the last row, or None where there is none.
    pub fn last_key(&self) -> Option<u64>
        ensures { result ≡ slice_get (keys_of self.now) (length self.now - 1) }
    {
        let slot = self.rows.last()?;
        Some(self.handles.key_of(slot.handle as usize))
    }

    /// How many rows have an `at` that is not greater. They are the first ones. Where that is all of them, a look at the last one
    /// shows it.
    pub fn count_at_most(&self, at: i64) -> usize
        ensures { result ≡ count_by (λ member. int_le member.at at) self.now }
    {
        if let Some(last) = self.rows.last() {
            if self.table.at(last.handle as usize) <= at {
                return self.rows.len();
            }
        }
        self.rows.count_before(&SearchKey {
            handles: self.handles,
            table: self.table,
            at,
            key: KEY_SPACE,
        })
    }

    /// How many rows have a smaller `at`. They are the first ones. Where none has, a look at the first one shows it.
    pub fn count_below(&self, at: i64) -> usize
        ensures { result ≡ count_by (λ member. int_lt member.at at) self.now }
    {
        if let Some(first) = self.rows.first() {
            if at <= self.table.at(first.handle as usize) {
                return 0;
            }
        }
        self.rows.count_before(&SearchKey {
            handles: self.handles,
            table: self.table,
            at,
            key: 0,
        })
    }
}
