//! The rows by their handles and by their groups.
ghost use Rattle.std.specs.Prelude.{◌≡◌, ℕ, List, ℤ, ◌^◌, ◌<◌, ◌∷◌, [], length, None, Some, IfOk, IsSome, OnOk, OnErr};
ghost use Rattle.tick_model.specs.Rules.{shift_fault};
ghost use Rattle.row_handles.specs.Entries.{handle_under, keys_of, left_rows, moved_rows};
ghost use Rattle.row_groups.specs.Members.{left_members, member_of, moved_members, with_member};
ghost use Rattle.row_groups.specs.Rows.{cells_with, members_of, rows_of};

use crate::lists::Lists;
use crate::place::{GroupRow, SearchKey};
use crate::table::{GroupMember, Table};
use row_handles::{Handle, Handles, short};
use row_set::RowSet;
use shift_data::ShiftData;
use std::alloc::{AllocError, Global};

/// The rows of a table in groups.
#[derive(Drop)]
pub(crate) struct GroupIndex {
    /// How many key cells each row has.
    pub(crate) width: usize,
    pub(crate) handles: Handles,
    pub(crate) table: Table,
    pub(crate) lists: Lists,
}

impl GroupIndex {
    ghost use Rattle.row_groups.specs.Indexes.{grouped_of, Holds, IsIndex, names_of};

    /// No rows, which are to have so many key cells each.
    pub(crate) fn new(alloc: Global, width: usize) -> GroupIndex
        ensures sound { IsIndex result }
        ensures members { grouped_of result ≡ record { width = width; members = [] } }
        ensures names { names_of result.lists.groups ≡ [] }
    {
        GroupIndex {
            width,
            handles: Handles::new(alloc),
            table: Table::new(alloc),
            lists: Lists::new(alloc),
        }
    }

    /// Puts a row that has its handle into its group, which may have the number `near`. Returns the number of the group.
    pub(crate) fn enter(
        &mut self,
        handle: Handle,
        key: u64,
        cells: &[i64],
        at: i64,
        near: usize,
    ) -> Result<usize, AllocError>
        requires others { Holds (left_rows (key ∷ []) self.old.handles) self.old }
        requires handle { handle_under key self.old.handles ≡ Some handle }
        requires width { length cells.now ≡ self.old.width }
        ensures ok { OnOk result (IsIndex self.new) }
        ensures row { OnOk result (grouped_of self.new ≡ record { width = self.old.width; members = with_member (member_of key cells.now at) (members_of (rows_of self.old.table self.old.lists.groups (left_rows (key ∷ []) self.old.handles))) }) }
        ensures err { OnErr result (Holds (left_rows (key ∷ []) self.new.handles) self.new) }
        ensures others { rows_of self.new.table self.new.lists.groups (left_rows (key ∷ []) self.new.handles) ≡ rows_of self.old.table self.old.lists.groups (left_rows (key ∷ []) self.old.handles) }
        ensures number { IfOk result (λ number. cells_with number self.new.lists.groups ≡ Some cells.now) }
        ensures numbers { (other : ℕ) → IsSome (cells_with other self.old.lists.groups) → cells_with other self.new.lists.groups ≡ cells_with other self.old.lists.groups }
        ensures handles { self.new.handles ≡ self.old.handles }
        ensures width { self.new.width ≡ self.old.width }
    {
        let row = short(handle)?;
        self.table.make_room(handle, at)?;
        let place = SearchKey {
            handles: &self.handles,
            table: &self.table,
            at,
            key,
        };
        let number = self
            .lists
            .put(cells, &place, GroupRow { handle: row }, near)?;
        self.table.keep(handle, GroupMember { number, at });
        Ok(number)
    }

    /// Puts a row in under a key that has none. Its group may have the number `near`. Returns the number of its group.
    pub(crate) fn add(
        &mut self,
        key: u64,
        cells: &[i64],
        at: i64,
        near: usize,
    ) -> Result<usize, AllocError>
        requires sound { IsIndex self.old }
        requires small { key < 2 ^ 62 }
        requires absent { handle_under key self.old.handles ≡ None }
        requires width { length cells.now ≡ self.old.width }
        ensures sound { IsIndex self.new }
        ensures ok { OnOk result (grouped_of self.new ≡ record (grouped_of self.old) { members = with_member (member_of key cells.now at) (grouped_of self.old).members }) }
        ensures err { OnErr result (grouped_of self.new ≡ grouped_of self.old) }
        ensures number { IfOk result (λ number. cells_with number self.new.lists.groups ≡ Some cells.now) }
        ensures numbers { (other : ℕ) → IsSome (cells_with other self.old.lists.groups) → cells_with other self.new.lists.groups ≡ cells_with other self.old.lists.groups }
    {
        let handle = self.handles.add(key)?;
        match self.enter(handle, key, cells, at, near) {
            Ok(number) => Ok(number),
            Err(refusal) => {
                self.handles.remove_one(key);
                Err(refusal)
            }
        }
    }

    /// Takes out the rows under these keys.
    pub(crate) fn remove(&mut self, keys: &RowSet)
        requires sound { IsIndex self.old }
        ensures sound { IsIndex self.new }
        ensures members { grouped_of self.new ≡ record (grouped_of self.old) { members = left_members keys.now (grouped_of self.old).members } }
        ensures fewer { (other : ℕ) (cells : List ℤ) → cells_with other self.new.lists.groups ≡ Some cells → cells_with other self.old.lists.groups ≡ Some cells }
    {
        for key in keys {
            let Some(handle) = self.handles.handle_of(key) else {
                continue;
            };
            let kept = self.table.get(handle);
            let place = SearchKey {
                handles: &self.handles,
                table: &self.table,
                at: kept.at,
                key,
            };
            self.lists.take(kept.number, &place);
        }
        self.handles.remove(keys);
    }

    /// Moves the rows to other keys. Their groups stay as they are.
    pub(crate) fn shift(&mut self, shifts: &ShiftData) -> Result<(), AllocError>
        requires sound { IsIndex self.old }
        requires lawful { shift_fault (2 ^ 62) shifts.now (keys_of self.old.handles) ≡ None }
        ensures sound { IsIndex self.new }
        ensures ok { OnOk result (grouped_of self.new ≡ record (grouped_of self.old) { members = moved_members shifts.now (grouped_of self.old).members }) }
        ensures err { OnErr result (grouped_of self.new ≡ grouped_of self.old) }
        ensures groups { self.new.lists.groups ≡ self.old.lists.groups }
    {
        self.handles.shift(shifts)
    }
}
