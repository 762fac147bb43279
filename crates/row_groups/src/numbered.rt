//! The index itself.
ghost use Rattle.std.specs.Prelude.{◌≡◌, ◌≢◌, ◌↔◌, ℕ, List, ℤ, ◌<◌, ◌≤◌, ◌^◌, ◌∷◌, [], None, Some, IfOk, IfSome, IsSome, IsTrue, length, option_map, true, OnOk, OnErr};
ghost use Rattle.std.specs.List.{AllByRecursion, AllZip};
ghost use Rattle.tick_model.specs.Rules.{shift_fault};
ghost use Rattle.row_groups.specs.Members.{AreGrouped, IsNumberOf, IsNumberUnder, IsPart, IsRegrouped, group_of, groups_of, keys_of, left_members, member_of, member_under, moved_members, name_at, with_member};

use crate::group::Group;
use crate::index::GroupIndex;
use row_set::RowSet;
use shift_data::ShiftData;
use std::alloc::{AllocError, Global};
use std::marker::Model;

/// The rows of a table by their key cells. The rows with equal cells are a group, in which they stand by rising `at` and then by
/// rising key. What is kept of a row is not read from the table again. Each group has a number, by which something of the caller's
/// can stand beside it in a vector. It keeps its number while it has rows; then the number is free for another group.
#[derive(Drop)]
pub struct NumberedGroups {
    index: GroupIndex,
}

impl Model for NumberedGroups {
    ghost use Rattle.row_groups.specs.Members.{Numbered};
    ghost use Rattle.row_groups.specs.Indexes.{IsIndex, numbered_of};

    ghost Value = { Numbered };

    ghost view = { λ groups. numbered_of groups.index };

    ghost invariant = { λ groups. IsIndex groups.index };
}

impl NumberedGroups {
    /// No rows. Those that come are to have so many key cells each. It takes no memory.
    pub fn new(alloc: Global, width: usize) -> NumberedGroups
        ensures { result ≡ record { width = width; members = []; names = [] } }
    {
        NumberedGroups {
            index: GroupIndex::new(alloc, width),
        }
    }

    /// Puts a row in under a key that has none, and returns the number of its group. The cost is that of finding its place and
    /// of one chunk of its group. After a refusal, which comes where memory runs out, the rows are as they were.
    pub fn add(&mut self, key: u64, cells: &[i64], at: i64) -> Result<usize, AllocError>
        requires small { key < 2 ^ 62 }
        requires absent { member_under key self.old.members ≡ None }
        requires width { length cells.now ≡ self.old.width }
        ensures members { OnOk result (groups_of self.new ≡ record (groups_of self.old) { members = with_member (member_of key cells.now at) self.old.members }) }
        ensures refused { OnErr result (groups_of self.new ≡ groups_of self.old) }
        ensures number { IfOk result (λ number. IsNumberOf number cells.now self.new.names) }
        ensures names { IsPart self.old self.new }
    {
        self.add_near(key, cells, at, usize::MAX)
    }

    /// Puts a row in as `add` does. Where its group has the number `near`, no hash is taken.
    pub fn add_near(
        &mut self,
        key: u64,
        cells: &[i64],
        at: i64,
        near: usize,
    ) -> Result<usize, AllocError>
        requires small { key < 2 ^ 62 }
        requires absent { member_under key self.old.members ≡ None }
        requires width { length cells.now ≡ self.old.width }
        ensures members { OnOk result (groups_of self.new ≡ record (groups_of self.old) { members = with_member (member_of key cells.now at) self.old.members }) }
        ensures refused { OnErr result (groups_of self.new ≡ groups_of self.old) }
        ensures number { IfOk result (λ number. IsNumberOf number cells.now self.new.names) }
        ensures names { IsPart self.old self.new }
    {
        self.index.add(key, cells, at, near)
    }

    /// Takes out the rows under these keys; it is no matter whether all of them have one. It takes no memory.
    pub fn remove(&mut self, keys: &RowSet)
        ensures members { groups_of self.new ≡ record (groups_of self.old) { members = left_members keys.now self.old.members } }
        ensures names { IsPart self.new self.old }
    {
        self.index.remove(keys);
    }

    /// Moves the rows to the keys to which the shift leads them, where they rise again. The cost is that of the blocks of
    /// neighbouring rows that move, and nothing for a group. After a refusal, which comes where memory runs out, the rows are as
    /// they were.
    pub fn shift(&mut self, shifts: &ShiftData) -> Result<(), AllocError>
        requires { shift_fault (2 ^ 62) shifts.now (keys_of self.old.members) ≡ None }
        ensures members { OnOk result (groups_of self.new ≡ record (groups_of self.old) { members = moved_members shifts.now self.old.members }) }
        ensures refused { OnErr result (groups_of self.new ≡ groups_of self.old) }
        ensures names { self.new.names ≡ self.old.names }
    {
        self.index.shift(shifts)
    }

    /// The number of the group of the row under a key. It takes no hash.
    pub fn number_of(&self, key: u64) -> usize
        requires { IsSome (member_under key self.now.members) }
        ensures { (cells : List ℤ) → option_map (λ member. member.cells) (member_under key self.now.members) ≡ Some cells → IsNumberOf result cells self.now.names }
    {
        let handle = self.index.handles.handle_of(key).unwrap();
        self.index.table.get(handle).number
    }

    /// The number of the group with these cells, or None where no row has them.
    pub fn find(&self, cells: &[i64]) -> Option<usize>
        ensures found { IfSome result (λ number. IsNumberOf number cells.now self.now.names) }
        ensures unnamed { result ≡ None → (number : ℕ) → name_at number self.now.names ≢ Some cells.now }
        ensures empty { result ≡ None → group_of cells.now self.now.members ≡ [] }
    {
        self.index.lists.numbers.get(cells)
    }

    /// The rows of the group with a number, or None where no group has it.
    pub fn group_at(&self, number: usize) -> Option<Group<'_>>
        ensures group { result ≡ option_map (λ cells. group_of cells self.now.members) (name_at number self.now.names) }
        ensures members { AreGrouped (groups_of self.now) }
    {
        let group = self.index.lists.groups.get(number)?;
        Some(Group::new(
            &self.index.handles,
            &self.index.table,
            &group.cells,
            &group.rows,
        ))
    }

    /// Whether each row is known to be the only one of its group: none has come to a group that was there.
    pub fn are_alone(&self) -> bool
        ensures { result ≡ true → (cells : List ℤ) → length (group_of cells self.now.members) ≤ 1 }
    {
        !self.index.lists.crowded
    }

    /// The rows with these cells.
    pub fn group<'a>(&'a self, cells: &'a [i64]) -> Group<'a>
        ensures group { result ≡ group_of cells.now self.now.members }
        ensures members { AreGrouped (groups_of self.now) }
    {
        Group::new(
            &self.index.handles,
            &self.index.table,
            cells,
            self.index.lists.rows_with(cells),
        )
    }

    /// The rows with the cells of the row under a key, or None where there is none. It takes no hash.
    pub fn group_of(&self, key: u64) -> Option<Group<'_>>
        ensures group { result ≡ option_map (λ member. group_of member.cells self.now.members) (member_under key self.now.members) }
        ensures members { AreGrouped (groups_of self.now) }
    {
        let handle = self.index.handles.handle_of(key)?;
        self.group_at(self.index.table.get(handle).number)
    }

    /// The key cells of the row under a key, or None where there is none.
    pub fn cells_of(&self, key: u64) -> Option<&[i64]>
        ensures cells { option_map (λ cells. cells.now) result ≡ option_map (λ member. member.cells) (member_under key self.now.members) }
        ensures members { AreGrouped (groups_of self.now) }
    {
        let handle = self.index.handles.handle_of(key)?;
        let kept = self.index.table.get(handle);
        Some(self.index.lists.cells_of(kept.number))
    }

    /// The `at` of the row under a key, or None where there is none.
    pub fn at_of(&self, key: u64) -> Option<i64>
        ensures at { result ≡ option_map (λ member. member.at) (member_under key self.now.members) }
        ensures members { AreGrouped (groups_of self.now) }
    {
        let handle = self.index.handles.handle_of(key)?;
        Some(self.index.table.get(handle).at)
    }

    /// Whether there is no group.
    pub fn is_empty(&self) -> bool
        ensures unnamed { IsTrue result ↔ ((number : ℕ) → name_at number self.now.names ≡ None) }
        ensures empty { IsTrue result → (cells : List ℤ) → group_of cells self.now.members ≡ [] }
    {
        self.index.lists.groups.is_empty()
    }

    /// The numbers of the groups of the rows under these keys, in their order. It takes no hash.
    pub fn numbers_of(&self, alloc: Global, keys: &RowSet) -> Result<Vec<usize>, AllocError>
        requires { AllByRecursion (λ key. IsSome (member_under key self.now.members)) keys.now }
        ensures { IfOk result (λ numbers. AllZip (IsNumberUnder self.now) keys.now numbers.items) }
    {
        let mut numbers = Vec::with_capacity(alloc, keys.len() as usize)?;
        let mut near = 0;
        for key in keys {
            numbers.push(self.next_number(key, &mut near))?;
        }
        Ok(numbers)
    }

    /// The number of the group of the row under a key that rises from call to call, by which the row is found near the last one.
    fn next_number(&self, key: u64, near: &mut usize) -> usize
        requires { IsSome (member_under key self.now.members) }
        ensures { IsNumberUnder self.now key result }
    {
        let handle = self.index.handles.handle_near(key, near).unwrap();
        self.index.table.get(handle).number
    }

    /// Takes out the rows under these keys, whose groups have these numbers and whose `at` is this. It takes no memory, and
    /// looks for none of the rows.
    pub fn remove_numbered(&mut self, keys: &RowSet, numbers: &[usize], at: i64)
        requires numbers { AllZip (IsNumberUnder self.old) keys.now numbers.now }
        requires at { AllByRecursion (λ key. option_map (λ member. member.at) (member_under key self.old.members) ≡ Some at) keys.now }
        ensures members { groups_of self.new ≡ record (groups_of self.old) { members = left_members keys.now self.old.members } }
        ensures names { IsPart self.new self.old }
    {
        self.index.remove_numbered(keys, numbers, at);
    }

    /// Puts a row, whose group has this number and whose `at` is this, into the group of other cells. It keeps its handle. Where
    /// its group now has the number `near`, no hash is taken. Returns the number of its group now. After a refusal, which comes
    /// where memory runs out, the row is taken out.
    pub fn regroup(
        &mut self,
        key: u64,
        number: usize,
        cells: &[i64],
        at: i64,
        near: usize,
    ) -> Result<usize, AllocError>
        requires there { IsSome (member_under key self.old.members) }
        requires number { IsNumberUnder self.old key number }
        requires at { option_map (λ member. member.at) (member_under key self.old.members) ≡ Some at }
        requires width { length cells.now ≡ self.old.width }
        ensures regrouped { OnOk result (IsRegrouped (member_of key cells.now at) self.old self.new) }
        ensures refused { OnErr result (groups_of self.new ≡ record (groups_of self.old) { members = left_members (key ∷ []) self.old.members }) }
        ensures number { IfOk result (λ number. IsNumberOf number cells.now self.new.names) }
    {
        self.index.regroup(key, number, cells, at, near)
    }
}
