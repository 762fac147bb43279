//! Rows that leave groups whose numbers are known, or go from one to another.
ghost use Rattle.std.specs.Prelude.{◌≡◌, ◌∷◌, [], ℕ, List, ℤ, Some, IfOk, OnErr, OnOk, length, option_map};
ghost use Rattle.std.specs.List.{AllByRecursion, AllZip};
ghost use Rattle.row_groups.specs.Indexes.{IsIndex, grouped_of, numbered_of};
ghost use Rattle.row_groups.specs.Members.{IsNumberUnder, IsRegrouped, left_members, member_of, member_under};
ghost use Rattle.row_groups.specs.Rows.{cells_with};

use crate::index::GroupIndex;
use crate::place::SearchKey;
use row_set::RowSet;
use std::alloc::AllocError;

impl GroupIndex {
    /// Takes out the rows under these keys, whose groups have these numbers and whose `at` is this.
    pub(crate) fn remove_numbered(&mut self, keys: &RowSet, numbers: &[usize], at: i64)
        requires sound { IsIndex self.old }
        requires numbers { AllZip (IsNumberUnder (numbered_of self.old)) keys.now numbers.now }
        requires at { AllByRecursion (λ key. option_map (λ member. member.at) (member_under key (grouped_of self.old).members) ≡ Some at) keys.now }
        ensures sound { IsIndex self.new }
        ensures members { grouped_of self.new ≡ record (grouped_of self.old) { members = left_members keys.now (grouped_of self.old).members } }
        ensures fewer { (other : ℕ) (cells : List ℤ) → cells_with other self.new.lists.groups ≡ Some cells → cells_with other self.old.lists.groups ≡ Some cells }
    {
        let mut position = 0;
        for key in keys {
            let place = SearchKey {
                handles: &self.handles,
                table: &self.table,
                at,
                key,
            };
            self.lists.take(numbers[position], &place);
            position += 1;
        }
        self.handles.remove(keys);
    }

    /// Puts a row, whose group has this number and whose `at` is this, into the group of other cells, which may have the number
    /// `near`. Returns the number of this group. After a refusal the row is taken out.
    pub(crate) fn regroup(
        &mut self,
        key: u64,
        number: usize,
        cells: &[i64],
        at: i64,
        near: usize,
    ) -> Result<usize, AllocError>
        requires sound { IsIndex self.old }
        requires number { IsNumberUnder (numbered_of self.old) key number }
        requires at { option_map (λ member. member.at) (member_under key (grouped_of self.old).members) ≡ Some at }
        requires width { length cells.now ≡ self.old.width }
        ensures sound { IsIndex self.new }
        ensures regrouped { OnOk result (IsRegrouped (member_of key cells.now at) (numbered_of self.old) (numbered_of self.new)) }
        ensures refused { OnErr result (grouped_of self.new ≡ record (grouped_of self.old) { members = left_members (key ∷ []) (grouped_of self.old).members }) }
        ensures number { IfOk result (λ number. cells_with number self.new.lists.groups ≡ Some cells.now) }
    {
        let place = SearchKey {
            handles: &self.handles,
            table: &self.table,
            at,
            key,
        };
        let handle = self.lists.take(number, &place).unwrap();
        match self.enter(handle, key, cells, at, near) {
            Ok(number) => Ok(number),
            Err(refusal) => {
                self.handles.remove_one(key);
                Err(refusal)
            }
        }
    }
}
