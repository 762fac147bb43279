//! What is kept of each row, by its handle.
ghost use Rattle.std.specs.Prelude.{◌≡◌, ◌≢◌, ℕ, ◌<◌, ◌≤◌, length, slice_index_or, OnOk};

use row_handles::Handle;
use std::alloc::{AllocError, Global};

/// What is kept of a row: the number of its group, and its `at`.
#[derive(Clone, Copy)]
pub(crate) struct GroupMember {
    pub(crate) number: usize,
    pub(crate) at: i64,
}

/// What is kept of each row, by its handle.
#[derive(Drop)]
pub(crate) struct Table {
    pub(crate) numbers: Vec<usize>,
    /// Of a row with a handle behind these it is 0, as of all rows of many a table.
    pub(crate) ats: Vec<i64>,
}

/// Makes a list reach up to `end`, by `none` at each place behind those that it has.
fn pad<T: Copy>(list: &mut Vec<T>, end: usize, none: T) -> Result<(), AllocError>
    ensures padded { OnOk result (end ≤ length list.new.items) }
    ensures grown { length list.old.items ≤ length list.new.items }
    ensures same { (place : ℕ) → slice_index_or list.new.items place none ≡ slice_index_or list.old.items place none }
{
    if list.len() < end {
        list.resize(end, none)?;
    }
    Ok(())
}

impl Table {
    ghost use Rattle.row_groups.specs.Kept.{at_in, HasRoom, kept_in};

    /// A table of no rows.
    pub(crate) fn new(alloc: Global) -> Table {
        Table {
            numbers: Vec::new(alloc),
            ats: Vec::new(alloc),
        }
    }

    /// What is kept of a row.
    pub(crate) fn get(&self, handle: Handle) -> GroupMember
        requires { handle < length self.now.numbers.items }
        ensures { result ≡ kept_in self.now handle }
    {
        GroupMember {
            number: self.numbers[handle],
            at: self.at(handle),
        }
    }

    /// The `at` of a row.
    pub(crate) fn at(&self, handle: Handle) -> i64
        ensures { result ≡ at_in self.now handle }
    {
        self.ats.get(handle).copied().unwrap_or(0)
    }

    /// Makes room for a row with a handle and an `at`. What is kept of the others stays, after a refusal too.
    pub(crate) fn make_room(&mut self, handle: Handle, at: i64) -> Result<(), AllocError>
        ensures room { OnOk result (HasRoom self.new handle at) }
        ensures grown { length self.old.numbers.items ≤ length self.new.numbers.items }
        ensures others { (other : ℕ) → kept_in self.new other ≡ kept_in self.old other }
    {
        let end = handle.checked_add(1).ok_or(AllocError)?;
        pad(&mut self.numbers, end, 0)?;
        if at != 0 {
            pad(&mut self.ats, end, 0)?;
        }
        Ok(())
    }

    /// Keeps what is to be kept of a row, for which there is room.
    pub(crate) fn keep(&mut self, handle: Handle, kept: GroupMember)
        requires { HasRoom self.old handle kept.at }
        ensures own { kept_in self.new handle ≡ kept }
        ensures others { (other : ℕ) → other ≢ handle → kept_in self.new other ≡ kept_in self.old other }
        ensures same { length self.new.numbers.items ≡ length self.old.numbers.items }
    {
        self.numbers[handle] = kept.number;
        if handle < self.ats.len() {
            self.ats[handle] = kept.at;
        }
    }
}
