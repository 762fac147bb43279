//! The handles themselves.
ghost use Rattle.std.specs.Prelude.{◌≡◌, ◌<◌, ◌^◌, ◌∷◌, [], None, Some, IsSome, IfOk, OnOk, OnErr};
ghost use Rattle.tick_model.specs.Rules.{shift_fault};
ghost use Rattle.row_handles.specs.Entries.{AreHandled, handle_under, key_with, keys_of, left_rows, moved_rows, with_row};

use crate::index::HandleIndex;
use row_set::RowSet;
use shift_data::ShiftData;
use std::alloc::{AllocError, Global};
use std::marker::Model;

/// The number of a row, which it has from when it comes until it leaves. Numbers of rows that left are given again, so that
/// all stay below the greatest number of rows that there were at once.
pub type Handle = usize;

/// The rows of a table by their keys, each with a handle. A row keeps its handle while its key moves, so that lists of
/// handles stand where lists of keys would have to be written anew; and the rows of two handles keep their order.
pub struct Handles {
    index: HandleIndex,
}

impl Drop for Handles {
    fn drop(self) {
        let Self { index: _ } = self;
    }
}

impl Model for Handles {
    ghost use Rattle.std.specs.Prelude.{List};
    ghost use Rattle.row_handles.specs.Entries.{Entry};
    ghost use Rattle.row_handles.specs.Blocks.{IsIndex, rows};

    ghost Value = { List Entry };

    ghost view = { λ handles. rows handles.index.blocks.items };

    ghost invariant = { λ handles. IsIndex handles.index };
}

impl Handles {
    /// No rows.
    pub fn new(alloc: Global) -> Handles
        ensures { result ≡ [] }
    {
        Handles {
            index: HandleIndex::new(alloc),
        }
    }

    /// The handle of the row under a key, or None where there is none. It is found by two binary searches.
    pub fn handle_of(&self, key: u64) -> Option<Handle>
        ensures handle { result ≡ handle_under key self.now }
        ensures rows { AreHandled self.now }
    {
        self.index.handle_at(key)
    }

    /// The handle of the row under a key, or None where there is none, for rows that are asked for by rising keys: `near` keeps how
    /// many blocks begin at the last key or before it, and where it is so of this key too, the one binary search is in the block.
    /// From any number, as 0, the handle is right.
    pub fn handle_near(&self, key: u64, near: &mut usize) -> Option<Handle>
        ensures handle { result ≡ handle_under key self.now }
        ensures rows { AreHandled self.now }
    {
        self.index.handle_near(key, near)
    }

    /// The key of the row with a handle: two reads and a subtraction.
    pub fn key_of(&self, handle: Handle) -> u64
        requires { IsSome (key_with handle self.now) }
        ensures key { key_with handle self.now ≡ Some result }
        ensures rows { AreHandled self.now }
    {
        self.index.key_at(handle)
    }

    /// Gives a handle to a row that comes under a key. It is that of no other row, and may be one that a row had which left.
    /// After a refusal, which comes where memory runs out, all is as it was.
    pub fn add(&mut self, key: u64) -> Result<Handle, AllocError>
        requires small { key < 2 ^ 62 }
        requires absent { handle_under key self.old ≡ None }
        ensures rows { IfOk result (λ handle. self.new ≡ with_row key handle self.old) }
        ensures fresh { IfOk result (λ handle. key_with handle self.old ≡ None) }
        ensures refused { OnErr result (self.new ≡ self.old) }
    {
        self.index.add(key)
    }

    /// Takes out the rows under these keys; it is no matter whether all of them have one. The others keep their handles. It
    /// takes no memory.
    pub fn remove(&mut self, keys: &RowSet)
        ensures { self.new ≡ left_rows keys.now self.old }
    {
        self.index.leave_ranges(keys.ranges());
    }

    /// Takes out the row under a key, if there is one. The others keep their handles. It takes no memory.
    pub fn remove_one(&mut self, key: u64)
        requires small { key < 2 ^ 62 }
        ensures { self.new ≡ left_rows (key ∷ []) self.old }
    {
        self.index.leave_rows(key, key);
    }

    /// Moves the rows to the keys to which the shift leads them, where they rise again. Each keeps its handle. The cost is
    /// that of the blocks that move, a few words each; rows are touched where a block is split for a range, or small ones
    /// are joined. After a refusal, which comes where memory runs out, all is as it was.
    pub fn shift(&mut self, shifts: &ShiftData) -> Result<(), AllocError>
        requires { shift_fault (2 ^ 62) shifts.now (keys_of self.old) ≡ None }
        ensures rows { OnOk result (self.new ≡ moved_rows shifts.now self.old) }
        ensures refused { OnErr result (self.new ≡ self.old) }
    {
        self.index.shift(shifts)
    }
}
