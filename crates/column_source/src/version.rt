//! The cells of a column at one time.
ghost use Rattle.std.specs.Prelude.{◌≡◌, ◌^◌, ◌<◌, [], IfOk, OnOk, OnErr};
ghost use Rattle.chunk_list.specs.Chunked.{joined};
ghost use Rattle.shift_data.specs.Moves.{IsLawful};
ghost use Rattle.column_source.specs.Edits.{IsAllowed, edited};
ghost use Rattle.column_source.specs.Entries.{IsEntryList, cell_under, keys_of, left_entries, moved_entries, put};

use crate::edit::Edit;
use chunk_list::ChunkList;
use row_set::RowSet;
use shift_data::ShiftData;
use std::alloc::{AllocError, Global};
use std::marker::Model;

/// The cells by row key at one time. A contract sees the entries, rising by key. A row is put in or taken out at the cost of one
/// chunk of cells and of the ranges of keys, and a shift moves keys alone.
#[derive(Drop)]
pub(crate) struct KeyedCells {
    keys: RowSet,
    /// The cells in the order of their keys.
    cells: ChunkList<i64>,
}

impl Model for KeyedCells {
    ghost use Rattle.std.specs.Prelude.{◌≡◌, List, length};
    ghost use Rattle.chunk_list.specs.Chunked.{joined};
    ghost use Rattle.column_source.specs.Entries.{Entry, paired};

    ghost Value = { List Entry };

    ghost view = { λ version. paired version.keys (joined version.cells) };

    ghost invariant = { λ version. length (joined version.cells) ≡ length version.keys };
}

impl KeyedCells {
    /// No cells. They take no memory.
    pub(crate) fn new(alloc: Global) -> KeyedCells
        ensures { result ≡ [] }
    {
        KeyedCells {
            keys: RowSet::new(alloc),
            cells: ChunkList::new(alloc),
        }
    }

    /// The same cells.
    pub(crate) fn copy(&self) -> Result<KeyedCells, AllocError>
        ensures { IfOk result (λ copy. copy ≡ self.now) }
    {
        Ok(KeyedCells {
            keys: self.keys.copy()?,
            cells: self.cells.copy()?,
        })
    }

    /// The cell under a key, if there is one.
    pub(crate) fn get(&self, key: u64) -> Option<i64>
        ensures cell { result ≡ cell_under key self.now }
        ensures keys { IsEntryList self.now }
    {
        match self.keys.find(key) {
            Ok(position) => self.cells.get(position as usize).copied(),
            Err(_) => None,
        }
    }

    /// Makes an edit. After a refusal all cells are as they were.
    pub(crate) fn make(&mut self, edit: &Edit) -> Result<(), AllocError>
        requires { IsAllowed edit.now self.old }
        ensures ok { OnOk result (self.new ≡ edited edit.now self.old) }
        ensures err { OnErr result (self.new ≡ self.old) }
    {
        match edit {
            Edit::Set { key, cell } => self.set(*key, *cell),
            Edit::DropKeys(keys) => self.drop_keys(keys),
            Edit::Shift(shifts) => self.shift(shifts),
        }
    }

    /// Puts a cell under a key.
    fn set(&mut self, key: u64, cell: i64) -> Result<(), AllocError>
        requires { key < 2 ^ 62 }
        ensures ok { OnOk result (self.new ≡ put key cell self.old) }
        ensures err { OnErr result (self.new ≡ self.old) }
    {
        match self.keys.find(key) {
            Ok(position) => {
                let position = position as usize;
                self.cells.insert(position, cell)?;
                self.cells.remove(position + 1);
            }
            Err(position) => {
                let position = position as usize;
                self.cells.insert(position, cell)?;
                if let Err(refused) = self.keys.insert_range(key, key) {
                    self.cells.remove(position);
                    return Err(refused);
                }
            }
        }
        Ok(())
    }

    /// Takes the rows under these keys out.
    fn drop_keys(&mut self, keys: &RowSet) -> Result<(), AllocError>
        ensures ok { OnOk result (self.new ≡ left_entries keys.now self.old) }
        ensures err { OnErr result (self.new ≡ self.old) }
    {
        let _ = self.keys.ranges();
        let gone = self.keys.intersect(keys)?;
        self.keys.remove_all(&gone)?;
        for key in &gone {
            // The rows before it that go have gone.
            self.cells.remove(self.keys.count_below(key) as usize);
        }
        Ok(())
    }

    /// Moves the rows.
    fn shift(&mut self, shifts: &ShiftData) -> Result<(), AllocError>
        requires { IsLawful shifts.now (keys_of self.old) }
        ensures ok { OnOk result (self.new ≡ moved_entries shifts.now self.old) }
        ensures err { OnErr result (self.new ≡ self.old) }
    {
        self.keys = shifts.apply(&self.keys)?;
        Ok(())
    }
}
