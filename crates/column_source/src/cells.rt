//! The column itself.
ghost use Rattle.std.specs.Prelude.{◌≡◌, ◌<◌, ◌^◌, IsSome, None, Some, [], IfOk, OnOk, OnErr, true, false, if◌then◌else◌};
ghost use Rattle.tick_model.specs.Rules.{shift_fault};
ghost use Rattle.column_source.specs.Edits.{AreAllowed, IsAllowed, edited, edited_by};
ghost use Rattle.column_source.specs.Entries.{IsEntryList, cell_under, keys_of, left_entries, moved_entries, put};

use crate::edit::Edit;
use crate::version::KeyedCells;
use row_set::RowSet;
use shift_data::ShiftData;
use std::alloc::{AllocError, Global};
use std::collections::VecDeque;
use std::marker::Model;

/// The cells of one column by row key: those of now, and those from before the step. A step costs as much as its edits, each of
/// which is made twice: in the cells of now, and in the next step in those from before.
pub struct Column {
    current: KeyedCells,
    /// The cells from before the step. Until the step has its first edit they may lack edits of the last one.
    previous: KeyedCells,
    /// The edits that lead from the previous cells to the current ones.
    edits: VecDeque<Edit>,
    /// Whether a step has begun that has no edit yet.
    begun: bool,
}

impl Drop for Column {
    fn drop(self) {
        let Self {
            current: _,
            previous: _,
            edits: _,
            begun: _,
        } = self;
    }
}

impl Model for Column {
    ghost use Rattle.std.specs.Prelude.{if◌then◌else◌};
    ghost use Rattle.column_source.specs.Edits.{LeadTo};
    ghost use Rattle.column_source.specs.Entries.{Cells};

    ghost Value = { Cells };

    ghost view = { λ c. record { now = c.current; before = if c.begun then c.current else c.previous } };

    ghost invariant = { λ c. LeadTo c.current c.edits.items c.previous };
}

impl Column {
    /// A column with no cells.
    pub fn new(alloc: Global) -> Column
        ensures now { result.now ≡ [] }
        ensures before { result.before ≡ [] }
    {
        Column {
            current: KeyedCells::new(alloc),
            previous: KeyedCells::new(alloc),
            edits: VecDeque::new(alloc),
            begun: false,
        }
    }

    /// An equal column: the same cells, now and before the step.
    pub fn copy(&self) -> Result<Column, AllocError>
        ensures { IfOk result (λ copy. copy ≡ self.now) }
    {
        let alloc = *self.edits.allocator();
        Ok(Column {
            current: self.current.copy()?,
            previous: self.previous.copy()?,
            edits: copy_edits(alloc, &self.edits)?,
            begun: self.begun,
        })
    }

    /// The cell under a key.
    pub fn get(&self, key: u64) -> i64
        requires { IsSome (cell_under key self.now.now) }
        ensures cell { cell_under key self.now.now ≡ Some result }
        ensures keys { IsEntryList self.now.now }
    {
        self.current.get(key).unwrap()
    }

    /// The cell that was under a key when the step began.
    pub fn get_prev(&self, key: u64) -> i64
        requires { IsSome (cell_under key self.now.before) }
        ensures cell { cell_under key self.now.before ≡ Some result }
        ensures keys { IsEntryList self.now.before }
    {
        let previous = if self.begun {
            &self.current
        } else {
            &self.previous
        };
        previous.get(key).unwrap()
    }

    /// Begins a step: the cells as they are become those from before it. It takes no memory and copies no cell.
    pub fn begin_step(&mut self)
        ensures now { self.new.now ≡ self.old.now }
        ensures before { self.new.before ≡ self.old.now }
    {
        self.begun = true;
    }

    /// Puts a cell under a key, in the cells of now. After a refusal all cells are as they were.
    pub fn set(&mut self, key: u64, cell: i64) -> Result<(), AllocError>
        requires { key < 2 ^ 62 }
        ensures now { OnOk result (self.new.now ≡ put key cell self.old.now) }
        ensures before { self.new.before ≡ self.old.before }
        ensures refused { OnErr result (self.new.now ≡ self.old.now) }
    {
        self.edit(Edit::Set { key, cell })
    }

    /// Takes the rows under these keys out of the cells of now; it is no matter whether all of them have one. After a
    /// refusal all cells are as they were.
    pub fn drop_keys(&mut self, keys: &RowSet) -> Result<(), AllocError>
        ensures now { OnOk result (self.new.now ≡ left_entries keys.now self.old.now) }
        ensures before { self.new.before ≡ self.old.before }
        ensures refused { OnErr result (self.new.now ≡ self.old.now) }
    {
        self.edit(Edit::DropKeys(keys.copy()?))
    }

    /// Moves the cells of now to the keys to which the shift leads their rows. After a refusal all cells are as they were.
    pub fn shift(&mut self, shifts: &ShiftData) -> Result<(), AllocError>
        requires { shift_fault (2 ^ 62) shifts.now (keys_of self.old.now) ≡ None }
        ensures now { OnOk result (self.new.now ≡ moved_entries shifts.now self.old.now) }
        ensures before { self.new.before ≡ self.old.before }
        ensures refused { OnErr result (self.new.now ≡ self.old.now) }
    {
        self.edit(Edit::Shift(shifts.copy()?))
    }

    /// Makes an edit in the cells of now. After a refusal all cells are as they were.
    fn edit(&mut self, edit: Edit) -> Result<(), AllocError>
        requires { IsAllowed edit self.old.now }
        ensures now { OnOk result (self.new.now ≡ edited edit self.old.now) }
        ensures before { self.new.before ≡ self.old.before }
        ensures refused { OnErr result (self.new.now ≡ self.old.now) }
    {
        bring_on(&mut self.begun, &mut self.previous, &mut self.edits)?;
        self.edits.reserve(1)?;
        self.current.make(&edit)?;
        let _ = self.edits.push_back(edit);
        Ok(())
    }
}

/// Where a step has begun, brings the previous cells on by the edits of the last one; those that are made leave the queue.
/// After a refusal the step is begun as it was, and the others stay.
fn bring_on(
    begun: &mut bool,
    previous: &mut KeyedCells,
    edits: &mut VecDeque<Edit>,
) -> Result<(), AllocError>
    requires { AreAllowed edits.old.items previous.old }
    ensures led { edited_by edits.new.items previous.new ≡ edited_by edits.old.items previous.old }
    ensures allowed { AreAllowed edits.new.items previous.new }
    ensures brought { OnOk result (previous.new ≡ (if begun.old then edited_by edits.old.items previous.old else previous.old)) }
    ensures settled { OnOk result (begun.new ≡ false) }
    ensures was_begun { OnErr result (begun.old ≡ true) }
    ensures still_begun { OnErr result (begun.new ≡ true) }
{
    if !*begun {
        return Ok(());
    }
    while let Some(edit) = edits.front() {
        previous.make(edit)?;
        edits.pop_front();
    }
    *begun = false;
    Ok(())
}

/// Equal edits.
fn copy_edits(alloc: Global, edits: &VecDeque<Edit>) -> Result<VecDeque<Edit>, AllocError>
    ensures { IfOk result (λ copies. copies.items ≡ edits.now.items) }
{
    let mut copies = VecDeque::new(alloc);
    while let Some(edit) = edits.get(copies.len()) {
        copies.push_back(edit.copy()?)?;
    }
    Ok(copies)
}
