//! The groups that a step touches, by their numbers.

ghost use Rattle.std.specs.Prelude.{◌≡◌, Bool, ℕ, ◌+◌, ◌*◌, ◌≤◌, ◌||◌, ◌∷◌, [], None, OnOk, length};
ghost use Rattle.std.specs.List.{list_any};
ghost use Rattle.agg_by.specs.Kept.{indexed};
ghost use Rattle.agg_by.specs.Steps.{touched_cells};
ghost use Rattle.agg_by.specs.Touched.{AreLeaving, HaveNoted, with_number};
ghost use Rattle.row_groups.specs.Members.{groups_of};
ghost use Rattle.tick_model.specs.Agg.{key_cells as cells_by};
ghost use Rattle.tick_table.specs.Exact.{IsExact};

use crate::kept::AggIndex;
use crate::moving::Leaving;
use std::alloc::{AllocError, Global};
use std::marker::Model;
use std::sync::ledger::Ledger;
use tick_table::{Steps, TickTable};

/// The numbers of groups, each once. A contract sees the list of them.
#[derive(Drop)]
pub(crate) struct TouchedGroups {
    numbers: Vec<usize>,
    /// Which numbers are in the list.
    marks: Vec<bool>,
    /// For each added row, and then for each modified one where key cells differ, the number of the group that had its key cells
    /// before the step, or that of no group.
    near: Vec<usize>,
}

impl Model for TouchedGroups {
    ghost use Rattle.std.specs.Prelude.{ℕ, List};
    ghost use Rattle.agg_by.specs.Touched.{AreMarks};

    ghost Value = { List ℕ };

    ghost view = { λ touched. touched.numbers.items };

    ghost invariant = { λ touched. AreMarks touched.numbers.items touched.marks.items };
}

impl TouchedGroups {
    /// No groups. It takes no memory.
    pub fn new(alloc: Global) -> TouchedGroups
        ensures { result ≡ [] }
    {
        TouchedGroups {
            numbers: Vec::new(alloc),
            marks: Vec::new(alloc),
            near: Vec::new(alloc),
        }
    }

    /// The numbers.
    pub fn numbers(&self) -> &[usize]
        ensures { result.now ≡ self.now }
    {
        &self.numbers
    }

    /// Forgets all groups. The cost is that of those that are noted.
    fn clear(&mut self)
        ensures { self.new ≡ [] }
    {
        for number in &self.numbers {
            self.marks[*number] = false;
        }
        self.numbers.clear();
        self.near.clear();
    }

    /// The number that the group of a row is likely to have, by the place of the row among the added ones and then the modified ones.
    pub fn near(&self, place: usize) -> usize {
        self.near.get(place).copied().unwrap_or(usize::MAX)
    }

    /// Notes a group.
    pub fn note(&mut self, number: usize) -> Result<(), AllocError>
        ensures { OnOk result (self.new ≡ with_number number self.old) }
    {
        while self.marks.len() <= number {
            self.marks.push(false)?;
        }
        if !self.marks[number] {
            self.numbers.push(number)?;
            self.marks[number] = true;
        }
        Ok(())
    }

    /// Notes the groups that a step touches, as they are before it, and forgets others.
    pub fn note_before<L: Ledger>(
        &mut self,
        kept: &AggIndex,
        input: &TickTable,
        leaving: &Leaving,
        key_cells: &mut Vec<i64>,
        reads: &mut Steps<L>,
    ) -> Result<(), AllocError>
        requires exact { IsExact input.now }
        requires rows { groups_of kept.now.rows ≡ indexed kept.now.by None input.now.old.rows }
        requires leaving { AreLeaving leaving.now kept.now.by kept.now.rows input.now }
        ensures noted { OnOk result (HaveNoted kept.now.rows [] self.new (touched_cells kept.now.by input.now)) }
        ensures reads { reads.new ≤ reads.old + input.now.new.width * (length input.now.update.added + length input.now.update.modified) }
    {
        self.clear();
        self.note_all(leaving.removed.as_slice())?;
        self.note_all(leaving.modified.as_slice())?;
        if kept.rows.is_empty() {
            return Ok(());
        }
        for place in 0..input.update().added().len() {
            self.note_coming(kept, input.added_row(place, reads), key_cells)?;
        }
        if leaving.stay {
            return Ok(());
        }
        for other in 0..input.update().modified().len() {
            self.note_coming(kept, input.modified_row(other, reads), key_cells)?;
        }
        Ok(())
    }

    /// Notes these groups.
    fn note_all(&mut self, numbers: &[usize]) -> Result<(), AllocError>
        ensures { OnOk result ((test : ℕ → Bool) → list_any test self.new ≡ (list_any test self.old || list_any test numbers.now)) }
    {
        for number in numbers {
            self.note(*number)?;
        }
        Ok(())
    }

    /// Notes the group, as it is kept, that has the key cells of a row, if there is one.
    fn note_coming(
        &mut self,
        kept: &AggIndex,
        row: &[i64],
        key_cells: &mut Vec<i64>,
    ) -> Result<(), AllocError>
        ensures { OnOk result (HaveNoted kept.now.rows self.old self.new (cells_by kept.now.by row.now ∷ [])) }
    {
        kept.read_key_cells(row, key_cells)?;
        let found = kept.rows.find(key_cells.as_slice());
        self.near.push(found.unwrap_or(usize::MAX))?;
        match found {
            Some(number) => self.note(number),
            None => Ok(()),
        }
    }
}
