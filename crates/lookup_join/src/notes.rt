//! Notes of the places that a step touches: which right row was taken at each of them before.

ghost use Rattle.std.specs.Prelude.{◌≡◌, ◌+◌, ◌*◌, ◌<◌, ◌≤◌, ◌++◌, [], ◌∷◌, length, map, flat_map, option_map, slice_get, Some, IfOk, IsSome, IsTrue, OnOk};
ghost use Rattle.std.specs.List.{AllByRecursion};
ghost use Rattle.key_lists.specs.Keys.{is_among};
ghost use Rattle.lookup_join.specs.Keyed.{indexed};
ghost use Rattle.lookup_join.specs.Latest.{AreTimed};
ghost use Rattle.lookup_join.specs.Notes.{fresh_note, is_noted, next_after, note_of, noted_of, noting, spot_under, with_note};
ghost use Rattle.lookup_join.specs.Taken.{modified_pairs, spot_at, told_notes};
ghost use Rattle.row_groups.specs.Members.{groups_of, member_under};
ghost use Rattle.tick_model.specs.Tables.{keys};
ghost use Rattle.tick_table.specs.Exact.{IsExact};

use crate::keyed::{Side, read_key};
use crate::latest::{last_until, latest_key, next_time};
use crate::pick::Pick;
use row_groups::NumberedGroups;
use row_set::RowSet;
use shown_rows::KeyPairs;
use std::alloc::{AllocError, Global};
use std::marker::Model;
use std::sync::ledger::Ledger;
use tick_model::plan::OnPair;
use tick_table::{RowReader, Steps, TickTable, Version};

/// What is noted of a place, and its time.
#[derive(Clone, Copy, PartialEq, Eq)]
pub(crate) struct PriorMatch {
    pub at: i64,
    /// The old key of the right row that was taken, if there was one.
    pub before: Option<u64>,
}

/// The right row that was taken before a step at each noted place. A contract sees the list of the notes.
#[derive(Drop)]
pub(crate) struct PriorMatches {
    /// The key cells and times of the notes, each under its number.
    numbers: NumberedGroups,
    /// The old key of the right row that was taken, if there was one.
    before: Vec<Option<u64>>,
}

impl Model for PriorMatches {
    ghost use Rattle.lookup_join.specs.Notes.{IsNumbered, NoteList, notes_of};

    ghost Value = { NoteList };

    ghost view = { λ notes. record { width = notes.numbers.width; notes = notes_of notes.numbers.members notes.before.items } };

    ghost invariant = { λ notes. IsNumbered notes.numbers.members notes.before.items };
}

impl PriorMatches {
    /// No notes, of groups with so many key cells.
    pub fn new(alloc: Global, width: usize) -> PriorMatches
        ensures { result ≡ record { width = width; notes = [] } }
    {
        PriorMatches {
            numbers: NumberedGroups::new(alloc, width),
            before: Vec::new(alloc),
        }
    }

    /// How many there are.
    pub fn len(&self) -> usize
        ensures { result ≡ length self.now.notes }
    {
        self.before.len()
    }

    /// The latest note of a group at a time.
    pub fn of(&self, cells: &[i64], at: i64) -> Option<PriorMatch>
        ensures { result ≡ option_map noted_of (note_of cells.now at self.now.notes) }
    {
        let found = last_until(&self.numbers, cells, at)?;
        Some(PriorMatch {
            at: found.at,
            before: self.before[found.key as usize],
        })
    }

    /// Whether there is a note of this very place.
    fn has(&self, cells: &[i64], at: i64) -> bool
        ensures { result ≡ is_noted (note_of cells.now at self.now.notes) at }
    {
        match self.of(cells, at) {
            Some(noted) => noted.at == at,
            None => false,
        }
    }

    /// The first time after this one of a note of a group.
    pub fn next_time(&self, cells: &[i64], at: i64) -> Option<i64>
        ensures { result ≡ next_after cells.now at self.now.notes }
    {
        next_time(&self.numbers, cells, at)
    }

    /// The key cells of a note.
    pub fn cells_at(&self, number: usize) -> &[i64]
        requires { number < length self.now.notes }
        ensures { slice_get (map (λ note. note.cells) self.now.notes) number ≡ Some result.now }
    {
        self.numbers.cells_of(number as u64).unwrap()
    }

    /// The time of a note.
    pub fn at_of(&self, number: usize) -> i64
        requires { number < length self.now.notes }
        ensures { slice_get (map (λ note. note.at) self.now.notes) number ≡ Some result }
    {
        self.numbers.at_of(number as u64).unwrap()
    }

    /// What is noted there.
    pub fn before_at(&self, number: usize) -> Option<u64>
        requires { number < length self.now.notes }
        ensures { slice_get (map (λ note. note.before) self.now.notes) number ≡ Some result }
    {
        self.before[number]
    }

    /// Puts a note of a place behind the others.
    fn put(&mut self, cells: &[i64], at: i64, before: Option<u64>) -> Result<(), AllocError>
        requires { length cells.now ≡ self.old.width }
        ensures { OnOk result (self.new ≡ record self.old { notes = self.old.notes ++ (record { cells = cells.now; at = at; before = before }) ∷ [] }) }
    {
        let number = self.before.len();
        self.before.push(before)?;
        if let Err(refusal) = self.numbers.add(number as u64, cells, at) {
            self.before.truncate(number);
            return Err(refusal);
        }
        Ok(())
    }

    /// Notes a place by the right rows that there are, if it is not noted yet.
    fn note(
        &mut self,
        pick: Pick,
        right: &NumberedGroups,
        cells: &[i64],
        at: i64,
    ) -> Result<(), AllocError>
        requires width { length cells.now ≡ self.old.width }
        requires timed { AreTimed pick right.now.members }
        ensures { OnOk result (self.new ≡ record self.old { notes = with_note (fresh_note pick right.now.members (record { cells = cells.now; at = at })) self.old.notes }) }
    {
        if !self.has(cells, at) {
            self.put(cells, at, latest_key(pick, right, cells, at))?;
        }
        Ok(())
    }

    /// Notes the place at which a right row stood before the step.
    fn note_old(&mut self, pick: Pick, right: &NumberedGroups, key: u64) -> Result<(), AllocError>
        requires here { IsSome (member_under key right.now.members) }
        requires width { self.old.width ≡ right.now.width }
        requires timed { AreTimed pick right.now.members }
        ensures { OnOk result (self.new ≡ record self.old { notes = with_note (fresh_note pick right.now.members (spot_under key right.now.members)) self.old.notes }) }
    {
        let cells = right.cells_of(key).unwrap();
        let at = right.at_of(key).unwrap();
        self.note(pick, right, cells, at)
    }
}

/// Notes the places that rows leave.
fn note_removed(
    pick: Pick,
    index: &NumberedGroups,
    removed: &RowSet,
    notes: &mut PriorMatches,
) -> Result<(), AllocError>
    requires here { AllByRecursion (λ key. IsSome (member_under key index.now.members)) removed.now }
    requires width { notes.old.width ≡ index.now.width }
    requires timed { AreTimed pick index.now.members }
    ensures { OnOk result (notes.new ≡ record notes.old { notes = noting pick index.now.members notes.old.notes (map (λ key. spot_under key index.now.members) removed.now) }) }
{
    for key in removed {
        notes.note_old(pick, index, key)?;
    }
    Ok(())
}

/// Notes the places at which modified rows were and are.
fn note_modified<L: Ledger>(
    on: &[OnPair],
    pick: Pick,
    index: &NumberedGroups,
    right: &TickTable,
    modified: &KeyPairs,
    notes: &mut PriorMatches,
    buffer: &mut Vec<i64>,
    reads: &mut Steps<L>,
) -> Result<(), AllocError>
    requires index { groups_of index.now ≡ indexed Side.Right on.now pick right.now.old.rows }
    requires before { AllByRecursion (λ pair. IsTrue (is_among pair.old (keys right.now.old.rows))) modified.now }
    requires now { AllByRecursion (λ pair. IsTrue (is_among pair.new (keys right.now.new.rows))) modified.now }
    requires width { notes.old.width ≡ length on.now }
    ensures notes { OnOk result (notes.new ≡ record notes.old {
      notes = noting pick index.now.members notes.old.notes
          (flat_map (λ pair. spot_at on.now pick right.now.old.rows pair.old ∷ spot_at on.now pick right.now.new.rows pair.new ∷ []) modified.now);
    }) }
    ensures reads { reads.new ≤ reads.old + right.now.new.width * length modified.now }
{
    let mut rows = RowReader::of(right, Version::Now);
    for pair in modified {
        notes.note_old(pick, index, pair.old)?;
        let row = rows.row(pair.new, reads);
        let time = read_key(Side::Right, on, pick, row, buffer)?;
        notes.note(pick, index, buffer, time)?;
    }
    Ok(())
}

/// Notes the places to which rows come.
fn note_added<L: Ledger>(
    on: &[OnPair],
    pick: Pick,
    index: &NumberedGroups,
    right: &TickTable,
    notes: &mut PriorMatches,
    buffer: &mut Vec<i64>,
    reads: &mut Steps<L>,
) -> Result<(), AllocError>
    requires exact { IsExact right.now }
    requires width { notes.old.width ≡ length on.now }
    requires timed { AreTimed pick index.now.members }
    ensures notes { OnOk result (notes.new ≡ record notes.old { notes = noting pick index.now.members notes.old.notes (map (spot_at on.now pick right.now.new.rows) right.now.update.added) }) }
    ensures reads { reads.new ≤ reads.old + right.now.new.width * length right.now.update.added }
{
    let mut rows = RowReader::of(right, Version::Now);
    for key in right.update().added() {
        let row = rows.row(key, reads);
        let time = read_key(Side::Right, on, pick, row, buffer)?;
        notes.note(pick, index, buffer, time)?;
    }
    Ok(())
}

/// Notes each place that a step of the right input touches, where the index has the rows before it. Where there was no left row
/// before the step, nothing is noted: notes are for those alone.
pub(crate) fn touched_places<L: Ledger>(
    alloc: Global,
    on: &[OnPair],
    pick: Pick,
    index: &NumberedGroups,
    left: &TickTable,
    right: &TickTable,
    modified: &KeyPairs,
    buffer: &mut Vec<i64>,
    reads: &mut Steps<L>,
) -> Result<PriorMatches, AllocError>
    requires index { groups_of index.now ≡ indexed Side.Right on.now pick right.now.old.rows }
    requires exact { IsExact right.now }
    requires modified { modified.now ≡ modified_pairs right.now }
    ensures notes { IfOk result (λ notes. notes ≡ record { width = length on.now; notes = told_notes on.now pick left.now right.now }) }
    ensures reads { reads.new ≤ reads.old + right.now.new.width * (length modified.now + length right.now.update.added) }
{
    let mut notes = PriorMatches::new(alloc, on.len());
    if left.prev_rows().is_empty() {
        return Ok(notes);
    }
    note_removed(pick, index, right.update().removed(), &mut notes)?;
    note_modified(on, pick, index, right, modified, &mut notes, buffer, reads)?;
    note_added(on, pick, index, right, &mut notes, buffer, reads)?;
    Ok(notes)
}
