//! What is kept of an input's rows, and how a step brings it on.

ghost use Rattle.std.specs.Prelude.{◌≡◌, ◌+◌, ◌*◌, ◌≤◌, ◌++◌, ◌∷◌, ℕ, [], List, None, Some, IfOk, IsSome, IsTrue, OnOk, length, map, option_map, pos};
ghost use Rattle.std.specs.List.{AllByRecursion, AllZip, list_any};
ghost use Rattle.key_lists.specs.Keys.{is_among, without};
ghost use Rattle.row_groups.specs.Members.{IsNumberOf, IsNumberUnder, IsPart, IsRegrouped, groups_of, left_members, member_of, member_under, with_member};
ghost use Rattle.shift_data.specs.Moves.{IsLawful};
ghost use Rattle.table_update.specs.Kept.{old_modified};
ghost use Rattle.tick_model.specs.Agg.{agg_table, key_cells as cells_by};
ghost use Rattle.tick_model.specs.Tables.{IsTable, cells_at, keys};
ghost use Rattle.tick_model.specs.Updates.{removing, shifting};
ghost use Rattle.tick_model.specs.declared.table.PlainRow.{PlainRow};
ghost use Rattle.tick_table.specs.Exact.{IsExact, counted};
ghost use Rattle.agg_by.specs.Answers.{IsWithin};
ghost use Rattle.agg_by.specs.Steps.{first_keys, keeps_groups, kept_cells, key_at, starts, staying_cells, touched_cells};
ghost use Rattle.agg_by.specs.Touched.{AreLeaving, AreLed, AreNoted, HaveNoted, starts_numbered, with_number};

use crate::firsts::LedGroup;
use crate::moving::Leaving;
use crate::running::{Accumulator, begun, put_all, put_values, take_all};
use crate::touched::TouchedGroups;
use row_groups::NumberedGroups;
use row_set::RowSet;
use std::alloc::{AllocError, Global};
use std::sync::ledger::Ledger;
use tick_model::cells::cell;
use tick_model::items::Items;
use tick_model::plan::Agg;
use tick_table::{Steps, TickTable};

/// The rows of an input by their key cells, and what answers each aggregate.
#[derive(Drop)]
pub struct AggIndex {
    pub(crate) by: Items<u32>,
    pub(crate) aggs: Items<Agg>,
    /// The rows by their key cells, in each group by their keys.
    pub(crate) rows: NumberedGroups,
    /// The aggregates in their order; none before the first step.
    pub(crate) running: Vec<Accumulator>,
}

impl AggIndex {
    ghost use Rattle.agg_by.specs.Kept.{Are, AnswerAll, IsMade, Keeps, indexed};

    /// What is kept of no rows. It takes no memory.
    pub(crate) fn new(alloc: Global, by: Items<u32>, aggs: Items<Agg>) -> AggIndex
        ensures by { result.by ≡ by }
        ensures aggs { result.aggs ≡ aggs }
        ensures rows { result.rows ≡ record { width = length by; members = []; names = [] } }
        ensures running { result.running.items ≡ [] }
    {
        let width = by.len();
        AggIndex {
            by,
            aggs,
            rows: NumberedGroups::new(alloc, width),
            running: Vec::new(alloc),
        }
    }

    /// Begins what answers the aggregates, at the first step.
    pub(crate) fn begin(&mut self, alloc: Global) -> Result<(), AllocError>
        ensures made { OnOk result (IsMade self.old self.new) }
        ensures rows { OnOk result (self.new.rows ≡ self.old.rows) }
        ensures running { OnOk result ((rows : List PlainRow) → Are self.old.by self.old.rows.names self.old.aggs rows self.old.running.items
            → AnswerAll self.old.by self.old.rows.names self.old.aggs rows self.new.running.items) }
    {
        if self.running.is_empty() {
            self.running = begun(alloc, self.aggs.as_slice())?;
        }
        Ok(())
    }

    /// Brings all on by the step that the input shows. `touched` has the groups with the key cells of its rows before, and gets
    /// those that come, so that it has the touched groups of now.
    pub(crate) fn bring_on<L: Ledger>(
        &mut self,
        input: &TickTable,
        leaving: &Leaving,
        touched: &mut TouchedGroups,
        key_cells: &mut Vec<i64>,
        reads: &mut Steps<L>,
    ) -> Result<(), AllocError>
        requires exact { IsExact input.now }
        requires keeps { Keeps self.old input.now.old.rows }
        requires leaving { AreLeaving leaving.now self.old.by self.old.rows input.now }
        requires touched { HaveNoted self.old.rows [] touched.old (touched_cells self.old.by input.now) }
        ensures keeps { OnOk result (Keeps self.new input.now.new.rows) }
        ensures firsts { OnOk result ((first : ℕ) → list_any (starts_numbered self.new.rows first) touched.new ≡ list_any (starts self.new.rows.members first) (touched_cells self.old.by input.now)) }
        ensures made { OnOk result (IsMade self.old self.new) }
        ensures reads { reads.new ≤ reads.old + input.now.new.width * counted input.now.update }
    {
        let numbers = leaving.removed.as_slice();
        self.take_rows(input, numbers, reads)?;
        self.move_rows(input, input.update().removed(), numbers)?;
        self.change_rows(
            input,
            leaving.modified.as_slice(),
            leaving.stay,
            touched,
            key_cells,
            reads,
        )?;
        self.put_rows(input, touched, key_cells, reads)
    }

    /// Takes the removed rows, whose groups have these numbers, out of what answers the aggregates.
    fn take_rows<L: Ledger>(
        &mut self,
        input: &TickTable,
        numbers: &[usize],
        reads: &mut Steps<L>,
    ) -> Result<(), AllocError>
        requires exact { IsExact input.now }
        requires keeps { Keeps self.old input.now.old.rows }
        requires numbers { AllZip (IsNumberUnder self.old.rows) input.now.update.removed numbers.now }
        ensures made { OnOk result (IsMade self.old self.new) }
        ensures rows { OnOk result (self.new.rows ≡ self.old.rows) }
        ensures running { OnOk result (AnswerAll self.old.by self.old.rows.names self.old.aggs (removing input.now.update.removed input.now.old.rows) self.new.running.items) }
        ensures reads { reads.new ≤ reads.old + input.now.old.width * length input.now.update.removed }
    {
        for place in 0..numbers.len() {
            let row = input.removed_row(place as u64, reads);
            take_all(&mut self.running, numbers[place], row)?;
        }
        Ok(())
    }

    /// Takes rows out of the groups, which have these numbers, and moves the others to their keys of now.
    fn move_rows(
        &mut self,
        input: &TickTable,
        gone: &RowSet,
        numbers: &[usize],
    ) -> Result<(), AllocError>
        requires rows { groups_of self.old.rows ≡ indexed self.old.by None input.now.old.rows }
        requires gone { AllByRecursion (λ key. IsSome (member_under key self.old.rows.members)) gone.now }
        requires numbers { AllZip (IsNumberUnder self.old.rows) gone.now numbers.now }
        requires running { AnswerAll self.old.by self.old.rows.names self.old.aggs (removing gone.now input.now.old.rows) self.old.running.items }
        requires lawful { IsLawful input.now.update.shifted (without gone.now (keys input.now.old.rows)) }
        ensures made { OnOk result (IsMade self.old self.new) }
        ensures keeps { OnOk result (Keeps self.new (shifting input.now.update.shifted (removing gone.now input.now.old.rows))) }
        ensures names { OnOk result (IsPart self.new.rows self.old.rows) }
    {
        let shifts = input.update().shifted();
        self.rows.remove_numbered(gone, numbers, 0);
        self.rows.shift(shifts)?;
        Ok(())
    }

    /// Puts the cells of now of the modified rows in place of those from before. The groups that the rows had have these numbers;
    /// those that they have now are noted. All stay in theirs, or some may not.
    fn change_rows<L: Ledger>(
        &mut self,
        input: &TickTable,
        numbers: &[usize],
        stay: bool,
        touched: &mut TouchedGroups,
        key_cells: &mut Vec<i64>,
        reads: &mut Steps<L>,
    ) -> Result<(), AllocError>
        requires exact { IsExact input.now }
        requires keeps { Keeps self.old (shifting input.now.update.shifted (removing input.now.update.removed input.now.old.rows)) }
        requires names { IsPart self.old.rows self.old.rows }
        requires numbers { AllZip (λ key number. IsNumberOf number (key_at self.old.by input.now.old.rows key) self.old.rows.names) (old_modified (keys input.now.old.rows) input.now.update) numbers.now }
        requires noted { AllByRecursion (λ number. IsTrue (is_among number touched.old)) numbers.now }
        requires stay { stay ≡ keeps_groups self.old.by input.now }
        ensures made { OnOk result (IsMade self.old self.new) }
        ensures keeps { OnOk result (Keeps self.new (removing input.now.update.added input.now.new.rows)) }
        ensures names { OnOk result (IsPart self.new.rows self.new.rows) }
        ensures noted { OnOk result (AreNoted self.old.rows.names self.new.rows.names touched.old touched.new (staying_cells self.old.by input.now) (map (key_at self.old.by input.now.new.rows) input.now.update.modified)) }
        ensures reads { reads.new ≤ reads.old + 2 * input.now.new.width * length input.now.update.modified }
    {
        let update = input.update();
        let added = update.added().len() as usize;
        let mut place: usize = 0;
        for key in update.modified() {
            let number = numbers[place];
            let before = input.modified_row_before(place as u64, reads);
            let row = input.modified_row(place as u64, reads);
            take_all(&mut self.running, number, before)?;
            let near = added.wrapping_add(place);
            let number = self.change_group(
                key, number, before, row, stay, near, touched, key_cells,
            )?;
            put_all(&mut self.running, number, row)?;
            place += 1;
        }
        Ok(())
    }

    /// Puts a row that had other cells, and whose group had this number, into the group of its cells of now, and notes this group.
    /// It stays where both are the same, as is known of all rows or not. Gives the number of the group.
    fn change_group(
        &mut self,
        key: u64,
        number: usize,
        before: &[i64],
        row: &[i64],
        stay: bool,
        near: usize,
        touched: &mut TouchedGroups,
        key_cells: &mut Vec<i64>,
    ) -> Result<usize, AllocError>
        requires width { self.old.rows.width ≡ length self.old.by }
        requires names { IsPart self.old.rows self.old.rows }
        requires known { option_map (λ member. member.cells) (member_under key self.old.rows.members) ≡ Some (cells_by self.old.by before.now) }
        requires at { option_map (λ member. member.at) (member_under key self.old.rows.members) ≡ Some (pos 0) }
        requires back { with_member (member_of key (cells_by self.old.by before.now) (pos 0)) (left_members (key ∷ []) self.old.rows.members) ≡ self.old.rows.members }
        requires number { IsNumberOf number (cells_by self.old.by before.now) self.old.rows.names }
        requires noted { IsTrue (is_among number touched.old) }
        requires stay { IsTrue stay → cells_by self.old.by before.now ≡ cells_by self.old.by row.now }
        ensures made { OnOk result (IsMade self.old self.new) }
        ensures running { OnOk result (self.new.running ≡ self.old.running) }
        ensures regrouped { OnOk result (IsRegrouped (member_of key (cells_by self.old.by row.now) (pos 0)) self.old.rows self.new.rows) }
        ensures number { IfOk result (λ number. IsNumberOf number (cells_by self.old.by row.now) self.new.rows.names) }
        ensures touched { IfOk result (λ number. touched.new ≡ with_number number touched.old) }
    {
        if stay || self.has_same_cells(before, row) {
            return Ok(number);
        }
        self.read_key_cells(row, key_cells)?;
        let near = touched.near(near);
        let number = self
            .rows
            .regroup(key, number, key_cells.as_slice(), 0, near)?;
        touched.note(number)?;
        Ok(number)
    }

    /// Whether two rows stand in one group.
    fn has_same_cells(&self, before: &[i64], row: &[i64]) -> bool
        ensures { IsTrue result → cells_by self.now.by before.now ≡ cells_by self.now.by row.now }
    {
        for column in self.by.as_slice() {
            if cell(before, *column) != cell(row, *column) {
                return false;
            }
        }
        true
    }

    /// Puts the added rows in, and notes their groups.
    fn put_rows<L: Ledger>(
        &mut self,
        input: &TickTable,
        touched: &mut TouchedGroups,
        key_cells: &mut Vec<i64>,
        reads: &mut Steps<L>,
    ) -> Result<(), AllocError>
        requires exact { IsExact input.now }
        requires keeps { Keeps self.old (removing input.now.update.added input.now.new.rows) }
        requires names { IsPart self.old.rows self.old.rows }
        ensures made { OnOk result (IsMade self.old self.new) }
        ensures keeps { OnOk result (Keeps self.new input.now.new.rows) }
        ensures names { OnOk result (IsPart self.old.rows self.new.rows) }
        ensures noted { OnOk result (AreNoted self.old.rows.names self.new.rows.names touched.old touched.new [] (map (key_at self.old.by input.now.new.rows) input.now.update.added)) }
        ensures reads { reads.new ≤ reads.old + input.now.new.width * length input.now.update.added }
    {
        let added = input.update().added();
        let _ = added.len();
        let mut place: usize = 0;
        for key in added {
            let row = input.added_row(place as u64, reads);
            self.read_key_cells(row, key_cells)?;
            let near = touched.near(place);
            let number = self.rows.add_near(key, key_cells.as_slice(), 0, near)?;
            touched.note(number)?;
            put_all(&mut self.running, number, row)?;
            place += 1;
        }
        Ok(())
    }

    /// Puts the cells by which a row stands in its group in place of others.
    pub(crate) fn read_key_cells(&self, row: &[i64], cells: &mut Vec<i64>) -> Result<(), AllocError>
        ensures { OnOk result (cells.new.items ≡ cells_by self.now.by row.now) }
    {
        cells.clear();
        for column in self.by.as_slice() {
            cells.push(cell(row, *column))?;
        }
        Ok(())
    }

    /// Puts the row of now of a group, whose first row has this key, behind other cells. It is likely to be the one at this
    /// place of `led`.
    pub(crate) fn put_group<L: Ledger>(
        &self,
        input: &TickTable,
        first: u64,
        led: &[LedGroup],
        place: usize,
        cells: &mut Vec<i64>,
        reads: &mut Steps<L>,
    ) -> Result<(), AllocError>
        requires table { IsTable input.now.new }
        requires keeps { Keeps self.now input.now.new.rows }
        requires within { AllByRecursion (IsWithin input.now.new.width) self.now.running.items }
        requires here { IsTrue (is_among first (first_keys self.now.by input.now.new.rows)) }
        requires led { AreLed self.now.rows led.now }
        ensures cells { OnOk result (cells.new.items ≡ cells.old.items ++ cells_at first (agg_table self.now.by self.now.aggs input.now.new).rows) }
        ensures reads { reads.new ≤ reads.old + length self.now.aggs }
    {
        let number = self.number_led(first, led, place);
        let group = self.rows.group_at(number).unwrap();
        cells.extend_from_slice(group.cells())?;
        put_values(&self.running, number, &group, input, cells, reads)
    }

    /// The number of the group whose first row has this key. No row is looked for where the group is the one at this place of `led`.
    pub(crate) fn number_led(&self, first: u64, led: &[LedGroup], place: usize) -> usize
        requires led { AreLed self.now.rows led.now }
        requires there { IsSome (member_under first self.now.rows.members) }
        requires starts { IsTrue (starts self.now.rows.members first (kept_cells self.now.rows.members first)) }
        ensures { IsTrue (starts_numbered self.now.rows first result) }
    {
        match led.get(place) {
            Some(group) if group.first == first => group.number,
            _ => self.rows.number_of(first),
        }
    }
}
