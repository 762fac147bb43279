//! The operator without the keys of its rows: what it keeps, and its step.

ghost use Rattle.std.specs.Prelude.{◌≡◌, ℕ, ◌+◌, ◌*◌, ◌<◌, ◌≤◌, [], None, length, IfOk, OnErr, OnOk};
ghost use Rattle.std.specs.List.{AllByRecursion};
ghost use Rattle.agg_by.specs.Aggregator.{IsAggregator, IsColumn, KeepsRows, grouped};
ghost use Rattle.agg_by.specs.Kept.{Are, IsMade, Keeps, indexed};
ghost use Rattle.agg_by.specs.Notes.{IsNoted};
ghost use Rattle.agg_by.specs.Rows.{AreReady};
ghost use Rattle.agg_by.specs.Steps.{first_keys, touched_cells, touched_firsts};
ghost use Rattle.agg_by.specs.Touched.{AreLeaving, HaveNoted};
ghost use Rattle.row_groups.specs.Members.{groups_of};
ghost use Rattle.tick_model.specs.Agg.{agg_table};
ghost use Rattle.tick_model.specs.Changes.{change_of};
ghost use Rattle.tick_table.specs.Exact.{IsExact, counted, tick_of};
ghost use Rattle.tick_table.specs.Ticking.{no_rows};

use crate::firsts::{LedGroup, find_led};
use crate::kept::AggIndex;
use crate::moving::Leaving;
use crate::notes::PriorRows;
use crate::rows::GroupRows;
use crate::staying::staying_firsts;
use crate::touched::TouchedGroups;
use row_changes::{Touched, change_of_touched};
use row_set::RowSet;
use std::alloc::{AllocError, Global};
use std::marker::Model;
use std::sync::ledger::Ledger;
use tick_model::items::Items;
use tick_model::plan::Agg;
use tick_table::{Change, Steps, TickTable};

/// Shows a row for each group of its input's rows with equal key cells. It stands for the rows that it saw last, whose groups
/// it keeps, but not the keys of their first rows.
#[derive(Drop)]
pub struct Aggregation {
    width: u32,
    kept: AggIndex,
    /// Room for the key cells of a row that comes.
    key_cells: Vec<i64>,
    /// The groups that a step touches.
    touched: TouchedGroups,
    /// Room for those of them that have rows.
    led: Vec<LedGroup>,
    /// Room for the rows that are noted in a step.
    noted: Vec<i64>,
}

impl Model for Aggregation {
    ghost use Rattle.std.specs.Coded.{codes};
    ghost use Rattle.agg_by.specs.Aggregator.{Grouping, IsAggregator};
    ghost use Rattle.agg_by.specs.contracts.running.Accumulator as running_type;
    ghost use Rattle.tick_model.specs.contracts.plan.Agg as agg_type;

    ghost Value = { Grouping };

    ghost coded = { Prim.hlevel (codes, running_type.the_row.coded, agg_type.the_row.coded) };

    ghost view = { λ op. record {
      by = op.kept.by;
      aggs = op.kept.aggs;
      width = op.width;
      rows = op.kept.rows;
      running = op.kept.running.items;
    } };

    ghost invariant = { λ op. IsAggregator op.kept.by op.kept.aggs op.width };
}

impl Aggregation {
    /// An operator that has seen no rows, for an input of this width. It takes no memory.
    pub fn new(alloc: Global, by: Items<u32>, aggs: Items<Agg>, width: u32) -> Aggregation
        requires { IsAggregator by aggs width }
        ensures by { result.by ≡ by }
        ensures aggs { result.aggs ≡ aggs }
        ensures width { result.width ≡ width }
        ensures keeps { KeepsRows result (no_rows width) }
    {
        Aggregation {
            width,
            kept: AggIndex::new(alloc, by, aggs),
            key_cells: Vec::new(alloc),
            touched: TouchedGroups::new(alloc),
            led: Vec::new(alloc),
            noted: Vec::new(alloc),
        }
    }

    /// The operator after the step that the input shows, and the change of its rows, where `shown` has those before it. It must
    /// keep the input's rows before the step; after a refusal it is given up, and no more is read than that change may take.
    pub fn change<L: Ledger>(
        self,
        alloc: Global,
        input: &TickTable,
        shown: &TickTable,
        reads: &mut Steps<L>,
    ) -> Result<(Aggregation, Change), AllocError>
        requires exact { IsExact input.now }
        requires width { input.now.new.width ≡ self.width }
        requires keeps { KeepsRows self input.now.old }
        requires shown { shown.now.new ≡ agg_table self.by self.aggs input.now.old }
        ensures by { IfOk result (λ out. out.0.by ≡ self.by) }
        ensures aggs { IfOk result (λ out. out.0.aggs ≡ self.aggs) }
        ensures width { IfOk result (λ out. out.0.width ≡ self.width) }
        ensures keeps { IfOk result (λ out. KeepsRows out.0 input.now.new) }
        ensures change { IfOk result (λ out. out.1 ≡ change_of (grouped self.by self.aggs (tick_of input.now))) }
        ensures reads { IfOk result (λ out. reads.new ≤ reads.old
            + 4 * (input.now.new.width + (length self.by + length self.aggs)) * (counted input.now.update + counted out.1.update)) }
        ensures refused { OnErr result (reads.new ≤ reads.old
            + 4 * (input.now.new.width + (length self.by + length self.aggs)) * (counted input.now.update + counted (change_of (grouped self.by self.aggs (tick_of input.now))).update)) }
    {
        let Aggregation {
            width,
            mut kept,
            mut key_cells,
            mut touched,
            mut led,
            noted,
        } = self;
        let (change, noted) = grouped_step(
            alloc,
            &mut kept,
            shown,
            &mut key_cells,
            &mut touched,
            &mut led,
            noted,
            input,
            reads,
        )?;
        Ok((
            Aggregation {
                width,
                kept,
                key_cells,
                touched,
                led,
                noted,
            },
            change,
        ))
    }
}

/// Brings all that is kept on by a step. Gives the change of the rows of the groups, where `shown` has them before it, and the
/// room for notes.
fn grouped_step<L: Ledger>(
    alloc: Global,
    kept: &mut AggIndex,
    shown: &TickTable,
    key_cells: &mut Vec<i64>,
    touched: &mut TouchedGroups,
    led: &mut Vec<LedGroup>,
    noted: Vec<i64>,
    input: &TickTable,
    reads: &mut Steps<L>,
) -> Result<(Change, Vec<i64>), AllocError>
    requires exact { IsExact input.now }
    requires few { length kept.old.by + length kept.old.aggs ≤ 32 }
    requires by { AllByRecursion (λ column. column < input.now.new.width) kept.old.by }
    requires columns { AllByRecursion (IsColumn input.now.new.width) kept.old.aggs }
    requires rows { groups_of kept.old.rows ≡ indexed kept.old.by None input.now.old.rows }
    requires running { Are kept.old.by kept.old.rows.names kept.old.aggs input.now.old.rows kept.old.running.items }
    requires shown { shown.now.new ≡ agg_table kept.old.by kept.old.aggs input.now.old }
    ensures made { OnOk result (IsMade kept.old kept.new) }
    ensures keeps { OnOk result (Keeps kept.new input.now.new.rows) }
    ensures change { IfOk result (λ out. out.0 ≡ change_of (grouped kept.old.by kept.old.aggs (tick_of input.now))) }
    ensures reads { reads.new ≤ reads.old + 3 * (input.now.new.width + shown.now.new.width) * counted input.now.update }
{
    kept.begin(alloc)?;
    let leaving = Leaving::of(alloc, kept, input)?;
    let notes = noted_groups(
        alloc, kept, input, shown, &leaving, touched, led, key_cells, noted, reads,
    )?;
    kept.bring_on(input, &leaving, touched, key_cells, reads)?;
    let firsts = find_led(alloc, &kept.rows, touched.numbers(), led)?;
    let rows = GroupRows {
        input,
        kept,
        led: led.as_slice(),
        notes: &notes,
    };
    let change = group_change(alloc, &rows, firsts, shown.rows(), reads)?;
    Ok((change, notes.into_cells()))
}

/// Notes the groups that the step touches, and their rows before it, which `shown` has.
fn noted_groups<L: Ledger>(
    alloc: Global,
    kept: &AggIndex,
    input: &TickTable,
    shown: &TickTable,
    leaving: &Leaving,
    touched: &mut TouchedGroups,
    led: &mut Vec<LedGroup>,
    key_cells: &mut Vec<i64>,
    noted: Vec<i64>,
    reads: &mut Steps<L>,
) -> Result<PriorRows, AllocError>
    requires exact { IsExact input.now }
    requires rows { groups_of kept.now.rows ≡ indexed kept.now.by None input.now.old.rows }
    requires shown { shown.now.new ≡ agg_table kept.now.by kept.now.aggs input.now.old }
    requires leaving { AreLeaving leaving.now kept.now.by kept.now.rows input.now }
    ensures touched { OnOk result (HaveNoted kept.now.rows [] touched.new (touched_cells kept.now.by input.now)) }
    ensures noted { IfOk result (λ notes. IsNoted notes (agg_table kept.now.by kept.now.aggs input.now.old)) }
    ensures keys { IfOk result (λ notes. notes.keys ≡ touched_firsts kept.now.by input.now input.now.old.rows) }
    ensures reads { reads.new ≤ reads.old + (input.now.new.width + shown.now.new.width) * counted input.now.update }
{
    touched.note_before(kept, input, leaving, key_cells, reads)?;
    let before = find_led(alloc, &kept.rows, touched.numbers(), led)?;
    PriorRows::take(before, shown, noted, reads)
}

/// The change of the rows of the groups, where `firsts` has the keys of the first rows of the touched groups now, and `shown`
/// those of all groups before the step.
fn group_change<L: Ledger>(
    alloc: Global,
    rows: &GroupRows<'_>,
    firsts: RowSet,
    shown: &RowSet,
    reads: &mut Steps<L>,
) -> Result<Change, AllocError>
    requires ready { AreReady rows.now.input.now rows.now.kept.now rows.now.led.now rows.now.notes.now }
    requires few { length rows.now.kept.now.by + length rows.now.kept.now.aggs ≤ 32 }
    requires firsts { firsts ≡ touched_firsts rows.now.kept.now.by rows.now.input.now rows.now.input.now.new.rows }
    requires shown { shown.now ≡ first_keys rows.now.kept.now.by rows.now.input.now.old.rows }
    ensures change { IfOk result (λ change. change ≡ change_of (grouped rows.now.kept.now.by rows.now.kept.now.aggs (tick_of rows.now.input.now))) }
    ensures reads { reads.new ≤ reads.old + 2 * length rows.now.kept.now.aggs * length firsts }
{
    let staying = staying_firsts(alloc, rows.kept, rows.input, rows.notes, &firsts, rows.led)?;
    let (compared_before, compared_now) = staying.into_keys();
    let removed = rows.notes.keys.minus(&compared_before)?;
    let added = firsts.minus(&compared_now)?;
    let shifted = rows
        .input
        .update()
        .shifted()
        .canonical_without(shown, &removed)?;
    let touched = Touched {
        removed,
        added,
        shifted,
        compared_before,
        compared_now,
    };
    let width = (rows.kept.by.len() + rows.kept.aggs.len()) as u32;
    change_of_touched(alloc, rows, width, touched, reads)
}
