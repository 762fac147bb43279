//! `sort`: the rows of the input in stable order, under the keys 0, 1, 2 and so on.
//!
//! The result's keys are positions. A step finds the old positions of the rows that leave the order or may differ while the
//! order is the one before, takes out what stands there and puts in what comes, each row by one search. What lies between
//! the positions moves by ranges.
ghost use Rattle.std.specs.Prelude.{◌≡◌, ◌+◌, ◌*◌, ◌^◌, ◌≤◌, [], length, IfOk, IsTrue, OnErr, OnOk};
ghost use Rattle.std.specs.List.{AllByRecursion};
ghost use Rattle.key_lists.specs.Keys.{is_among, without};
ghost use Rattle.row_changes.specs.Parts.{AreCompared};
ghost use Rattle.row_handles.specs.Entries.{keys_of};
ghost use Rattle.row_set.specs.Sets.{IsKeySet, united};
ghost use Rattle.tick_model.specs.Changes.{change_of};
ghost use Rattle.tick_model.specs.Sort.{sort_pairs, sort_table};
ghost use Rattle.tick_model.specs.Tables.{keys};
ghost use Rattle.tick_model.specs.Updates.{between, new_keys, old_keys, pairs};
ghost use Rattle.tick_table.specs.Exact.{IsExact, counted, tick_of};
ghost use Rattle.sort_op.specs.Entries.{keys_in};
ghost use Rattle.sort_op.specs.Places.{AreApart, AreUnder, keys_at, other_places};
ghost use Rattle.sort_op.specs.Ranks.{IsSettled, listed};
ghost use Rattle.sort_op.specs.Reading.{carried, coming, leaving, staying_pairs};
ghost use Rattle.sort_op.specs.Sorted.{entries_of};
ghost use Rattle.sort_op.specs.Sorter.{sorted};

use crate::modified::{Modified, modified_rows};
use crate::positions::{keys_of, others, positions_of};
use crate::row_order::RowOrder;
use crate::rows::SortedRows;
use row_changes::{Touched, change_of_touched};
use row_set::RowSet;
use shift_data::ShiftData;
use std::alloc::{AllocError, Global};
use std::marker::Model;
use std::sync::ledger::Ledger;
use tick_model::items::Items;
use tick_model::plan::SortBy;
use tick_table::{Change, Steps, TickTable};

/// Shows the rows of its input in order. It stands for the rows that it saw last.
#[derive(Drop)]
pub struct SortOp {
    order: RowOrder,
    width: u32,
}

impl Model for SortOp {
    ghost use Rattle.sort_op.specs.Ranks.{IsSettled, listed};
    ghost use Rattle.sort_op.specs.Sorter.{Sorter};

    ghost Value = { Sorter };

    ghost view = { λ sorter. record { by = sorter.order.by; width = sorter.width; entries = listed sorter.order } };

    ghost invariant = { λ sorter. IsSettled sorter.order };
}

/// The positions of the rows that a step touches, in one order.
#[derive(Drop)]
struct TouchedPositions {
    /// Of those that leave, or of those that come.
    crossing: RowSet,
    /// Of those that stay and may differ.
    compared: RowSet,
    /// Of those that stay, all of them.
    staying: RowSet,
}

impl SortOp {
    /// An operator that has seen no rows, for an input of this width.
    pub fn new(alloc: Global, by: Items<SortBy>, width: u32) -> SortOp
        ensures by { result.by ≡ by }
        ensures width { result.width ≡ width }
        ensures entries { result.entries ≡ [] }
    {
        SortOp {
            order: RowOrder::new(alloc, by),
            width,
        }
    }

    /// The operator after the step that the input shows, and the change of its rows. It must stand for the input's rows before
    /// the step; after a refusal it is given up, and no more is read than that change may take.
    pub fn step<L: Ledger>(
        self,
        alloc: Global,
        input: &TickTable,
        reads: &mut Steps<L>,
    ) -> Result<(SortOp, Change), AllocError>
        requires exact { IsExact input.now }
        requires width { input.now.new.width ≡ self.width }
        requires stands { self.entries ≡ entries_of self.by input.now.old.rows }
        ensures stands { IfOk result (λ out. out.0 ≡ record self { entries = entries_of self.by input.now.new.rows }) }
        ensures change { IfOk result (λ out. out.1 ≡ change_of (sorted self.by (tick_of input.now))) }
        ensures reads { IfOk result (λ out. reads.new ≤ reads.old + 4 * (input.now.new.width + input.now.new.width) * (counted input.now.update + counted out.1.update)) }
        ensures refused { OnErr result (reads.new ≤ reads.old + 4 * (input.now.new.width + input.now.new.width) * (counted input.now.update + counted (change_of (sorted self.by (tick_of input.now))).update)) }
    {
        let SortOp { mut order, width } = self;
        let change = step_order(alloc, input, &mut order, reads)?;
        Ok((SortOp { order, width }, change))
    }
}

/// Where the rows that a step touches stood before it.
#[derive(Drop)]
struct Before {
    places: TouchedPositions,
    /// The positions of those that leave or may differ.
    touched: RowSet,
    /// The keys that they had.
    touched_keys: Vec<u64>,
}

/// The keys of the rows that a step touches.
#[derive(Drop)]
struct Edits {
    /// The old keys of those that leave the order: the rows that go, and those that come to stand among others.
    leaving: RowSet,
    /// The keys of those that come into the order.
    coming: RowSet,
    /// The old keys of the modified rows that stay.
    compared_before: RowSet,
    /// Their keys now.
    compared_now: RowSet,
}

/// Brings an order on to the rows now. Gives the change of the rows that are shown.
fn step_order<L: Ledger>(
    alloc: Global,
    input: &TickTable,
    order: &mut RowOrder,
    reads: &mut Steps<L>,
) -> Result<Change, AllocError>
    requires exact { IsExact input.now }
    requires settled { IsSettled order.old }
    requires stands { listed order.old ≡ entries_of order.old.by input.now.old.rows }
    ensures by { OnOk result (order.new.by ≡ order.old.by) }
    ensures settled { OnOk result (IsSettled order.new) }
    ensures stands { OnOk result (listed order.new ≡ entries_of order.old.by input.now.new.rows) }
    ensures change { IfOk result (λ change. change ≡ change_of (sorted order.old.by (tick_of input.now))) }
    ensures reads { reads.new ≤ reads.old + 4 * (input.now.new.width + input.now.new.width) * (counted input.now.update + counted (between (sorted order.old.by (tick_of input.now)))) }
{
    let edits = edits_of(alloc, input, order, reads)?;
    edited(alloc, input, order, edits, reads)
}

/// Which rows a step touches, by a look at those that are modified.
fn edits_of<L: Ledger>(
    alloc: Global,
    input: &TickTable,
    order: &RowOrder,
    reads: &mut Steps<L>,
) -> Result<Edits, AllocError>
    requires exact { IsExact input.now }
    requires stands { listed order.now ≡ entries_of order.now.by input.now.old.rows }
    ensures leaving { IfOk result (λ edits. edits.leaving ≡ leaving order.now.by input.now) }
    ensures coming { IfOk result (λ edits. edits.coming ≡ coming order.now.by input.now) }
    ensures compared_before { IfOk result (λ edits. edits.compared_before ≡ old_keys (staying_pairs order.now.by input.now)) }
    ensures compared_now { IfOk result (λ edits. edits.compared_now ≡ new_keys (staying_pairs order.now.by input.now)) }
    ensures reads { reads.new ≤ reads.old + input.now.new.width * length input.now.update.modified }
{
    let Modified { moving, staying } = modified_rows(alloc, input, order, reads)?;
    let (moving_from, moving_to) = moving.into_keys();
    let (compared_before, compared_now) = staying.into_keys();
    let update = input.update();
    Ok(Edits {
        leaving: update.removed().union(&moving_from)?,
        coming: update.added().union(&moving_to)?,
        compared_before,
        compared_now,
    })
}

/// The change of the rows that are shown, where these are the rows that the step touches.
fn edited<L: Ledger>(
    alloc: Global,
    input: &TickTable,
    order: &mut RowOrder,
    edits: Edits,
    reads: &mut Steps<L>,
) -> Result<Change, AllocError>
    requires exact { IsExact input.now }
    requires settled { IsSettled order.old }
    requires stands { listed order.old ≡ entries_of order.old.by input.now.old.rows }
    requires leaving { edits.leaving ≡ leaving order.old.by input.now }
    requires coming { edits.coming ≡ coming order.old.by input.now }
    requires compared_before { edits.compared_before ≡ old_keys (staying_pairs order.old.by input.now) }
    requires compared_now { edits.compared_now ≡ new_keys (staying_pairs order.old.by input.now) }
    ensures by { OnOk result (order.new.by ≡ order.old.by) }
    ensures settled { OnOk result (IsSettled order.new) }
    ensures stands { OnOk result (listed order.new ≡ entries_of order.old.by input.now.new.rows) }
    ensures change { IfOk result (λ change. change ≡ change_of (sorted order.old.by (tick_of input.now))) }
    ensures reads { reads.new ≤ reads.old + input.now.new.width * (3 * length input.now.update.modified + length input.now.update.added + length (between (sorted order.old.by (tick_of input.now))).added) }
{
    let before = before_edits(alloc, order, &edits)?;
    let crossing = bring_on(
        alloc,
        order,
        input,
        &before.places.crossing,
        &edits.coming,
        reads,
    )?;
    let now = places_of(alloc, order, crossing, &edits.compared_now)?;
    sorted_change(alloc, input, order, before, now, reads)
}

/// Where the rows that leave or may differ stand in the order before the step.
fn before_edits(alloc: Global, order: &RowOrder, edits: &Edits) -> Result<Before, AllocError>
    requires leaving { AllByRecursion (λ key. IsTrue (is_among key (keys_in (listed order.now)))) edits.now.leaving }
    requires compared { AllByRecursion (λ key. IsTrue (is_among key (keys_in (listed order.now)))) edits.now.compared_before }
    requires apart { AreApart (keys_in (listed order.now)) }
    requires few { length (listed order.now) ≤ 2 ^ 62 }
    ensures crossing { IfOk result (λ before. AreUnder (keys_in (listed order.now)) edits.now.leaving before.places.crossing) }
    ensures compared { IfOk result (λ before. AreUnder (keys_in (listed order.now)) edits.now.compared_before before.places.compared) }
    ensures crossing_set { IfOk result (λ before. IsKeySet before.places.crossing) }
    ensures compared_set { IfOk result (λ before. IsKeySet before.places.compared) }
    ensures staying { IfOk result (λ before. before.places.staying ≡ other_places (length (listed order.now)) before.places.crossing) }
    ensures touched { IfOk result (λ before. before.touched ≡ united before.places.crossing before.places.compared) }
    ensures touched_keys { IfOk result (λ before. before.touched_keys.items ≡ keys_at (listed order.now) before.touched) }
{
    let crossing = positions_of(alloc, order, &edits.leaving)?;
    let places = places_of(alloc, order, crossing, &edits.compared_before)?;
    let touched = places.crossing.union(&places.compared)?;
    let touched_keys = keys_of(alloc, order, &touched)?;
    Ok(Before {
        places,
        touched,
        touched_keys,
    })
}

/// Edits an order of the rows before the step so that it is that of the rows now, by the positions of the rows that leave and
/// the keys of those that come. Gives the positions of these.
fn bring_on<L: Ledger>(
    alloc: Global,
    order: &mut RowOrder,
    input: &TickTable,
    left: &RowSet,
    came: &RowSet,
    reads: &mut Steps<L>,
) -> Result<RowSet, AllocError>
    requires exact { IsExact input.now }
    requires settled { IsSettled order.old }
    requires stands { listed order.old ≡ entries_of order.old.by input.now.old.rows }
    requires left { AreUnder (keys_in (listed order.old)) (leaving order.old.by input.now) left.now }
    requires came { came.now ≡ coming order.old.by input.now }
    ensures by { order.new.by ≡ order.old.by }
    ensures settled { OnOk result (IsSettled order.new) }
    ensures stands { OnOk result (listed order.new ≡ entries_of order.old.by input.now.new.rows) }
    ensures places { IfOk result (λ positions. AreUnder (keys_in (listed order.new)) came.now positions) }
    ensures set { IfOk result (λ positions. IsKeySet positions) }
    ensures reads { reads.new ≤ reads.old + input.now.new.width * length came.now }
{
    take_out(order, input, left)?;
    put_in(alloc, order, input, came, reads)
}

/// Takes the rows that leave out of an order of the rows before the step, by their positions, and moves the others to their
/// keys now.
fn take_out(order: &mut RowOrder, input: &TickTable, left: &RowSet) -> Result<(), AllocError>
    requires exact { IsExact input.now }
    requires settled { IsSettled order.old }
    requires stands { listed order.old ≡ entries_of order.old.by input.now.old.rows }
    requires left { AreUnder (keys_in (listed order.old)) (leaving order.old.by input.now) left.now }
    ensures by { order.new.by ≡ order.old.by }
    ensures carried { OnOk result (listed order.new ≡ carried order.old.by input.now) }
    ensures keys { OnOk result (keys_of order.new.handles ≡ new_keys (pairs input.now.old input.now.update)) }
{
    let update = input.update();
    order.remove_found(left);
    order.shift(update.removed(), update.shifted())
}

/// Puts the rows that come in where the others stand, and gives the positions at which they stand now.
fn put_in<L: Ledger>(
    alloc: Global,
    order: &mut RowOrder,
    input: &TickTable,
    came: &RowSet,
    reads: &mut Steps<L>,
) -> Result<RowSet, AllocError>
    requires exact { IsExact input.now }
    requires carried { listed order.old ≡ carried order.old.by input.now }
    requires keys { keys_of order.old.handles ≡ new_keys (pairs input.now.old input.now.update) }
    requires came { came.now ≡ coming order.old.by input.now }
    ensures by { order.new.by ≡ order.old.by }
    ensures settled { OnOk result (IsSettled order.new) }
    ensures stands { OnOk result (listed order.new ≡ entries_of order.old.by input.now.new.rows) }
    ensures places { IfOk result (λ positions. AreUnder (keys_in (listed order.new)) came.now positions) }
    ensures set { IfOk result (λ positions. IsKeySet positions) }
    ensures reads { reads.new ≤ reads.old + input.now.new.width * length came.now }
{
    let rows = order.enter_rows(alloc, input, came, reads)?;
    let positions = order.insert_rows(rows)?;
    RowSet::from_keys(alloc, positions)
}

/// The positions of the rows that leave or come, of those that stay and may differ, and of all that stay.
fn places_of(
    alloc: Global,
    order: &RowOrder,
    crossing: RowSet,
    compared: &RowSet,
) -> Result<TouchedPositions, AllocError>
    requires compared { AllByRecursion (λ key. IsTrue (is_among key (keys_in (listed order.now)))) compared.now }
    requires apart { AreApart (keys_in (listed order.now)) }
    requires few { length (listed order.now) ≤ 2 ^ 62 }
    ensures crossing { IfOk result (λ places. places.crossing ≡ crossing) }
    ensures compared { IfOk result (λ places. AreUnder (keys_in (listed order.now)) compared.now places.compared) }
    ensures compared_set { IfOk result (λ places. IsKeySet places.compared) }
    ensures no_more { IfOk result (λ places. length places.compared ≤ length compared.now) }
    ensures staying { IfOk result (λ places. places.staying ≡ other_places (length (listed order.now)) places.crossing) }
{
    let compared = positions_of(alloc, order, compared)?;
    let staying = others(alloc, order.len(), &crossing)?;
    Ok(TouchedPositions {
        crossing,
        compared,
        staying,
    })
}

/// The change between the rows before the step and those now, whose order this is.
fn sorted_change<L: Ledger>(
    alloc: Global,
    input: &TickTable,
    order: &RowOrder,
    before: Before,
    now: TouchedPositions,
    reads: &mut Steps<L>,
) -> Result<Change, AllocError>
    requires exact { IsExact input.now }
    requires order { listed order.now ≡ entries_of order.now.by input.now.new.rows }
    requires removed { before.places.crossing ≡ (between (sorted order.now.by (tick_of input.now))).removed }
    requires added { now.crossing ≡ (between (sorted order.now.by (tick_of input.now))).added }
    requires staying_before { before.places.staying ≡ without before.places.crossing (keys (sort_table order.now.by input.now.old).rows) }
    requires staying_now { now.staying ≡ without now.crossing (keys (sort_table order.now.by input.now.new).rows) }
    requires compared { AreCompared (sort_table order.now.by input.now.old) (sort_table order.now.by input.now.new) (sort_pairs order.now.by (tick_of input.now)) before.places.compared now.compared }
    requires touched { before.touched ≡ united before.places.crossing before.places.compared }
    requires touched_keys { before.touched_keys.items ≡ keys_at (entries_of order.now.by input.now.old.rows) before.touched }
    ensures change { IfOk result (λ change. change ≡ change_of (sorted order.now.by (tick_of input.now))) }
    ensures reads { reads.new ≤ reads.old + input.now.new.width * (2 * length now.compared + length now.crossing) }
{
    let Before {
        places: before,
        touched,
        touched_keys,
    } = before;
    let shifted = ShiftData::of_pairs(alloc, &before.staying, &now.staying)?;
    let moves = shifted.copy()?;
    let rows = SortedRows {
        input,
        order,
        touched,
        touched_keys,
        shifted: moves,
    };
    let parts = Touched {
        removed: before.crossing,
        added: now.crossing,
        shifted,
        compared_before: before.compared,
        compared_now: now.compared,
    };
    change_of_touched(alloc, &rows, input.width(), parts, reads)
}
