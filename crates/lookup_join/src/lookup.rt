//! A step of a join, whatever it picks: what it brings on, and the change that it makes.

ghost use Rattle.std.specs.Prelude.{◌≡◌, ℕ, ◌+◌, ◌*◌, ◌<◌, ◌≤◌, false, length, IfOk, OnOk};
ghost use Rattle.std.specs.List.{AllByRecursion};
ghost use Rattle.key_lists.specs.Keys.{is_among};
ghost use Rattle.lookup_join.specs.Keyed.{indexed};
ghost use Rattle.lookup_join.specs.Matched.{matched_tick};
ghost use Rattle.lookup_join.specs.Taken.{AreMatched, rekeyed_pairs, told_notes, turned_keys};
ghost use Rattle.row_groups.specs.Members.{groups_of};
ghost use Rattle.row_set.specs.Sets.{united};
ghost use Rattle.tick_model.specs.Changes.{change_of};
ghost use Rattle.tick_model.specs.Updates.{between, new_keys};
ghost use Rattle.tick_table.specs.Exact.{IsExact, counted, tick_of};

use crate::keyed::{Side, bring_on, rekeyed};
use crate::notes::{PriorMatches, touched_places};
use crate::pick::Pick;
use crate::rows::MatchedRows;
use crate::turned::turned_rows;
use row_changes::mapped;
use row_groups::NumberedGroups;
use row_set::RowSet;
use shown_rows::KeyPairs;
use std::alloc::{AllocError, Global};
use std::sync::ledger::Ledger;
use tick_model::plan::OnPair;
use tick_table::{Change, Steps, TickTable};

/// What a step comes to.
#[derive(Drop)]
pub(crate) struct LookupResult {
    pub change: Change,
    /// What was taken before at the places that the step touches.
    pub notes: PriorMatches,
    /// The left rows that are new in their places.
    pub came: RowSet,
}

/// Brings both indexes on by a step, and makes the change of the matched rows.
pub(crate) fn lookup_step<L: Ledger>(
    alloc: Global,
    on: &[OnPair],
    pick: Pick,
    take: &[u32],
    left_rows: &mut NumberedGroups,
    right_rows: &mut NumberedGroups,
    left: &TickTable,
    right: &TickTable,
    buffer: &mut Vec<i64>,
    reads: &mut Steps<L>,
) -> Result<LookupResult, AllocError>
    requires left_exact { IsExact left.now }
    requires right_exact { IsExact right.now }
    requires few { left.now.new.width + length take.now ≤ 32 }
    requires take { AllByRecursion (λ column. column < right.now.new.width) take.now }
    requires left_rows { groups_of left_rows.old ≡ indexed Side.Left on.now pick left.now.old.rows }
    requires right_rows { groups_of right_rows.old ≡ indexed Side.Right on.now pick right.now.old.rows }
    ensures left_rows { OnOk result (groups_of left_rows.new ≡ indexed Side.Left on.now pick left.now.new.rows) }
    ensures right_rows { OnOk result (groups_of right_rows.new ≡ indexed Side.Right on.now pick right.now.new.rows) }
    ensures change { IfOk result (λ outcome. outcome.change ≡ change_of (matched_tick on.now pick take.now (tick_of left.now) (tick_of right.now))) }
    ensures notes { IfOk result (λ outcome. outcome.notes ≡ record { width = length on.now; notes = told_notes on.now pick left.now right.now }) }
    ensures came { IfOk result (λ outcome. outcome.came ≡ united (new_keys (rekeyed_pairs Side.Left on.now pick left.now)) left.now.update.added) }
    ensures reads { reads.new ≤ reads.old
        + 4 * (left.now.new.width + right.now.new.width + (left.now.new.width + length take.now))
        * (counted left.now.update + counted right.now.update + counted (change_of (matched_tick on.now pick take.now (tick_of left.now) (tick_of right.now))).update) }
{
    let notes = bring_right_on(alloc, on, pick, right_rows, left, right, buffer, reads)?;
    let came = bring_left_on(alloc, on, pick, left_rows, left, buffer, reads)?;
    let rows = MatchedRows {
        left,
        right,
        on,
        pick,
        take,
        index: right_rows,
        notes: &notes,
    };
    let change = matched_change(alloc, &rows, left_rows, reads)?;
    Ok(LookupResult {
        change,
        notes,
        came,
    })
}

/// Brings the index of the right rows on, and notes what was taken before at the places that the step touches.
fn bring_right_on<L: Ledger>(
    alloc: Global,
    on: &[OnPair],
    pick: Pick,
    index: &mut NumberedGroups,
    left: &TickTable,
    right: &TickTable,
    buffer: &mut Vec<i64>,
    reads: &mut Steps<L>,
) -> Result<PriorMatches, AllocError>
    requires exact { IsExact right.now }
    requires index { groups_of index.old ≡ indexed Side.Right on.now pick right.now.old.rows }
    ensures index { OnOk result (groups_of index.new ≡ indexed Side.Right on.now pick right.now.new.rows) }
    ensures notes { IfOk result (λ notes. notes ≡ record { width = length on.now; notes = told_notes on.now pick left.now right.now }) }
    ensures reads { reads.new ≤ reads.old + right.now.new.width * (3 * length right.now.update.modified + 2 * length right.now.update.added) }
{
    let modified = KeyPairs::modified(right)?;
    let notes = touched_places(
        alloc, on, pick, index, left, right, &modified, buffer, reads,
    )?;
    let changed = rekeyed(
        alloc,
        Side::Right,
        on,
        pick,
        index,
        right,
        &modified,
        buffer,
        reads,
    )?;
    bring_on(Side::Right, on, pick, index, right, changed, buffer, reads)?;
    Ok(notes)
}

/// Brings the index of the left rows on. Gives the keys of the rows that are new in their places.
fn bring_left_on<L: Ledger>(
    alloc: Global,
    on: &[OnPair],
    pick: Pick,
    index: &mut NumberedGroups,
    left: &TickTable,
    buffer: &mut Vec<i64>,
    reads: &mut Steps<L>,
) -> Result<RowSet, AllocError>
    requires exact { IsExact left.now }
    requires index { groups_of index.old ≡ indexed Side.Left on.now pick left.now.old.rows }
    ensures index { OnOk result (groups_of index.new ≡ indexed Side.Left on.now pick left.now.new.rows) }
    ensures came { IfOk result (λ came. came ≡ united (new_keys (rekeyed_pairs Side.Left on.now pick left.now)) left.now.update.added) }
    ensures reads { reads.new ≤ reads.old + left.now.new.width * (2 * length left.now.update.modified + length left.now.update.added) }
{
    let modified = KeyPairs::modified(left)?;
    let changed = rekeyed(
        alloc,
        Side::Left,
        on,
        pick,
        index,
        left,
        &modified,
        buffer,
        reads,
    )?;
    bring_on(Side::Left, on, pick, index, left, changed, buffer, reads)
}

/// The keys of the left rows for which a note speaks where other cells are taken now. Rows that came may be among them or not:
/// where all did, no note is looked at.
fn turned_set<L: Ledger>(
    alloc: Global,
    rows: &MatchedRows<'_>,
    left_rows: &NumberedGroups,
    reads: &mut Steps<L>,
) -> Result<RowSet, AllocError>
    requires left_rows { groups_of left_rows.now ≡ indexed Side.Left rows.now.on.now rows.now.pick rows.now.left.now.new.rows }
    requires matched { AreMatched rows.now.on.now rows.now.pick rows.now.take.now rows.now.left.now rows.now.right.now (groups_of rows.now.index.now) rows.now.notes.now.notes }
    requires notes { rows.now.notes.now.notes ≡ told_notes rows.now.on.now rows.now.pick rows.now.left.now rows.now.right.now }
    ensures keys { IfOk result (λ set. (key : ℕ) → is_among key rows.now.left.now.update.added ≡ false → is_among key set ≡ is_among key (turned_keys rows.now.on.now rows.now.pick rows.now.take.now rows.now.left.now rows.now.right.now)) }
    ensures reads { reads.new ≤ reads.old + 2 * length rows.now.take.now * length rows.now.notes.now.notes }
{
    if rows.left.prev_rows().is_empty() {
        return Ok(RowSet::new(alloc));
    }
    let turned = turned_rows(
        alloc, rows.pick, rows.take, left_rows, rows.index, rows.right, rows.notes, reads,
    )?;
    RowSet::from_keys(alloc, turned)
}

/// The change of the join. It compares the left rows that are modified, and those for which a note speaks where other
/// cells are taken now.
fn matched_change<L: Ledger>(
    alloc: Global,
    rows: &MatchedRows<'_>,
    left_rows: &NumberedGroups,
    reads: &mut Steps<L>,
) -> Result<Change, AllocError>
    requires few { rows.now.left.now.new.width + length rows.now.take.now ≤ 32 }
    requires left_rows { groups_of left_rows.now ≡ indexed Side.Left rows.now.on.now rows.now.pick rows.now.left.now.new.rows }
    requires matched { AreMatched rows.now.on.now rows.now.pick rows.now.take.now rows.now.left.now rows.now.right.now (groups_of rows.now.index.now) rows.now.notes.now.notes }
    requires notes { rows.now.notes.now.notes ≡ told_notes rows.now.on.now rows.now.pick rows.now.left.now rows.now.right.now }
    ensures change { IfOk result (λ change. change ≡ change_of (matched_tick rows.now.on.now rows.now.pick rows.now.take.now (tick_of rows.now.left.now) (tick_of rows.now.right.now))) }
    ensures reads { reads.new ≤ reads.old
        + 2 * length rows.now.take.now * length rows.now.notes.now.notes
        + (rows.now.left.now.new.width + length rows.now.take.now)
        * (2 * (length rows.now.left.now.update.modified + length (between (matched_tick rows.now.on.now rows.now.pick rows.now.take.now (tick_of rows.now.left.now) (tick_of rows.now.right.now))).modified)
        + length rows.now.left.now.update.added) }
{
    let set = turned_set(alloc, rows, left_rows, reads)?;
    let update = rows.left.update();
    let touched = set.union(update.modified())?;
    let now = touched.minus(update.added())?;
    let before = update.keys_before(rows.left.prev_rows(), &now)?;
    let width = rows.left.width() + rows.take.len() as u32;
    mapped(alloc, rows, width, rows.left, before, now, reads)
}
