//! Which rows a pass and a message touch.

ghost use Rattle.std.specs.Prelude.{◌≡◌, ◌^◌, [], None, IfOk};
ghost use Rattle.row_changes.specs.Parts.{AreParts};
ghost use Rattle.table_update.specs.Coalesced.{key_pairs};
ghost use Rattle.tick_laws.specs.Checked.{keys_after};
ghost use Rattle.tick_model.specs.Rules.{update_fault};
ghost use Rattle.tick_model.specs.Tables.{keys};
ghost use Rattle.tick_model.specs.Updates.{both_in};
ghost use Rattle.viewport.specs.Passing.{passing};
ghost use Rattle.viewport.specs.Slices.{cut};
ghost use Rattle.viewport.specs.Standing.{IsStanding};

use crate::slice::Slice;
use row_changes::Touched;
use row_set::RowSet;
use shift_data::ShiftData;
use std::alloc::{AllocError, Global};
use table_update::{ColumnSet, Update};
use tick_table::TickTable;

/// What a step removes and moves of the rows that were kept since the last message, where `last` has the keys that they had
/// then.
pub(crate) fn step_of_kept(
    alloc: Global,
    last: &RowSet,
    kept: &Update,
    update: &Update,
) -> Result<Update, AllocError>
    requires { update_fault (2 ^ 62) last.now kept.now ≡ None }
    ensures { IfOk result (λ step. step ≡ passing (keys_after last.now kept.now) update.now) }
{
    let places = kept.after(last)?;
    Ok(Update {
        removed: update.removed().intersect(&places)?,
        added: RowSet::new(alloc),
        modified: RowSet::new(alloc),
        shifted: update.shifted().copy()?,
        columns: ColumnSet::none(),
    })
}

/// The rows of a message: of those that the last one left, which are in the slice still, and which others are now.
pub(crate) fn touched_rows(
    alloc: Global,
    slice: &Slice,
    last: &TickTable,
    kept: &Update,
    table: &TickTable,
) -> Result<Touched, AllocError>
    requires { IsStanding slice.now last.now.new table.now.new kept.now }
    ensures { IfOk result (λ touched. AreParts last.now.new (cut slice.now table.now.new) touched
        (both_in last.now.new (cut slice.now table.now.new) (key_pairs (keys last.now.new.rows) kept.now))) }
{
    let before = last.rows();
    let now = table.rows().by_positions(slice.first, slice.count as u64)?;
    let stayed = kept
        .shifted()
        .unapply_without(before, kept.removed(), &now)?;
    let stay = kept.shifted().apply(&stayed)?;
    Ok(Touched {
        removed: before.minus(&stayed)?,
        added: now.minus(&stay)?,
        shifted: ShiftData::of_pairs(alloc, &stayed, &stay)?,
        compared_before: stayed,
        compared_now: stay,
    })
}
