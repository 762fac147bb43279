//! Which rows of a merge a step touches.

ghost use Rattle.std.specs.Prelude.{◌≡◌, ℕ, ◌+◌, ◌-◌, ◌^◌, ◌<◌, ◌≤◌, ◌++◌, [], pos, ◌+ℤ◌, ◌-ℤ◌, length, map, sum_by, IfOk, OnOk};
ghost use Rattle.std.specs.List.{AllByRecursion};
ghost use Rattle.table_operator.specs.Inputs.{tables};
ghost use Rattle.merge_op.specs.Merged.{merged};
ghost use Rattle.merge_op.specs.Regions.{IsStart, room_before, starts_of};
ghost use Rattle.merge_op.specs.Steps.{IsStep};
ghost use Rattle.row_changes.specs.Parts.{AreParts};
ghost use Rattle.table_update.specs.Kept.{old_modified};
ghost use Rattle.tick_model.specs.Shifts.{delta_at};
ghost use Rattle.tick_model.specs.Tables.{keys};
ghost use Rattle.tick_model.specs.Updates.{IsTick};
ghost use Rattle.tick_table.specs.Exact.{IsExact};

use crate::shifts::put_shift;
use crate::starts::{Start, behind};
use row_changes::Touched;
use row_set::RowSet;
use shift_data::ShiftData;
use std::alloc::{AllocError, Global};
use tick_table::{Shared, TickTable};

/// Puts keys, each plus an offset, behind others.
fn put_keys(all: &mut RowSet, more: &RowSet, offset: u64) -> Result<(), AllocError>
    requires small { AllByRecursion (λ key. key + offset < 2 ^ 62) more.now }
    requires above { AllByRecursion (λ key. key < offset) all.old }
    ensures { OnOk result (all.new ≡ all.old ++ map (λ key. key + offset) more.now) }
{
    let _count = all.len();
    for range in more.ranges() {
        all.insert_range(range.first + offset, range.last + offset)?;
    }
    Ok(())
}

/// The rows that a step touches, put together input by input.
#[derive(Drop)]
struct MergedUpdate {
    removed: RowSet,
    added: RowSet,
    /// The modified rows, by their keys before the step and now.
    before: RowSet,
    now: RowSet,
    /// How the rows of all inputs move.
    shift: ShiftData,
}

impl MergedUpdate {
    fn new(alloc: Global) -> MergedUpdate
        ensures removed { result.removed ≡ [] }
        ensures added { result.added ≡ [] }
        ensures before { result.before ≡ [] }
        ensures now { result.now ≡ [] }
        ensures shift { result.shift ≡ [] }
    {
        MergedUpdate {
            removed: RowSet::new(alloc),
            added: RowSet::new(alloc),
            before: RowSet::new(alloc),
            now: RowSet::new(alloc),
            shift: ShiftData::new(alloc),
        }
    }

    /// Puts those of an input behind those of the inputs before it.
    fn put(&mut self, input: &TickTable, start: Start) -> Result<(), AllocError>
        requires exact { IsExact input.now }
        requires start { IsStart start }
        requires small_before { AllByRecursion (λ key. key + start.before < 2 ^ 62) (keys input.now.old.rows) }
        requires small_now { AllByRecursion (λ key. key + start.now < 2 ^ 62) (keys input.now.new.rows) }
        requires removed { AllByRecursion (λ key. key < start.before) self.old.removed }
        requires added { AllByRecursion (λ key. key < start.now) self.old.added }
        requires before { AllByRecursion (λ key. key < start.before) self.old.before }
        requires now { AllByRecursion (λ key. key < start.now) self.old.now }
        requires shift { AllByRecursion (λ range. range.end < start.before) self.old.shift }
        ensures removed { OnOk result (self.new.removed ≡ self.old.removed ++ map (λ key. key + start.before) input.now.update.removed) }
        ensures added { OnOk result (self.new.added ≡ self.old.added ++ map (λ key. key + start.now) input.now.update.added) }
        ensures before { OnOk result (self.new.before ≡ self.old.before ++ map (λ key. key + start.before) (old_modified (keys input.now.old.rows) input.now.update)) }
        ensures now { OnOk result (self.new.now ≡ self.old.now ++ map (λ key. key + start.now) input.now.update.modified) }
        ensures shift { OnOk result (AllByRecursion (λ range. range.end < start.before + room_before input.now) self.new.shift) }
        ensures earlier { OnOk result ((key : ℕ) → key < start.before → delta_at self.new.shift key ≡ delta_at self.old.shift key) }
        ensures moved { OnOk result ((key : ℕ) → start.before ≤ key → key < start.before + room_before input.now → key < 2 ^ 62
            → IsStep (delta_at input.now.update.shifted (key - start.before) +ℤ (pos start.now -ℤ pos start.before))
            → delta_at self.new.shift key ≡ delta_at input.now.update.shifted (key - start.before) +ℤ (pos start.now -ℤ pos start.before)) }
    {
        let update = input.update();
        put_keys(&mut self.removed, update.removed(), start.before)?;
        put_keys(&mut self.added, update.added(), start.now)?;
        let modified_before = update.modified_before(input.prev_rows())?;
        put_keys(&mut self.before, &modified_before, start.before)?;
        put_keys(&mut self.now, update.modified(), start.now)?;
        let end = behind(start, input).before;
        put_shift(&mut self.shift, update.shifted(), start, end)
    }
}

/// The rows that a step touches, where `shown` has the keys of the merged rows before it.
pub(crate) fn touched_rows(
    alloc: Global,
    inputs: &[Shared],
    shown: &RowSet,
) -> Result<Touched, AllocError>
    requires exact { AllByRecursion IsExact (tables inputs.now) }
    requires starts { AllByRecursion IsStart (starts_of 0 0 (tables inputs.now)) }
    requires tick { IsTick (merged (tables inputs.now)) }
    requires shown { shown.now ≡ keys (merged (tables inputs.now)).old.rows }
    ensures parts { IfOk result (λ touched. AreParts (merged (tables inputs.now)).old (merged (tables inputs.now)).new touched (merged (tables inputs.now)).kept) }
    ensures added { IfOk result (λ touched. length touched.added ≡ sum_by (λ input. length input.update.added) (tables inputs.now)) }
    ensures modified { IfOk result (λ touched. length touched.compared_now ≡ sum_by (λ input. length input.update.modified) (tables inputs.now)) }
{
    let mut gathered = MergedUpdate::new(alloc);
    let mut start = Start { before: 0, now: 0 };
    for input in inputs {
        gathered.put(input, start)?;
        start = behind(start, input);
    }
    let MergedUpdate {
        removed,
        added,
        before,
        now,
        shift,
    } = gathered;
    let shifted = shift.canonical_without(shown, &removed)?;
    Ok(Touched {
        removed,
        added,
        shifted,
        compared_before: before,
        compared_now: now,
    })
}
