//! The operator without the keys of its rows.

ghost use Rattle.std.specs.Prelude.{◌≡◌, ◌+◌, ◌*◌, ◌^◌, ◌<◌, ◌≤◌, length, IfErr, IfOk, OnErr, OnOk};
ghost use Rattle.std.specs.List.{AllByRecursion};
ghost use Rattle.table_operator.specs.Inputs.{counted_in, tables};
ghost use Rattle.merge_op.specs.Merged.{merged, rows_in};
ghost use Rattle.tick_model.specs.Changes.{change_of};
ghost use Rattle.tick_model.specs.Tables.{keys};
ghost use Rattle.tick_model.specs.Updates.{IsTick};
ghost use Rattle.tick_table.specs.Exact.{IsExact, counted};

use crate::fault::MergeFault;
use crate::rows::MergedRows;
use crate::touching::touched_rows;
use row_changes::change_of_touched;
use row_set::RowSet;
use std::alloc::{AllocError, Global};
use std::marker::Model;
use std::sync::ledger::Ledger;
use tick_model::limits::MOST_ROWS;
use tick_table::{Change, Shared, Steps};

/// Puts the rows of its inputs one after the other. It keeps nothing of the rows that it saw.
#[derive(Drop)]
pub struct Merge {
    count: u32,
    width: u32,
}

impl Model for Merge {
    ghost use Rattle.std.specs.Prelude.{◌≤◌};
    ghost use Rattle.merge_op.specs.Merged.{Merging};

    ghost Value = { Merging };

    ghost view = { λ merge. record { count = merge.count; width = merge.width } };

    ghost invariant = { λ merge. (2 ≤ merge.count) × (merge.count ≤ 16) × (merge.width ≤ 32) };
}

/// How many rows the inputs have together.
fn rows_of(inputs: &[Shared]) -> u64
    requires count { length inputs.now ≤ 16 }
    requires few { AllByRecursion (λ input. length input.new.rows ≤ 4194304) (tables inputs.now) }
    ensures { result ≡ rows_in (tables inputs.now) }
{
    let mut total = 0;
    for input in inputs {
        let count = input.rows().len();
        total += count;
    }
    total
}

impl Merge {
    /// An operator for so many inputs of this width.
    pub fn new(count: u32, width: u32) -> Merge
        requires some { 2 ≤ count }
        requires few { count ≤ 16 }
        requires wide { width ≤ 32 }
        ensures count { result.count ≡ count }
        ensures width { result.width ≡ width }
    {
        Merge { count, width }
    }

    /// The change of its rows in the step that the inputs show, where `shown` has the keys of the merged rows before it. Where
    /// it is refused, no more is read than that change may take. It is refused where the inputs together have more than
    /// 4,194,304 rows.
    pub fn change<L: Ledger>(
        &self,
        alloc: Global,
        inputs: &[Shared],
        shown: &RowSet,
        reads: &mut Steps<L>,
    ) -> Result<Change, MergeFault>
        requires count { length inputs.now ≡ self.now.count }
        requires exact { AllByRecursion IsExact (tables inputs.now) }
        requires widths { AllByRecursion (λ input. input.new.width ≡ self.now.width) (tables inputs.now) }
        requires rows { AllByRecursion (λ input. length input.new.rows ≤ 4194304) (tables inputs.now) }
        requires keys { AllByRecursion (λ key. key < 2 ^ 62) (keys (merged (tables inputs.now)).new.rows) }
        requires shown { shown.now ≡ keys (merged (tables inputs.now)).old.rows }
        ensures tick { OnOk result (IsTick (merged (tables inputs.now))) }
        ensures change { IfOk result (λ change. change ≡ change_of (merged (tables inputs.now))) }
        ensures reads { IfOk result (λ change. reads.new ≤ reads.old + 4 * (self.now.count * self.now.width + self.now.width) * (counted_in (tables inputs.now) + counted change.update)) }
        ensures refused { OnErr result (reads.new ≤ reads.old + 4 * (self.now.count * self.now.width + self.now.width) * (counted_in (tables inputs.now) + counted (change_of (merged (tables inputs.now))).update)) }
        ensures too_many { 4194304 < rows_in (tables inputs.now) → result ≡ Err (MergeFault.TooManyRows (rows_in (tables inputs.now))) }
        ensures fault { rows_in (tables inputs.now) ≤ 4194304 → IfErr result (λ fault. fault ≡ MergeFault.Memory) }
    {
        let width = self.width;
        let rows = rows_of(inputs);
        if rows > u64::from(MOST_ROWS) {
            return Err(MergeFault::TooManyRows { rows });
        }
        let _count = shown.len();
        let touched = touched_rows(alloc, inputs, shown)?;
        let merged = MergedRows { inputs, width };
        Ok(change_of_touched(alloc, &merged, width, touched, reads)?)
    }
}
