//! A merge with the keys of its rows.

ghost use Rattle.std.specs.Prelude.{◌≡◌, ◌+◌, ◌*◌, ◌^◌, ◌<◌, ◌≤◌, [], length, IfErr, IfOk, OnErr};
ghost use Rattle.std.specs.List.{AllByRecursion};
ghost use Rattle.table_operator.specs.Inputs.{counted_in, tables};
ghost use Rattle.merge_op.specs.Merged.{merged, rows_in};
ghost use Rattle.tick_model.specs.Changes.{change_of};
ghost use Rattle.tick_model.specs.Tables.{keys};
ghost use Rattle.tick_table.specs.Exact.{IsExact, counted};

use crate::fault::MergeFault;
use crate::merging::Merge;
use row_set::RowSet;
use std::alloc::{AllocError, Global};
use std::marker::Model;
use std::sync::ledger::Ledger;
use tick_table::{Change, Shared, Steps};

/// Puts the rows of its inputs one after the other. It stands for the rows that it saw last.
#[derive(Drop)]
pub struct MergeOp {
    merge: Merge,
    /// The keys of the merged rows.
    shown: RowSet,
}

impl Model for MergeOp {
    ghost use Rattle.merge_op.specs.Merged.{Merger};

    ghost Value = { Merger };

    ghost view = { λ op. record { count = op.merge.count; width = op.merge.width; shown = op.shown } };
}

impl MergeOp {
    /// An operator that has seen no rows, for so many inputs of this width.
    pub fn new(alloc: Global, count: u32, width: u32) -> Result<MergeOp, AllocError>
        requires some { 2 ≤ count }
        requires few { count ≤ 16 }
        requires wide { width ≤ 32 }
        ensures count { IfOk result (λ merge. merge.count ≡ count) }
        ensures width { IfOk result (λ merge. merge.width ≡ width) }
        ensures shown { IfOk result (λ merge. merge.shown ≡ []) }
    {
        Ok(MergeOp {
            merge: Merge::new(count, width),
            shown: RowSet::new(alloc),
        })
    }

    /// The operator after the step that the inputs show, and the change of its rows. It must stand for the inputs' rows before
    /// the step; after a refusal it is given up, and no more is read than that change may take. It is refused where the inputs
    /// together have more than 4,194,304 rows.
    pub fn step<L: Ledger>(
        self,
        alloc: Global,
        inputs: &[Shared],
        reads: &mut Steps<L>,
    ) -> Result<(MergeOp, Change), MergeFault>
        requires count { length inputs.now ≡ self.count }
        requires exact { AllByRecursion IsExact (tables inputs.now) }
        requires widths { AllByRecursion (λ input. input.new.width ≡ self.width) (tables inputs.now) }
        requires rows { AllByRecursion (λ input. length input.new.rows ≤ 4194304) (tables inputs.now) }
        requires keys { AllByRecursion (λ key. key < 2 ^ 62) (keys (merged (tables inputs.now)).new.rows) }
        requires stands { self.shown ≡ keys (merged (tables inputs.now)).old.rows }
        ensures stands { IfOk result (λ out. out.0 ≡ record self { shown = keys (merged (tables inputs.now)).new.rows }) }
        ensures change { IfOk result (λ out. out.1 ≡ change_of (merged (tables inputs.now))) }
        ensures reads { IfOk result (λ out. reads.new ≤ reads.old + 4 * (self.count * self.width + self.width) * (counted_in (tables inputs.now) + counted out.1.update)) }
        ensures refused { OnErr result (reads.new ≤ reads.old + 4 * (self.count * self.width + self.width) * (counted_in (tables inputs.now) + counted (change_of (merged (tables inputs.now))).update)) }
        ensures too_many { 4194304 < rows_in (tables inputs.now) → result ≡ Err (MergeFault.TooManyRows (rows_in (tables inputs.now))) }
        ensures fault { rows_in (tables inputs.now) ≤ 4194304 → IfErr result (λ fault. fault ≡ MergeFault.Memory) }
    {
        let MergeOp { merge, shown } = self;
        let change = merge.change(alloc, inputs, &shown, reads)?;
        let shown = change.update.apply_to_keys(shown)?;
        Ok((MergeOp { merge, shown }, change))
    }
}
