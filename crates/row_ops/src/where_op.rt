//! `where`: the rows of the input that pass a test, under their keys.

ghost use Rattle.std.specs.Prelude.{◌≡◌, ◌+◌, ◌*◌, ◌≤◌, [], IfOk, OnErr};
ghost use Rattle.row_ops.specs.Filter.{filtered};
ghost use Rattle.tick_model.specs.Changes.{change_of};
ghost use Rattle.tick_model.specs.Formulas.{IsTestWithin};
ghost use Rattle.tick_model.specs.Tables.{keys};
ghost use Rattle.tick_model.specs.Where.{where_table};
ghost use Rattle.tick_table.specs.Exact.{IsExact, counted, tick_of};

use crate::row_filter::RowFilter;
use row_set::RowSet;
use std::alloc::{AllocError, Global};
use std::marker::Model;
use std::sync::ledger::Ledger;
use tick_model::plan::Pred;
use tick_table::{Change, Steps, TickTable};

/// Shows the rows of its input that pass a test. It stands for the rows that it saw last.
#[derive(Drop)]
pub struct WhereOp {
    filter: RowFilter,
    /// The keys of the rows that pass.
    shown: RowSet,
}

impl Model for WhereOp {
    ghost use Rattle.row_ops.specs.Filter.{Filter};
    ghost use Rattle.std.specs.Coded.{codes};
    ghost use Rattle.tick_model.specs.contracts.plan.Pred as pred_type;

    ghost Value = { Filter };

    ghost coded = { Prim.hlevel (codes, pred_type.the_row.coded) };

    ghost view = { λ op. record { test = op.filter.test; width = op.filter.width; shown = op.shown } };
}

impl WhereOp {
    /// An operator that has seen no rows, for an input of this width.
    pub fn new(alloc: Global, test: Pred, width: u32) -> WhereOp
        requires { IsTestWithin width test }
        ensures test { result.test ≡ test }
        ensures width { result.width ≡ width }
        ensures shown { result.shown ≡ [] }
    {
        WhereOp {
            filter: RowFilter::new(test, width),
            shown: RowSet::new(alloc),
        }
    }

    /// The operator after the step that the input shows, and the change of its rows. It must stand for the input's rows before
    /// the step; after a refusal it is given up, and no more is read than that change may take.
    pub fn step<L: Ledger>(
        self,
        alloc: Global,
        input: &TickTable,
        reads: &mut Steps<L>,
    ) -> Result<(WhereOp, Change), AllocError>
        requires exact { IsExact input.now }
        requires width { input.now.new.width ≡ self.width }
        requires stands { self.shown ≡ keys (where_table self.test input.now.old).rows }
        ensures stands { IfOk result (λ out. out.0 ≡ record self { shown = keys (where_table self.test input.now.new).rows }) }
        ensures change { IfOk result (λ out. out.1 ≡ change_of (filtered self.test (tick_of input.now))) }
        ensures reads { IfOk result (λ out. reads.new ≤ reads.old + 4 * (input.now.new.width + input.now.new.width) * (counted input.now.update + counted out.1.update)) }
        ensures refused { OnErr result (reads.new ≤ reads.old + 4 * (input.now.new.width + input.now.new.width) * (counted input.now.update + counted (change_of (filtered self.test (tick_of input.now))).update)) }
    {
        let WhereOp { filter, shown } = self;
        let change = filter.change(alloc, input, &shown, reads)?;
        let shown = change.update.apply_to_keys(shown)?;
        Ok((WhereOp { filter, shown }, change))
    }
}
