//! Which rows of the input pass a test, by those that passed before.
//!
//! A row comes where it is added and passes, or is modified and passes now and did not before; it goes where it is removed and
//! passed, or is modified and passes no more. Every other row that is shown stays, and is modified where the input's is.

ghost use Rattle.std.specs.Prelude.{◌≡◌, ◌+◌, ◌*◌, ◌≤◌, IfOk, OnErr};
ghost use Rattle.row_ops.specs.Filter.{filtered};
ghost use Rattle.tick_model.specs.Changes.{change_of};
ghost use Rattle.tick_model.specs.Formulas.{IsTestWithin};
ghost use Rattle.tick_model.specs.Tables.{keys};
ghost use Rattle.tick_model.specs.Where.{where_table};
ghost use Rattle.tick_table.specs.Exact.{IsExact, counted, tick_of};

use crate::crossing::crossing_rows;
use row_set::RowSet;
use shown_rows::{Chooses, shown_change};
use std::alloc::{AllocError, Global};
use std::marker::Model;
use std::sync::ledger::Ledger;
use tick_model::plan::Pred;
use tick_table::{Change, Steps, TickTable};

/// Shows the rows of its input that pass a test. It keeps nothing of the rows that it saw.
#[derive(Drop)]
pub struct RowFilter {
    test: Pred,
    width: u32,
}

impl Model for RowFilter {
    ghost use Rattle.row_ops.specs.Filter.{RowTest};
    ghost use Rattle.std.specs.Coded.{codes};
    ghost use Rattle.tick_model.specs.contracts.plan.Pred as pred_type;
    ghost use Rattle.tick_model.specs.Formulas.{IsTestWithin};

    ghost Value = { RowTest };

    ghost coded = { Prim.hlevel (codes, pred_type.the_row.coded) };

    ghost view = { λ filter. record { test = filter.test; width = filter.width } };

    ghost invariant = { λ filter. IsTestWithin filter.width filter.test };
}

impl Chooses for RowFilter {
    ghost use Rattle.tick_model.specs.Where.{where_table};

    ghost chosen = { λ filter. where_table filter.test };
}

impl RowFilter {
    /// An operator for an input of this width.
    pub fn new(test: Pred, width: u32) -> RowFilter
        requires { IsTestWithin width test }
        ensures test { result.test ≡ test }
        ensures width { result.width ≡ width }
    {
        RowFilter { test, width }
    }

    /// The change of its rows in the step that the input shows, where `shown` has the keys of those that passed before it. Where
    /// it is refused, no more is read than that change may take.
    pub fn change<L: Ledger>(
        &self,
        alloc: Global,
        input: &TickTable,
        shown: &RowSet,
        reads: &mut Steps<L>,
    ) -> Result<Change, AllocError>
        requires exact { IsExact input.now }
        requires width { input.now.new.width ≡ self.now.width }
        requires shown { shown.now ≡ keys (where_table self.now.test input.now.old).rows }
        ensures change { IfOk result (λ change. change ≡ change_of (filtered self.now.test (tick_of input.now))) }
        ensures reads { IfOk result (λ change. reads.new ≤ reads.old + 4 * (input.now.new.width + input.now.new.width) * (counted input.now.update + counted change.update)) }
        ensures refused { OnErr result (reads.new ≤ reads.old + 4 * (input.now.new.width + input.now.new.width) * (counted input.now.update + counted (change_of (filtered self.now.test (tick_of input.now))).update)) }
    {
        let crossing = crossing_rows(alloc, &self.test, input, shown, reads)?;
        shown_change(
            alloc,
            self,
            input,
            shown,
            crossing.leaving,
            crossing.coming,
            reads,
        )
    }
}
