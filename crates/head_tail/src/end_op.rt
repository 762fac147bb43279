//! `head` and `tail`: the first rows of the input or the last, or all where there are fewer, under their keys.

ghost use Rattle.std.specs.Prelude.{◌≡◌, ◌+◌, ◌*◌, ◌≤◌, [], IfOk, OnErr};
ghost use Rattle.head_tail.specs.Ends.{end_table, ended};
ghost use Rattle.tick_model.specs.Changes.{change_of};
ghost use Rattle.tick_model.specs.Tables.{keys};
ghost use Rattle.tick_table.specs.Exact.{IsExact, counted, tick_of};

use crate::end::{AtEnd, AtFirst, AtLast};
use crate::end_rows::EndRows;
use row_set::RowSet;
use std::alloc::{AllocError, Global};
use std::marker::Model;
use std::sync::ledger::Ledger;
use tick_table::{Change, Steps, TickTable};

/// Shows the first rows of its input, or all where there are fewer. It stands for the rows that it saw last.
pub type HeadOp = EndOp<AtFirst>;

/// Shows the last rows of its input, or all where there are fewer. It stands for the rows that it saw last.
pub type TailOp = EndOp<AtLast>;

/// Shows the rows at one end of its input, or all where there are fewer. It stands for the rows that it saw last.
pub struct EndOp<E> {
    rows: EndRows<E>,
    /// The keys of the rows that it shows.
    shown: RowSet,
}

impl<E> Drop for EndOp<E> {
    fn drop(self) {
        let Self { rows: _, shown: _ } = self;
    }
}

impl<E> Model for EndOp<E> {
    ghost use Rattle.head_tail.specs.Ends.{Kept};

    ghost Value = { Kept };

    ghost view = { λ op. record { count = op.rows.count; width = op.rows.width; shown = op.shown } };
}

impl<E: AtEnd> EndOp<E> {
    /// An operator that has seen no rows, for an input of this width. It shows at most `rows` rows, which may be none.
    pub fn new(alloc: Global, rows: u32, width: u32) -> EndOp<E>
        ensures count { result.count ≡ rows }
        ensures width { result.width ≡ width }
        ensures shown { result.shown ≡ [] }
    {
        EndOp {
            rows: EndRows::new(rows, width),
            shown: RowSet::new(alloc),
        }
    }

    /// The operator after the step that the input shows, and the change of its rows. It must stand for the input's rows before
    /// the step; after a refusal it is given up, and no more is read than that change may take.
    pub fn step<L: Ledger>(
        self,
        alloc: Global,
        input: &TickTable,
        reads: &mut Steps<L>,
    ) -> Result<(EndOp<E>, Change), AllocError>
        requires exact { IsExact input.now }
        requires width { input.now.new.width ≡ self.width }
        requires stands { self.shown ≡ keys (end_table E.end self.count input.now.old).rows }
        ensures stands { IfOk result (λ out. out.0 ≡ record self { shown = keys (end_table E.end self.count input.now.new).rows }) }
        ensures change { IfOk result (λ out. out.1 ≡ change_of (ended E.end self.count (tick_of input.now))) }
        ensures reads { IfOk result (λ out. reads.new ≤ reads.old + 4 * (input.now.new.width + input.now.new.width) * (counted input.now.update + counted out.1.update)) }
        ensures refused { OnErr result (reads.new ≤ reads.old + 4 * (input.now.new.width + input.now.new.width) * (counted input.now.update + counted (change_of (ended E.end self.count (tick_of input.now))).update)) }
    {
        let EndOp { rows, shown } = self;
        let change = rows.change(alloc, input, &shown, reads)?;
        let shown = change.update.apply_to_keys(shown)?;
        Ok((EndOp { rows, shown }, change))
    }
}
