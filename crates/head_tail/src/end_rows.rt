//! Which rows stand at one end of the input, or all where there are fewer.
//!
//! A row that is shown leaves where it is removed, or where rows that come between it and the end push it out; where rows
//! between it and the end go, the ones beyond come in. Every other row that is shown stays, and is modified where the input's is.

ghost use Rattle.std.specs.Prelude.{◌≡◌, ◌+◌, ◌*◌, ◌≤◌, IfOk, OnErr};
ghost use Rattle.head_tail.specs.Ends.{end_table, ended};
ghost use Rattle.tick_model.specs.Changes.{change_of};
ghost use Rattle.tick_model.specs.Tables.{keys};
ghost use Rattle.tick_table.specs.Exact.{IsExact, counted, tick_of};

use crate::crossing::crossing_at;
use crate::end::AtEnd;
use row_set::RowSet;
use shown_rows::{Chooses, shown_change};
use std::alloc::{AllocError, Global};
use std::marker::{Model, PhantomData};
use std::sync::ledger::Ledger;
use tick_table::{Change, Steps, TickTable};

/// Shows the rows at one end of its input, or all where there are fewer. It keeps nothing of the rows that it saw.
pub struct EndRows<E> {
    /// How many rows it shows at most.
    count: u32,
    width: u32,
    at: PhantomData<E>,
}

impl<E> Drop for EndRows<E> {
    fn drop(self) {
        let Self {
            count: _,
            width: _,
            at: _,
        } = self;
    }
}

impl<E> Model for EndRows<E> {
    ghost use Rattle.head_tail.specs.Ends.{Limit};

    ghost Value = { Limit };

    ghost view = { λ rows. record { count = rows.count; width = rows.width } };
}

impl<E: AtEnd> Chooses for EndRows<E> {
    ghost use Rattle.head_tail.specs.Ends.{end_table};

    ghost chosen = { λ rows. end_table E.end rows.count };
}

impl<E: AtEnd> EndRows<E> {
    /// An operator for an input of this width. It shows at most `rows` rows, which may be none.
    pub fn new(rows: u32, width: u32) -> EndRows<E>
        ensures count { result.count ≡ rows }
        ensures width { result.width ≡ width }
    {
        EndRows {
            count: rows,
            width,
            at: PhantomData,
        }
    }

    /// The change of its rows in the step that the input shows, where `shown` has the keys of those that it showed before it.
    /// Where it is refused, no more is read than that change may take.
    pub fn change<L: Ledger>(
        &self,
        alloc: Global,
        input: &TickTable,
        shown: &RowSet,
        reads: &mut Steps<L>,
    ) -> Result<Change, AllocError>
        requires exact { IsExact input.now }
        requires shown { shown.now ≡ keys (end_table E.end self.now.count input.now.old).rows }
        ensures change { IfOk result (λ change. change ≡ change_of (ended E.end self.now.count (tick_of input.now))) }
        ensures reads { IfOk result (λ change. reads.new ≤ reads.old + 4 * (input.now.new.width + input.now.new.width) * (counted input.now.update + counted change.update)) }
        ensures refused { OnErr result (reads.new ≤ reads.old + 4 * (input.now.new.width + input.now.new.width) * (counted input.now.update + counted (change_of (ended E.end self.now.count (tick_of input.now))).update)) }
    {
        let crossing = crossing_at(E::end(), input, self.count as u64)?;
        shown_change(
            alloc,
            self,
            input,
            shown,
            crossing.leaving,
            crossing.coming,
            reads,
        )
    }
}
