//! The store itself.

ghost use Rattle.std.specs.Prelude.{◌≡◌, ◌%◌, ◌^◌, ◌<◌};
ghost use Rattle.snapshot_store.specs.Lines.{count, spot};

use crate::board::Board;
use crate::layout::Layout;
use std::marker::Model;
use std::sync::atomic::AtomicU64;

/// The words of the published tables of one run, which callers and the writer share. Contracts see the words by their
/// identity, and the run, whose name they alone keep.
#[derive(Drop)]
pub struct Store {
    pub(crate) board: Board,
    pub(crate) layout: Layout,
    /// How many callers sleep until the turn is given back, or are about to.
    pub(crate) sleepers: AtomicU64,
}

impl Model for Store {
    ghost use Rattle.snapshot_store.specs.Models.{StoreModel, IsStore};
    ghost use Rattle.std.specs.Coded.{codes};
    ghost use Rattle.tick_model.specs.contracts.plan.Expr as expr;
    ghost use Rattle.tick_model.specs.contracts.plan.Pred as pred;

    ghost Value = { StoreModel };

    ghost coded = { Prim.hlevel (codes, expr.the_row.coded, pred.the_row.coded) };

    ghost view = { λ s. record { table = s.board.shared.table_id; run = s.board.shared.key.value } };

    ghost invariant = { λ s. IsStore s.board.shared.table_id s.board.shared.key.value s.layout };
}

impl Store {
    /// The first word of a table in the bank of a step.
    pub(crate) fn first_word(&self, step: u64, number: u32) -> usize
        requires { number < count self.now.run }
        ensures value { result ≡ spot self.now.run (step % 2) number 0 }
        ensures small { result < 2 ^ 22 }
    {
        let bank = (step % 2) as usize;
        2 + bank * self.layout.bank() + self.layout.start(number)
    }
}
