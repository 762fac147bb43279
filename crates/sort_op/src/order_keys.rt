//! The keys of rows in order, which are read from the first on.

ghost use Rattle.std.specs.Prelude.{◌≡◌};
ghost use Rattle.sort_op.specs.Places.{key_at};
ghost use Rattle.sort_op.specs.Ranks.{listed};

use crate::row_order::RowOrder;
use row_handles::Handle;
use std::marker::Model;

/// Gives the keys of the rows at positions in an order: those that lie side by side with the row before are at hand. A contract
/// sees the order.
#[derive(Drop)]
pub(crate) struct OrderKeys<'a> {
    order: &'a RowOrder,
    /// The position of the first row of the run.
    first: usize,
    /// The handles of rows that stand one behind the other.
    run: &'a [Handle],
}

impl<'a> Model for OrderKeys<'a> {
    ghost use Rattle.sort_op.specs.Places.{IsRun};
    ghost use Rattle.sort_op.specs.Ranks.{IsRanking, Ranking};

    ghost Value = { Ranking };

    ghost view = { λ keys. keys.order.now };

    ghost invariant = { λ keys. IsRanking keys.order.now × IsRun keys.order.now.rows keys.first keys.run.now };
}

impl<'a> OrderKeys<'a> {
    /// The keys of the rows of this order.
    pub(crate) fn of(order: &'a RowOrder) -> OrderKeys<'a>
        ensures { result ≡ order.now }
    {
        OrderKeys {
            order,
            first: 0,
            run: order.run_at(0),
        }
    }

    /// The key of the row at a position, or 0 past the end.
    pub(crate) fn key_at(&mut self, position: u64) -> u64
        ensures same { self.new ≡ self.old }
        ensures key { result ≡ key_at (listed self.old) position }
    {
        let position = position as usize;
        if self.first <= position && position - self.first < self.run.len() {
            return self.order.key_of(self.run[position - self.first]);
        }
        self.run = self.order.run_at(position);
        self.first = position;
        match self.run.first() {
            Some(handle) => self.order.key_of(*handle),
            None => 0,
        }
    }
}
