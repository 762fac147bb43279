//! The cells of a group, with the greatest or the least at hand.

ghost use Rattle.std.specs.Prelude.{◌≡◌, nat_lt, vec_len};
ghost use Rattle.std.specs.BinaryHeap.{heap_items, heap_len};
ghost use Rattle.agg_by.specs.Values.{IsAmong, IsKept, IsSettled, count, greatest as greatest_of, in_order, last as last_of, least as least_of, left, opposite as opposite_of, placed, top, unplaced};

use crate::by_number::OfCells;
use std::alloc::{AllocError, Global};
use std::collections::BinaryHeap;
use std::marker::Model;
use std::mem;
use tick_model::formula::NULL;

/// So many cells that have gone may wait in any heap.
const FEW: usize = 64;

/// The cells of a group that hold something, with the greatest at hand. A cell that goes waits until it is the greatest, so
/// that one comes or goes at the cost of a logarithm.
#[derive(Drop)]
pub struct Values {
    alloc: Global,
    /// The cells, and those that have gone and wait.
    live: BinaryHeap<i64>,
    /// The cells that have gone and wait.
    gone: BinaryHeap<i64>,
}

impl Model for Values {
    ghost use Rattle.std.specs.Prelude.{List, ℤ};
    ghost use Rattle.std.specs.BinaryHeap.{heap_items};
    ghost use Rattle.agg_by.specs.Values.{IsSettled, left};

    ghost Value = { List ℤ };

    ghost view = { λ values. left (heap_items values.live) (heap_items values.gone) };

    ghost invariant = { λ values. IsSettled (heap_items values.live) (heap_items values.gone) };
}

impl Values {
    /// The greatest cell.
    fn last(&self) -> Option<i64>
        ensures { result ≡ last_of self.now }
    {
        self.live.peek().copied()
    }

    /// The greatest cell, or null.
    pub(crate) fn greatest(&self) -> i64
        ensures { result ≡ greatest_of self.now }
    {
        self.last().unwrap_or(NULL)
    }

    /// Takes the cells out that have gone, where they are many and there is memory for the others.
    fn tidy(&mut self)
        ensures { self.new ≡ self.old }
    {
        if self.gone.len() <= FEW || self.gone.len() <= self.live.len() / 2 {
            return;
        }
        let Ok(others) = BinaryHeap::with_capacity(self.alloc, self.live.len()) else {
            return;
        };
        let mut live = ascending(mem::replace(&mut self.live, others));
        let mut gone = ascending(mem::replace(&mut self.gone, BinaryHeap::new(self.alloc)));
        // The greatest come first, so that none moves in the heap.
        while let Some(cell) = live.pop() {
            if gone.last() == Some(&cell) {
                let _ = gone.pop();
            } else {
                let _ = self.live.push(cell);
            }
        }
    }
}

/// The cells of a heap in order.
fn ascending(cells: BinaryHeap<i64>) -> Vec<i64>
    ensures cells { result.items ≡ in_order (heap_items cells) }
    ensures len { vec_len result ≡ heap_len cells }
{
    let mut cells = cells.into_vec();
    cells.sort_unstable();
    cells
}

/// Takes the greatest of the live cells out while it is one that has gone.
fn settle(live: &mut BinaryHeap<i64>, gone: &mut BinaryHeap<i64>)
    requires { IsKept (heap_items live.old) (heap_items gone.old) }
    ensures settled { IsSettled (heap_items live.new) (heap_items gone.new) }
    ensures left { left (heap_items live.new) (heap_items gone.new) ≡ left (heap_items live.old) (heap_items gone.old) }
{
    while has_greatest_gone(live, gone) {
        let _ = live.pop();
        let _ = gone.pop();
    }
}

/// Whether the greatest of the live cells has gone.
fn has_greatest_gone(live: &BinaryHeap<i64>, gone: &BinaryHeap<i64>) -> bool
    requires { IsKept (heap_items live.now) (heap_items gone.now) }
    ensures { result ≡ nat_lt 0 (count (top (heap_items live.now)) (heap_items gone.now)) }
{
    match (live.peek(), gone.peek()) {
        (Some(cell), Some(other)) => cell == other,
        _ => false,
    }
}

impl OfCells for Values {
    ghost use Rattle.std.specs.Prelude.{[]};

    ghost none = { [] };

    ghost with_cell = { placed };

    ghost without_cell = { unplaced };

    ghost has_cell = { IsAmong };

    fn new(alloc: Global) -> Values {
        Values {
            alloc,
            live: BinaryHeap::new(alloc),
            gone: BinaryHeap::new(alloc),
        }
    }

    fn put(&mut self, value: i64) -> Result<(), AllocError> {
        self.live.push(value)?;
        Ok(())
    }

    fn take(&mut self, value: i64) -> Result<(), AllocError> {
        self.gone.push(value)?;
        settle(&mut self.live, &mut self.gone);
        self.tidy();
        Ok(())
    }
}

/// The opposite of a cell. It never wraps.
fn opposite(value: i64) -> i64
    ensures { result ≡ opposite_of value }
{
    -1 - value
}

/// The cells of a group that hold something, with the least at hand, which has the greatest opposite.
#[derive(Drop)]
pub struct Opposites {
    opposites: Values,
}

impl Model for Opposites {
    ghost use Rattle.std.specs.Prelude.{List, ℤ};

    ghost Value = { List ℤ };

    ghost view = { λ least. least.opposites };
}

impl Opposites {
    /// The least cell, or null.
    pub(crate) fn least(&self) -> i64
        ensures { result ≡ least_of self.now }
    {
        self.opposites.last().map_or(NULL, opposite)
    }
}

impl OfCells for Opposites {
    ghost use Rattle.std.specs.Prelude.{[]};

    ghost none = { [] };

    ghost with_cell = { λ value. placed (opposite_of value) };

    ghost without_cell = { λ value. unplaced (opposite_of value) };

    ghost has_cell = { λ value. IsAmong (opposite_of value) };

    fn new(alloc: Global) -> Opposites {
        Opposites {
            opposites: Values::new(alloc),
        }
    }

    fn put(&mut self, value: i64) -> Result<(), AllocError> {
        self.opposites.put(opposite(value))
    }

    fn take(&mut self, value: i64) -> Result<(), AllocError> {
        self.opposites.take(opposite(value))
    }
}
