//! The numbers of a made run, and rows that are made of them.

ghost use Rattle.std.specs.Prelude.{◌≡◌, ◌<◌, ◌≤◌, ◌+◌, ◌*◌, ◌^◌, ◌++◌, ◌∷◌, [], length, IfOk, OnOk, pos};
ghost use Rattle.std.specs.List.{AllByRecursion};
ghost use Rattle.made_run.specs.Draws.{after, draw, drawn_row as row_of, drawn_rows as rows_of, next};

use std::alloc::{AllocError, Global};
use tick_model::row_list::RowList;

const FACTOR: u64 = 6_364_136_223_846_793_005;

const SUMMAND: u64 = 1_442_695_040_888_963_407;

/// A number is made of a state without its lowest 33 bits.
const SCALE: u64 = 1 << 33;

/// A sequence of numbers, the same for each run.
#[derive(Drop)]
pub struct Draws {
    state: u64,
}

impl Draws {
    /// The sequence from its start on.
    pub fn new() -> Draws
        ensures { result.state ≡ 1 }
    {
        Draws { state: 1 }
    }

    /// The next number, below a limit.
    pub fn below(&mut self, limit: u64) -> u64
        requires { 0 < limit }
        ensures value { result ≡ draw limit self.old.state }
        ensures below { result < limit }
        ensures state { self.new.state ≡ next self.old.state }
    {
        self.state = self.state.wrapping_mul(FACTOR).wrapping_add(SUMMAND);
        self.state / SCALE % limit
    }

    /// The next number as a cell: one of so many from a first on.
    fn cell(&mut self, first: u32, count: u32) -> i64
        requires { 0 < count }
        ensures value { result ≡ pos (first + draw count self.old.state) }
        ensures state { self.new.state ≡ next self.old.state }
    {
        let number = self.below(u64::from(count));
        (u64::from(first) + number) as i64
    }
}

/// Puts a row of `trades` under a key behind others.
#[tactic(auto, unfolding(crate::specs::Draws::after))]
pub fn put_drawn_row(rows: &mut RowList, key: u64, draws: &mut Draws) -> Result<(), AllocError>
    requires { AllByRecursion (λ row. length row.cells ≡ 4) rows.old }
    ensures row { OnOk result (rows.new ≡ rows.old ++ row_of key draws.old.state ∷ []) }
    ensures state { draws.new.state ≡ after 4 draws.old.state }
{
    let symbol = draws.cell(0, 8);
    let side = draws.cell(0, 2);
    let quantity = draws.cell(1, 100);
    let price = draws.cell(1, 1000);
    rows.push(key, &[symbol, side, quantity, price])
}

/// Rows of `trades` under the keys from the first on.
pub fn drawn_rows(
    alloc: Global,
    first: u64,
    count: usize,
    draws: &mut Draws,
) -> Result<RowList, AllocError>
    requires { first + count < 2 ^ 64 }
    ensures rows { IfOk result (λ rows. rows ≡ rows_of first count draws.old.state) }
    ensures state { IfOk result (λ rows. draws.new.state ≡ after (4 * count) draws.old.state) }
{
    let mut rows = RowList::new(alloc);
    for i in 0..count {
        put_drawn_row(&mut rows, first + i as u64, draws)?;
    }
    Ok(rows)
}
