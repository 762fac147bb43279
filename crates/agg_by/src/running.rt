//! What answers an aggregate of a group without a walk over its rows.

ghost use Rattle.std.specs.Prelude.{◌≡◌, ◌<◌, ◌≤◌, ◌+◌, ◌++◌, ◌^◌, [], ℕ, List, length, map, IfOk, IsTrue, OnOk};
ghost use Rattle.std.specs.List.{AllByRecursion};
ghost use Rattle.std.specs.Option.{ForSome};
ghost use Rattle.agg_by.specs.Answers.{HasRow, IsWithin, answer, cell_of, with_row, without_row};
ghost use Rattle.agg_by.specs.Kept.{AnswerAll, Answers, agg_of};
ghost use Rattle.key_lists.specs.Keys.{is_among};
ghost use Rattle.row_groups.specs.Members.{Names, keys_of};
ghost use Rattle.tick_model.specs.Tables.{keys};

use crate::by_number::ByNumber;
use crate::sums::Total;
use crate::values::{Opposites, Values};
use row_groups::Group;
use std::alloc::{AllocError, Global};
use std::sync::ledger::Ledger;
use tick_model::cells::cell;
use tick_model::formula::NULL;
use tick_model::plan::Agg;
use tick_table::{Steps, TickTable};

/// An aggregate with what is kept for it besides the rows by their groups.
#[derive(Drop)]
pub enum Accumulator {
    Count,
    /// The sum of the column in each group.
    Sum(u32, ByNumber<Total>),
    /// The cells of the column in each group, by their opposites.
    Min(u32, ByNumber<Opposites>),
    /// The cells of the column in each group.
    Max(u32, ByNumber<Values>),
    First(u32),
    Last(u32),
}

impl Accumulator {
    /// What is kept for an aggregate of no rows.
    pub(crate) fn new(alloc: Global, agg: Agg) -> Accumulator
        ensures agg { agg_of result ≡ agg }
        ensures answers { (by : List ℕ) (names : Names) → Answers by names [] result }
    {
        match agg {
            Agg::Count => Accumulator::Count,
            Agg::Sum(column) => Accumulator::Sum(column, ByNumber::new(alloc)),
            Agg::Min(column) => Accumulator::Min(column, ByNumber::new(alloc)),
            Agg::Max(column) => Accumulator::Max(column, ByNumber::new(alloc)),
            Agg::First(column) => Accumulator::First(column),
            Agg::Last(column) => Accumulator::Last(column),
        }
    }

    /// Takes a row out of the group with a number.
    pub(crate) fn take(&mut self, number: usize, row: &[i64]) -> Result<(), AllocError>
        requires { HasRow number row.now self.old }
        ensures { OnOk result (self.new ≡ without_row number row.now self.old) }
    {
        match self {
            Accumulator::Sum(column, sums) => sums.take(number, cell(row, *column)),
            Accumulator::Min(column, values) => values.take(number, cell(row, *column)),
            Accumulator::Max(column, values) => values.take(number, cell(row, *column)),
            Accumulator::Count | Accumulator::First(_) | Accumulator::Last(_) => Ok(()),
        }
    }

    /// Puts a row into the group with a number.
    pub(crate) fn put(&mut self, number: usize, row: &[i64]) -> Result<(), AllocError>
        ensures { OnOk result (self.new ≡ with_row number row.now self.old) }
    {
        match self {
            Accumulator::Sum(column, sums) => sums.put(number, cell(row, *column)),
            Accumulator::Min(column, values) => values.put(number, cell(row, *column)),
            Accumulator::Max(column, values) => values.put(number, cell(row, *column)),
            Accumulator::Count | Accumulator::First(_) | Accumulator::Last(_) => Ok(()),
        }
    }

    /// What the aggregate says of the group with a number, whose rows are these.
    pub(crate) fn value<L: Ledger>(
        &self,
        number: usize,
        group: &Group<'_>,
        input: &TickTable,
        reads: &mut Steps<L>,
    ) -> i64
        requires few { length group.now ≤ 2 ^ 62 }
        requires within { IsWithin input.now.new.width self.now }
        requires here { AllByRecursion (λ key. IsTrue (is_among key (keys input.now.new.rows))) (keys_of group.now) }
        ensures answer { result ≡ answer self.now number group.now input.now.new.rows }
        ensures reads { reads.new ≤ reads.old + 1 }
    {
        match self {
            Accumulator::Count => group.len() as i64,
            Accumulator::Sum(_, sums) => sums.get(number).map_or(NULL, |total| total.value()),
            Accumulator::Min(_, values) => values.get(number).map_or(NULL, |values| values.least()),
            Accumulator::Max(_, values) => values
                .get(number)
                .map_or(NULL, |values| values.greatest()),
            Accumulator::First(column) => { cell_or_null(group.first_key(), *column, input, reads) }
            Accumulator::Last(column) => { cell_or_null(group.last_key(), *column, input, reads) }
        }
    }
}

/// The cell of a row, or null where there is no row.
fn cell_or_null<L: Ledger>(
    key: Option<u64>,
    column: u32,
    input: &TickTable,
    reads: &mut Steps<L>,
) -> i64
    requires column { column < input.now.new.width }
    requires here { ForSome key (λ key. IsTrue (is_among key (keys input.now.new.rows))) }
    ensures cell { result ≡ cell_of input.now.new.rows column key }
    ensures reads { reads.new ≤ reads.old + 1 }
{
    match key {
        Some(key) => input.cell(column, key, reads),
        None => NULL,
    }
}

/// What is kept for aggregates of no rows.
pub(crate) fn begun(alloc: Global, aggs: &[Agg]) -> Result<Vec<Accumulator>, AllocError>
    ensures { IfOk result (λ all. (by : List ℕ) (names : Names) → AnswerAll by names aggs.now [] all.items) }
{
    let mut all = Vec::new(alloc);
    for agg in aggs {
        all.push(Accumulator::new(alloc, *agg))?;
    }
    Ok(all)
}

/// Puts what the aggregates say of a group behind other cells.
pub(crate) fn put_values<L: Ledger>(
    all: &[Accumulator],
    number: usize,
    group: &Group<'_>,
    input: &TickTable,
    cells: &mut Vec<i64>,
    reads: &mut Steps<L>,
) -> Result<(), AllocError>
    requires few { length group.now ≤ 2 ^ 62 }
    requires within { AllByRecursion (IsWithin input.now.new.width) all.now }
    requires here { AllByRecursion (λ key. IsTrue (is_among key (keys input.now.new.rows))) (keys_of group.now) }
    ensures cells { OnOk result (cells.new.items ≡ cells.old.items
        ++ map (λ running. answer running number group.now input.now.new.rows) all.now) }
    ensures reads { reads.new ≤ reads.old + length all.now }
{
    for running in all {
        cells.push(running.value(number, group, input, reads))?;
    }
    Ok(())
}

/// Takes a row out of the group with a number everywhere.
pub(crate) fn take_all(
    all: &mut [Accumulator],
    number: usize,
    row: &[i64],
) -> Result<(), AllocError>
    requires { AllByRecursion (HasRow number row.now) all.old }
    ensures { OnOk result (all.new ≡ map (without_row number row.now) all.old) }
{
    for place in 0..all.len() {
        all[place].take(number, row)?;
    }
    Ok(())
}

/// Puts a row into the group with a number everywhere.
pub(crate) fn put_all(all: &mut [Accumulator], number: usize, row: &[i64]) -> Result<(), AllocError>
    ensures { OnOk result (all.new ≡ map (with_row number row.now) all.old) }
{
    for place in 0..all.len() {
        all[place].put(number, row)?;
    }
    Ok(())
}
