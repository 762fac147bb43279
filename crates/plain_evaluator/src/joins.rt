//! Joins: each left row with cells of the right row that it matches.

ghost use Rattle.std.specs.Prelude.{◌≡◌, ◌&&◌, ◌∷◌, ◌+◌, ◌^◌, ◌<◌, [], filter_map, length, slice_get, MatchOption, IfOk, int_le};
ghost use Rattle.std.specs.Option.{option_copied, option_map_or};
ghost use Rattle.tick_model.specs.Tables.{null, cell as cell_of};
ghost use Rattle.tick_model.specs.Join.{agree as agree_on, matches as matches_of, chosen as chosen_of, joined as joined_with, duplicate as duplicate_of, join_fault as join_fault_of, join_table};
ghost use Rattle.tick_model.specs.AsOf.{asof_table, not_later, later as later_of, latest as latest_of};
ghost use Rattle.tick_model.specs.Evaluation.{or_fault};
ghost use Rattle.plain_evaluator.specs.Gives.{Gives};

use crate::operators::NoTable;
use std::alloc::{AllocError, Global};
use tick_model::cells::cell;
use tick_model::formula::NULL;
use tick_model::items::Items;
use tick_model::plan::{Choice, OnPair};
use tick_model::table::{NodeFault, PlainRow, PlainTable};

/// Whether two rows have equal cells in each pair of columns.
fn agree(on: &[OnPair], left: &PlainRow, right: &PlainRow) -> bool
    ensures { result ≡ agree_on on.now left.now right.now }
{
    for pair in on {
        if cell(left.cells.as_slice(), pair.left) != cell(right.cells.as_slice(), pair.right) {
            return false;
        }
    }
    true
}

/// The first right row that matches, and the rows after it.
fn next_match<'a>(
    on: &[OnPair],
    rows: &'a [PlainRow],
    left: &PlainRow,
) -> Option<(&'a PlainRow, &'a [PlainRow])>
    ensures { MatchOption result (matches_of on.now rows.now left.now ≡ []) (λ next. matches_of on.now rows.now left.now ≡ next.0.now ∷ matches_of on.now next.1.now left.now) }
{
    for (i, right) in rows.iter().enumerate() {
        if agree(on, left, right) {
            return Some((right, &rows[i + 1..]));
        }
    }
    None
}

fn first_match<'a>(on: &[OnPair], rows: &'a [PlainRow], left: &PlainRow) -> Option<&'a PlainRow>
    ensures { option_copied result ≡ slice_get (matches_of on.now rows.now left.now) 0 }
{
    match next_match(on, rows, left) {
        Some((first, _)) => Some(first),
        None => None,
    }
}

fn last_match<'a>(on: &[OnPair], rows: &'a [PlainRow], left: &PlainRow) -> Option<&'a PlainRow>
    ensures { option_copied result ≡ chosen_of Choice.Last (matches_of on.now rows.now left.now) }
{
    let mut last = None;
    for right in rows {
        if agree(on, left, right) {
            last = Some(right);
        }
    }
    last
}

/// The right row that a choice takes.
fn chosen<'a>(
    on: &[OnPair],
    choice: Choice,
    rows: &'a [PlainRow],
    left: &PlainRow,
) -> Option<&'a PlainRow>
    ensures { option_copied result ≡ chosen_of choice (matches_of on.now rows.now left.now) }
{
    match choice {
        Choice::Error | Choice::First => first_match(on, rows, left),
        Choice::Last => last_match(on, rows, left),
    }
}

/// That a left row has two matches or more.
fn duplicate(on: &[OnPair], rows: &[PlainRow], left: &PlainRow) -> Option<NodeFault>
    ensures { result ≡ duplicate_of left.now (matches_of on.now rows.now left.now) }
{
    let (first, others) = next_match(on, rows, left)?;
    let (second, _) = next_match(on, others, left)?;
    Some(NodeFault::DuplicateRight {
        left_key: left.key,
        first: first.key,
        second: second.key,
    })
}

fn taken_cell(right: Option<&PlainRow>, column: u32) -> i64
    ensures { result ≡ option_map_or (λ row. cell_of row.cells column) (option_copied right.entry) null }
{
    match right {
        Some(row) => cell(row.cells.as_slice(), column),
        None => NULL,
    }
}

/// A left row, followed by the taken cells of a right row, or by nulls.
fn joined_row(
    alloc: Global,
    take: &[u32],
    left: &PlainRow,
    right: Option<&PlainRow>,
) -> Result<PlainRow, AllocError>
    ensures { IfOk result (λ row. row ≡ joined_with take.now (λ _. option_copied right.entry) left.now) }
{
    let mut cells = left.cells.as_slice().to_vec(alloc)?;
    for column in take {
        cells.push(taken_cell(right, *column))?;
    }
    Ok(PlainRow {
        key: left.key,
        cells: Items::of(cells),
    })
}

/// The first left row with two matches or more.
fn first_duplicate(on: &[OnPair], left: &[PlainRow], right: &[PlainRow]) -> Option<NodeFault>
    ensures { result ≡ slice_get (filter_map (λ row. duplicate_of row (matches_of on.now right.now row)) left.now) 0 }
{
    for row in left {
        if let Some(fault) = duplicate(on, right, row) {
            return Some(fault);
        }
    }
    None
}

/// That a left row has two matches, where the choice is that there be one.
fn join_fault(
    on: &[OnPair],
    choice: Choice,
    left: &PlainTable,
    right: &PlainTable,
) -> Option<NodeFault>
    ensures { result ≡ join_fault_of on.now choice left.now right.now }
{
    match choice {
        Choice::Error => first_duplicate(on, left.rows.as_slice(), right.rows.as_slice()),
        Choice::First | Choice::Last => None,
    }
}

/// Each left row with the cells of the right row that a choice takes.
pub fn joined(
    alloc: Global,
    on: &[OnPair],
    take: &[u32],
    choice: Choice,
    left: &PlainTable,
    right: &PlainTable,
) -> Result<PlainTable, NoTable>
    requires { left.now.width + length take.now < 2 ^ 32 }
    ensures { Gives result (or_fault (join_fault_of on.now choice left.now right.now) (join_table on.now take.now choice left.now right.now)) }
{
    if let Some(fault) = join_fault(on, choice, left, right) {
        return Err(NoTable::Fault(fault));
    }
    let mut rows = Items::new(alloc);
    for row in left.rows.as_slice() {
        let found = chosen(on, choice, right.rows.as_slice(), row);
        rows.push(joined_row(alloc, take, row, found)?)?;
    }
    Ok(PlainTable {
        width: left.width + take.len() as u32,
        rows,
    })
}

fn is_not_later(on: &[OnPair], at: OnPair, left: &PlainRow, right: &PlainRow) -> bool
    ensures { result ≡ (agree_on on.now left.now right.now && int_le (cell_of right.now.cells at.right) (cell_of left.now.cells at.left)) }
{
    agree(on, left, right)
        && cell(right.cells.as_slice(), at.right) <= cell(left.cells.as_slice(), at.left)
}

fn later<'a>(column: u32, best: Option<&'a PlainRow>, row: &'a PlainRow) -> &'a PlainRow
    ensures { result.now ≡ option_map_or (λ best. later_of column best row.now) (option_copied best.entry) row.now }
{
    match best {
        Some(best) if cell(best.cells.as_slice(), column) > cell(row.cells.as_slice(), column) =>
            best,
        _ => row,
    }
}

/// The latest right row that is not later than a left row, and the last of those.
fn latest<'a>(
    on: &[OnPair],
    at: OnPair,
    rows: &'a [PlainRow],
    left: &PlainRow,
) -> Option<&'a PlainRow>
    ensures { option_copied result ≡ latest_of at.right (not_later on.now at rows.now left.now) }
{
    let mut best: Option<&'a PlainRow> = None;
    for right in rows {
        if is_not_later(on, at, left, right) {
            best = Some(later(at.right, best, right));
        }
    }
    best
}

/// Each left row with the cells of the latest right row that is not later.
pub fn joined_as_of(
    alloc: Global,
    on: &[OnPair],
    at: OnPair,
    take: &[u32],
    left: &PlainTable,
    right: &PlainTable,
) -> Result<PlainTable, AllocError>
    requires { left.now.width + length take.now < 2 ^ 32 }
    ensures { IfOk result (λ table. table ≡ asof_table on.now at take.now left.now right.now) }
{
    let mut rows = Items::new(alloc);
    for row in left.rows.as_slice() {
        let found = latest(on, at, right.rows.as_slice(), row);
        rows.push(joined_row(alloc, take, row, found)?)?;
    }
    Ok(PlainTable {
        width: left.width + take.len() as u32,
        rows,
    })
}
