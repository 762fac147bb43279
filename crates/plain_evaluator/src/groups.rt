//! Groups of rows with equal key cells, and what aggregates say of them.

ghost use Rattle.std.specs.Prelude.{◌≡◌, ◌+◌, ◌^◌, ◌<◌, length, IfOk};
ghost use Rattle.std.specs.Int.{int_min, int_max};
ghost use Rattle.std.specs.Option.{option_copied, option_map_or};
ghost use Rattle.tick_model.specs.Tables.{null, cell as cell_in};
ghost use Rattle.tick_model.specs.Extremes.{with_present};
ghost use Rattle.tick_model.specs.Agg.{same_group as same_group_by, is_first as is_first_by, group_of as group_by, present, column_of, over, aggregate as aggregate_of, agg_row as agg_row_of, agg_table};

use crate::rows::copied;
use crate::sums::column_sum;
use std::alloc::{AllocError, Global};
use tick_model::cells::cell;
use tick_model::formula::{NULL, is_null};
use tick_model::items::Items;
use tick_model::plan::Agg;
use tick_model::table::{PlainRow, PlainTable};

fn same_group(by: &[u32], row: &PlainRow, other: &PlainRow) -> bool
    ensures { result ≡ same_group_by by.now row.now other.now }
{
    for column in by {
        if cell(row.cells.as_slice(), *column) != cell(other.cells.as_slice(), *column) {
            return false;
        }
    }
    true
}

/// Whether a row is the first of its group.
fn is_first(by: &[u32], rows: &[PlainRow], row: &PlainRow) -> bool
    ensures { result ≡ is_first_by by.now rows.now row.now }
{
    for other in rows {
        if same_group(by, row, other) {
            return other.key == row.key;
        }
    }
    false
}

/// The rows of a row's group.
fn group_of(
    alloc: Global,
    by: &[u32],
    rows: &[PlainRow],
    row: &PlainRow,
) -> Result<Vec<PlainRow>, AllocError>
    ensures { IfOk result (λ group. group.items ≡ group_by by.now rows.now row.now) }
{
    let mut group = Vec::new(alloc);
    for other in rows {
        if same_group(by, row, other) {
            group.push(copied(alloc, other)?)?;
        }
    }
    Ok(group)
}

fn lesser(least: Option<i64>, value: i64) -> Option<i64>
    ensures { result ≡ with_present int_min least value }
{
    match least {
        _ if is_null(value) => least,
        Some(least) if least <= value => Some(least),
        _ => Some(value),
    }
}

fn greater(greatest: Option<i64>, value: i64) -> Option<i64>
    ensures { result ≡ with_present int_max greatest value }
{
    match greatest {
        _ if is_null(value) => greatest,
        Some(greatest) if greatest > value => Some(greatest),
        _ => Some(value),
    }
}

/// The least cell of a column that holds something, or null.
fn column_min(rows: &[PlainRow], column: u32) -> i64
    ensures { result ≡ over int_min (present (column_of rows.now column)) }
{
    let mut least = None;
    for row in rows {
        least = lesser(least, cell(row.cells.as_slice(), column));
    }
    least.unwrap_or(NULL)
}

/// The greatest cell of a column that holds something, or null.
fn column_max(rows: &[PlainRow], column: u32) -> i64
    ensures { result ≡ over int_max (present (column_of rows.now column)) }
{
    let mut greatest = None;
    for row in rows {
        greatest = greater(greatest, cell(row.cells.as_slice(), column));
    }
    greatest.unwrap_or(NULL)
}

fn cell_of(row: Option<&PlainRow>, column: u32) -> i64
    ensures { result ≡ option_map_or (λ row. cell_in row.cells column) (option_copied row.entry) null }
{
    match row {
        Some(row) => cell(row.cells.as_slice(), column),
        None => NULL,
    }
}

/// What an aggregate says of a group's rows.
fn aggregate(rows: &[PlainRow], agg: Agg) -> i64
    ensures { result ≡ aggregate_of rows.now agg }
{
    match agg {
        Agg::Count => rows.len() as i64,
        Agg::Sum(column) => column_sum(rows, column),
        Agg::Min(column) => column_min(rows, column),
        Agg::Max(column) => column_max(rows, column),
        Agg::First(column) => cell_of(rows.first(), column),
        Agg::Last(column) => cell_of(rows.last(), column),
    }
}

fn agg_row(
    alloc: Global,
    by: &[u32],
    aggs: &[Agg],
    rows: &[PlainRow],
    row: &PlainRow,
) -> Result<PlainRow, AllocError>
    ensures { IfOk result (λ made. made ≡ agg_row_of by.now aggs.now rows.now row.now) }
{
    let group = group_of(alloc, by, rows, row)?;
    let mut cells = Vec::new(alloc);
    for column in by {
        cells.push(cell(row.cells.as_slice(), *column))?;
    }
    for agg in aggs {
        cells.push(aggregate(group.as_slice(), *agg))?;
    }
    Ok(PlainRow {
        key: row.key,
        cells: Items::of(cells),
    })
}

/// A row for each group, under the key of its first row.
pub fn grouped(
    alloc: Global,
    by: &[u32],
    aggs: &[Agg],
    input: &PlainTable,
) -> Result<PlainTable, AllocError>
    requires { length by.now + length aggs.now < 2 ^ 32 }
    ensures { IfOk result (λ table. table ≡ agg_table by.now aggs.now input.now) }
{
    let all = input.rows.as_slice();
    let mut rows = Items::new(alloc);
    for row in all {
        if is_first(by, all, row) {
            rows.push(agg_row(alloc, by, aggs, all, row)?)?;
        }
    }
    Ok(PlainTable {
        width: (by.len() + aggs.len()) as u32,
        rows,
    })
}
