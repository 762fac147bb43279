//! Rows in stable order.

ghost use Rattle.std.specs.Prelude.{◌≡◌, IfOk, OnOk, OnErr};
ghost use Rattle.tick_model.specs.Sort.{column_cmp, sort_cmp, in_order, numbered as numbered_from, sort_table};

use crate::rows::rows_copied;
use std::alloc::{AllocError, Global};
use std::cmp::Ordering;
use tick_model::cells::cell;
use tick_model::items::Items;
use tick_model::plan::SortBy;
use tick_model::table::{PlainRow, PlainTable};

fn compare_column(sort: &SortBy, a: i64, b: i64) -> Ordering
    ensures { result ≡ column_cmp sort.now a b }
{
    if sort.descending {
        b.cmp(&a)
    } else {
        a.cmp(&b)
    }
}

/// How a row stands to another, by the first sort column in which they differ.
fn compare_rows(by: &[SortBy], a: &PlainRow, b: &PlainRow) -> Ordering
    ensures { result ≡ sort_cmp by.now a.now b.now }
{
    for sort in by {
        let order = compare_column(
            sort,
            cell(a.cells.as_slice(), sort.column),
            cell(b.cells.as_slice(), sort.column),
        );
        if order != Ordering::Equal {
            return order;
        }
    }
    Ordering::Equal
}

/// Puts the rows in stable order.
fn sort_rows(by: &[SortBy], rows: &mut Vec<PlainRow>) -> Result<(), AllocError>
    ensures ok { OnOk result (rows.new.items ≡ in_order by.now rows.old.items) }
    ensures err { OnErr result (rows.new.items ≡ rows.old.items) }
{
    rows.sort_by(|a, b| compare_rows(by, a, b))
}

fn numbered(rows: &mut [PlainRow])
    ensures { rows.new ≡ numbered_from 0 rows.old }
{
    for (number, row) in rows.iter_mut().enumerate() {
        row.key = number as u64;
    }
}

/// The rows in stable order by the sort columns, under the keys 0, 1, 2 and so on.
pub fn sorted(alloc: Global, by: &[SortBy], input: &PlainTable) -> Result<PlainTable, AllocError>
    ensures { IfOk result (λ table. table ≡ sort_table by.now input.now) }
{
    let mut rows = rows_copied(alloc, input.rows.as_slice())?;
    sort_rows(by, &mut rows)?;
    numbered(rows.as_mut_slice());
    Ok(PlainTable {
        width: input.width,
        rows: Items::of(rows),
    })
}
