//! Sums of columns, which wrap.

ghost use Rattle.std.specs.Prelude.{◌≡◌};
ghost use Rattle.tick_model.specs.Agg.{sum_of, present, column_of, with_cell as with_cell_of};

use tick_model::cells::cell;
use tick_model::formula::{NULL, is_null, wrapped_sum};
use tick_model::table::PlainRow;

/// A sum with one cell more, which counts where it holds something.
fn with_cell(sum: Option<i64>, value: i64) -> Option<i64>
    ensures { result ≡ with_cell_of sum value }
{
    if is_null(value) {
        return sum;
    }
    match sum {
        None => Some(wrapped_sum(0, value)),
        Some(total) => Some(wrapped_sum(total, value)),
    }
}

/// The sum of a column's cells that hold something, or null.
pub fn column_sum(rows: &[PlainRow], column: u32) -> i64
    ensures { result ≡ sum_of (present (column_of rows.now column)) }
{
    let mut sum = None;
    for row in rows {
        sum = with_cell(sum, cell(row.cells.as_slice(), column));
    }
    sum.unwrap_or(NULL)
}
