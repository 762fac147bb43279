//! The cells of a row, by column.

ghost use Rattle.std.specs.Prelude.{◌≡◌};
ghost use Rattle.tick_model.specs.Tables.{cell as cell_of};

use crate::formula::NULL;

/// A row's cell in a column.
pub fn cell(cells: &[i64], column: u32) -> i64
    ensures { result ≡ cell_of cells.now column }
{
    cells.get(column as usize).copied().unwrap_or(NULL)
}
