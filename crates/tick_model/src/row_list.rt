//! Rows of one width that lie side by side.

ghost use Rattle.std.specs.Prelude.{◌≡◌, ◌<◌, ◌*◌, ◌==◌, ◌++◌, ◌∷◌, [], OnOk, Some, flat_map, length, slice_get};
ghost use Rattle.tick_model.specs.Tables.{keys as row_keys};
ghost use Rattle.tick_model.specs.declared.table.PlainRow.{PlainRow};
ghost use Rattle.std.specs.List.{AllByRecursion};
ghost use Rattle.tick_model.specs.Changes.{rows_under};

use std::alloc::{AllocError, Global};
use std::marker::Model;

/// Rows of one width: their keys in one list, and their cells in another, one row after the other. Contracts see the list of the rows.
#[derive(Debug, Drop)]
pub struct RowList {
    width: usize,
    keys: Vec<u64>,
    cells: Vec<i64>,
}

impl Model for RowList {
    ghost use Rattle.std.specs.Prelude.{◌≡◌, ◌*◌, List, length};
    ghost use Rattle.tick_model.specs.Changes.{rows_under};
    ghost use Rattle.tick_model.specs.declared.table.PlainRow.{PlainRow};

    ghost Value = { List PlainRow };

    ghost view = { λ a. rows_under a.width a.keys.items a.cells.items };

    ghost invariant = { λ a. length a.cells.items ≡ a.width * length a.keys.items };
}

impl RowList {
    /// The list of no rows.
    pub fn new(alloc: Global) -> RowList
        ensures { result ≡ [] }
    {
        RowList {
            width: 0,
            keys: Vec::new(alloc),
            cells: Vec::new(alloc),
        }
    }

    /// The rows of these keys, whose cells these are, so many each.
    pub fn of(width: usize, keys: Vec<u64>, cells: Vec<i64>) -> RowList
        requires { length cells.items ≡ width * length keys.items }
        ensures { result ≡ rows_under width keys.items cells.items }
    {
        RowList { width, keys, cells }
    }

    /// Puts a row at the end, which has as many cells as each row before it.
    pub fn push(&mut self, key: u64, cells: &[i64]) -> Result<(), AllocError>
        requires { AllByRecursion (λ row. length row.cells ≡ length cells.now) self.old }
        ensures { OnOk result (self.new ≡ self.old ++ (record { key = key; cells = cells.now }) ∷ []) }
    {
        self.width = cells.len();
        self.keys.reserve(1)?;
        self.cells.extend_from_slice(cells)?;
        self.keys.push(key)?;
        Ok(())
    }

    /// How many rows there are.
    pub fn len(&self) -> usize
        ensures { result ≡ length self.now }
    {
        self.keys.len()
    }

    /// Whether there are none.
    pub fn is_empty(&self) -> bool
        ensures { result ≡ (length self.now == 0) }
    {
        self.keys.is_empty()
    }

    /// The keys of the rows, in order.
    pub fn keys(&self) -> &[u64]
        ensures { result.now ≡ row_keys self.now }
    {
        self.keys.as_slice()
    }

    /// The cells of the rows, one row after the other.
    pub fn cells(&self) -> &[i64]
        ensures { result.now ≡ flat_map (λ row. row.cells) self.now }
    {
        self.cells.as_slice()
    }

    /// The cells of the row at a place.
    pub fn row(&self, place: usize) -> &[i64]
        requires { place < length self.now }
        ensures { (row : PlainRow) → slice_get self.now place ≡ Some row → result.now ≡ row.cells }
    {
        let start = place * self.width;
        &self.cells[start..start + self.width]
    }

    /// How many cells each row has, the keys of the rows, and their cells, one row after the other.
    pub fn into_parts(self) -> (usize, Vec<u64>, Vec<i64>)
        ensures rows { rows_under result.0 result.1.items result.2.items ≡ self }
        ensures whole { length result.2.items ≡ result.0 * length result.1.items }
    {
        let RowList { width, keys, cells } = self;
        (width, keys, cells)
    }
}

/// A table whose rows lie side by side. Contracts see the table.
#[derive(Debug, Drop)]
pub struct OpeningTable {
    width: u32,
    rows: RowList,
}

impl Model for OpeningTable {
    ghost use Rattle.tick_model.specs.declared.table.PlainTable.{PlainTable};

    ghost Value = { PlainTable };

    ghost view = { λ a. record { width = a.width; rows = a.rows } };
}

impl OpeningTable {
    /// The table of so many columns with these rows.
    pub fn of(width: u32, rows: RowList) -> OpeningTable
        ensures { result ≡ record { width = width; rows = rows } }
    {
        OpeningTable { width, rows }
    }

    /// How many columns it has.
    pub fn width(&self) -> u32
        ensures { result ≡ self.now.width }
    {
        self.width
    }

    /// Its rows.
    pub fn rows(&self) -> &RowList
        ensures { result.now ≡ self.now.rows }
    {
        &self.rows
    }
}
