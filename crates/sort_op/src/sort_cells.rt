//! The sort cells of rows, by the handles of the rows.
ghost use Rattle.std.specs.Prelude.{◌≡◌, ◌≢◌, ◌<◌, ℕ, length, OnOk};
ghost use Rattle.std.specs.Ordering.{is_lt};
ghost use Rattle.tick_model.specs.Tables.{cell as cell_of, same_cells};
ghost use Rattle.sort_op.specs.Cells.{cells_cmp};
ghost use Rattle.sort_op.specs.Firsts.{first_rank, ranked};
ghost use Rattle.sort_op.specs.Ranks.{cell_in, kept_cells, lists_of};
ghost use Rattle.sort_op.specs.Sorted.{sort_cells};

use crate::entry::compare_column;
use row_handles::Handle;
use std::alloc::{AllocError, Global};
use std::cmp::Ordering;
use std::marker::Model;
use tick_model::cells::cell;
use tick_model::formula::NULL;
use tick_model::plan::SortBy;

/// The cells of rows in the sort columns: a list for each column, by the handles of the rows. A cell that was never put is
/// null. A contract sees the lists.
#[derive(Drop)]
pub(crate) struct SortCells {
    columns: Vec<Vec<i64>>,
}

impl Model for SortCells {
    ghost use Rattle.std.specs.Prelude.{List, ℤ};
    ghost use Rattle.sort_op.specs.Ranks.{lists_of};

    ghost Value = { List (List ℤ) };

    ghost view = { λ cells. lists_of cells.columns.items };
}

/// Makes a list for the column at a place.
fn make_column(columns: &mut Vec<Vec<i64>>, place: usize) -> Result<(), AllocError>
    ensures room { OnOk result (place < length columns.new.items) }
    ensures same { (at handle : ℕ) → cell_in (lists_of columns.new.items) at handle ≡ cell_in (lists_of columns.old.items) at handle }
{
    while columns.len() <= place {
        columns.push(Vec::new(*columns.allocator()))?;
    }
    Ok(())
}

/// Puts the cell of a row in a list.
fn put_cell(column: &mut Vec<i64>, handle: Handle, cell: i64) -> Result<(), AllocError>
    ensures put { OnOk result (cell_of column.new.items handle ≡ cell) }
    ensures others { (other : ℕ) → other ≢ handle → cell_of column.new.items other ≡ cell_of column.old.items other }
{
    while column.len() <= handle {
        column.push(NULL)?;
    }
    column[handle] = cell;
    Ok(())
}

/// A cell as it ranks in a sort column, the lower first: itself, or its opposite where the column descends. It never wraps.
fn ranked(sort: &SortBy, cell: i64) -> i64
    ensures { result ≡ ranked sort.now cell }
{
    if sort.descending { -1 - cell } else { cell }
}

impl SortCells {
    /// No cells.
    pub(crate) fn new(alloc: Global) -> SortCells {
        SortCells {
            columns: Vec::new(alloc),
        }
    }

    /// The cell of a row at the place of a sort column.
    fn get(&self, place: usize, handle: Handle) -> i64
        ensures { result ≡ cell_in self.now place handle }
    {
        match self.columns.get(place) {
            Some(column) => column.get(handle).copied().unwrap_or(NULL),
            None => NULL,
        }
    }

    /// The first sort cell of a row as it ranks, or null where there is no sort column.
    pub(crate) fn first_rank(&self, by: &[SortBy], handle: Handle) -> i64
        ensures { result ≡ first_rank by.now self.now handle }
    {
        match by.first() {
            Some(sort) => ranked(sort, self.get(0, handle)),
            None => NULL,
        }
    }

    /// Puts the cell of a row at the place of a sort column.
    fn put(&mut self, place: usize, handle: Handle, cell: i64) -> Result<(), AllocError>
        ensures put { OnOk result (cell_in self.new place handle ≡ cell) }
        ensures columns { (at : ℕ) → at ≢ place → cell_in self.new at handle ≡ cell_in self.old at handle }
        ensures others { (at other : ℕ) → other ≢ handle → cell_in self.new at other ≡ cell_in self.old at other }
    {
        make_column(&mut self.columns, place)?;
        put_cell(&mut self.columns[place], handle, cell)
    }

    /// Puts the sort cells of a row.
    pub(crate) fn put_row(
        &mut self,
        by: &[SortBy],
        handle: Handle,
        row: &[i64],
    ) -> Result<(), AllocError>
        ensures put { OnOk result (kept_cells by.now self.new handle ≡ sort_cells by.now row.now) }
        ensures others { (at other : ℕ) → other ≢ handle → cell_in self.new at other ≡ cell_in self.old at other }
    {
        for (place, sort) in by.iter().enumerate() {
            self.put(place, handle, cell(row, sort.column))?;
        }
        Ok(())
    }

    /// Whether these are the sort cells of a row.
    pub(crate) fn are_of(&self, by: &[SortBy], handle: Handle, row: &[i64]) -> bool
        ensures { result ≡ same_cells (kept_cells by.now self.now handle) (sort_cells by.now row.now) }
    {
        for (place, sort) in by.iter().enumerate() {
            if self.get(place, handle) != cell(row, sort.column) {
                return false;
            }
        }
        true
    }

    /// How the sort cells of a row stand to those of another, by the first sort column in which they differ.
    pub(crate) fn compare(&self, by: &[SortBy], handle: Handle, other: Handle) -> Ordering
        ensures { result ≡ cells_cmp by.now (kept_cells by.now self.now handle) (kept_cells by.now self.now other) }
    {
        for (place, sort) in by.iter().enumerate() {
            let order = compare_column(sort, self.get(place, handle), self.get(place, other));
            if order != Ordering::Equal {
                return order;
            }
        }
        Ordering::Equal
    }

    /// Whether the sort cells of a row stand before those of another.
    pub(crate) fn are_before(&self, by: &[SortBy], handle: Handle, other: Handle) -> bool
        ensures { result ≡ is_lt (cells_cmp by.now (kept_cells by.now self.now handle) (kept_cells by.now self.now other)) }
    {
        self.compare(by, handle, other) == Ordering::Less
    }
}
