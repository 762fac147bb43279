//! The rows that a change tells: those that come, and of those that stay the ones that differ.

ghost use Rattle.std.specs.Prelude.{◌≡◌, ℕ, ◌+◌, ◌*◌, ◌^◌, ◌<◌, ◌≤◌, ◌++◌, ◌&&◌, ◌||◌, [], ◌∷◌, IsTrue, filter, length, nat_lt, not, IfOk, OnOk};
ghost use Rattle.std.specs.List.{AllByRecursion, list_any};
ghost use Rattle.std.specs.Ordering.{int_eq};
ghost use Rattle.key_lists.specs.Keys.{IsRising, is_among};
ghost use Rattle.shift_data.specs.Moves.{pairs_of};
ghost use Rattle.tick_model.specs.Tables.{cell as cell_of, keys, same_cells};
ghost use Rattle.tick_model.specs.Updates.{differs, differs_in, new_keys};
ghost use Rattle.row_changes.specs.Parts.{AreThere, cells_under};

use crate::rows::Rows;
use row_set::RowSet;
use std::alloc::{AllocError, Global};
use std::sync::ledger::Ledger;
use table_update::ColumnSet;
use tick_model::cells::cell;
use tick_model::update::KeyPair;
use tick_table::{Steps, Version};

/// The rows that a change tells.
#[derive(Drop)]
pub struct ChangedRows {
    /// The cells of the added rows and then of the modified ones, one row after the other.
    pub cells: Vec<i64>,
    /// The keys of the modified rows.
    pub modified: RowSet,
    /// The columns in which one of them differs.
    pub columns: ColumnSet,
}

impl ChangedRows {
    /// Tells a modified row, whose key is above those that are told, by its cells before the step and now.
    pub fn put(
        &mut self,
        key: u64,
        before: &[i64],
        now: &[i64],
        width: u32,
    ) -> Result<(), AllocError>
        requires few { width ≤ 32 }
        requires small { key < 2 ^ 62 }
        requires above { AllByRecursion (λ other. other < key) self.old.modified }
        requires rising { IsRising self.old.columns }
        ensures modified { OnOk result (self.new.modified ≡ self.old.modified ++ key ∷ []) }
        ensures columns { OnOk result ((column : ℕ) → is_among column self.new.columns ≡ (is_among column self.old.columns || (nat_lt column width && not (int_eq (cell_of before.now column) (cell_of now.now column))))) }
        ensures rising { OnOk result (IsRising self.new.columns) }
        ensures cells { OnOk result (self.new.cells.items ≡ self.old.cells.items ++ now.now) }
    {
        self.cells.extend_from_slice(now)?;
        self.columns = with_differing(self.columns.copy(), before, now, width);
        self.modified.insert_range(key, key)
    }
}

/// Compares the rows that stay, place by place. Those that differ are told behind the cells.
pub(crate) fn compare_rows<L: Ledger, R: Rows<L>>(
    alloc: Global,
    rows: &R,
    width: u32,
    before: &RowSet,
    now: &RowSet,
    cells: Vec<i64>,
    reads: &mut Steps<L>,
) -> Result<ChangedRows, AllocError>
    requires ready { R.ready rows.now }
    requires few { width ≤ 32 }
    requires even { length before.now ≡ length now.now }
    requires before { AreThere (R.table rows.now Version.Before) before.now }
    requires now { AreThere (R.table rows.now Version.Now) now.now }
    ensures modified { IfOk result (λ told. told.modified ≡ new_keys (filter (differs (R.table rows.now Version.Before) (R.table rows.now Version.Now)) (pairs_of before.now now.now))) }
    ensures columns { IfOk result (λ told. (column : ℕ) → is_among column told.columns ≡ (nat_lt column width && list_any (differs_in (R.table rows.now Version.Before) (R.table rows.now Version.Now) column) (pairs_of before.now now.now))) }
    ensures rising { IfOk result (λ told. IsRising told.columns) }
    ensures cells { IfOk result (λ told. told.cells.items ≡ cells.items ++ cells_under (R.table rows.now Version.Now) told.modified) }
    ensures reads { reads.new ≤ reads.old + R.row_reads rows.now * (2 * length now.now) }
{
    let mut told = ChangedRows {
        cells,
        modified: RowSet::new(alloc),
        columns: ColumnSet::none(),
    };
    let mut row = Vec::with_capacity(alloc, width as usize)?;
    for (old, new) in before.iter().zip(now) {
        let pair = KeyPair { old, new };
        compare_row(rows, width, pair, &mut told, &mut row, reads)?;
    }
    Ok(told)
}

/// Compares a row before the step with the one now, whose key is above those that are told. It is told if it differs.
fn compare_row<L: Ledger, R: Rows<L>>(
    rows: &R,
    width: u32,
    pair: KeyPair,
    told: &mut ChangedRows,
    row: &mut Vec<i64>,
    reads: &mut Steps<L>,
) -> Result<(), AllocError>
    requires ready { R.ready rows.now }
    requires few { width ≤ 32 }
    requires before { IsTrue (is_among pair.old (keys (R.table rows.now Version.Before).rows)) }
    requires now { IsTrue (is_among pair.new (keys (R.table rows.now Version.Now).rows)) }
    requires small { pair.new < 2 ^ 62 }
    requires above { AllByRecursion (λ key. key < pair.new) told.old.modified }
    requires rising { IsRising told.old.columns }
    ensures modified { OnOk result (told.new.modified ≡ told.old.modified ++ new_keys (filter (differs (R.table rows.now Version.Before) (R.table rows.now Version.Now)) (pair ∷ []))) }
    ensures columns { OnOk result ((column : ℕ) → is_among column told.new.columns ≡ (is_among column told.old.columns || (nat_lt column width && differs_in (R.table rows.now Version.Before) (R.table rows.now Version.Now) column pair))) }
    ensures rising { OnOk result (IsRising told.new.columns) }
    ensures cells { OnOk result (told.new.cells.items ≡ told.old.cells.items ++ cells_under (R.table rows.now Version.Now) (new_keys (filter (differs (R.table rows.now Version.Before) (R.table rows.now Version.Now)) (pair ∷ [])))) }
    ensures reads { reads.new ≤ reads.old + R.row_reads rows.now * 2 }
{
    row.clear();
    rows.row(Version::Before, pair.old, row, reads)?;
    let start = told.cells.len();
    rows.row(Version::Now, pair.new, &mut told.cells, reads)?;
    let (_, now) = told.cells.split_at(start);
    if same(row, now) {
        told.cells.truncate(start);
    } else {
        told.columns = with_differing(told.columns.copy(), row, now, width);
        told.modified.insert_range(pair.new, pair.new)?;
    }
    Ok(())
}

/// Whether two rows hold the same.
fn same(before: &[i64], now: &[i64]) -> bool
    ensures { result ≡ same_cells before.now now.now }
{
    before == now
}

/// The columns with those of the first `width` in which two rows differ.
fn with_differing(mut columns: ColumnSet, before: &[i64], now: &[i64], width: u32) -> ColumnSet
    requires few { width ≤ 32 }
    requires rising { IsRising columns }
    ensures rising { IsRising result }
    ensures columns { (column : ℕ) → is_among column result ≡ (is_among column columns || (nat_lt column width && not (int_eq (cell_of before.now column) (cell_of now.now column)))) }
{
    for column in 0..width {
        if differ_in(before, now, column) {
            columns = columns.with(column);
        }
    }
    columns
}

/// Whether two rows differ in a column.
fn differ_in(before: &[i64], now: &[i64], column: u32) -> bool
    ensures { result ≡ not (int_eq (cell_of before.now column) (cell_of now.now column)) }
{
    cell(before, column) != cell(now, column)
}
