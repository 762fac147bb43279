//! A row in the order of a sort.
ghost use Rattle.std.specs.Prelude.{◌≡◌};
ghost use Rattle.tick_model.specs.Tables.{cell};
ghost use Rattle.tick_model.specs.Sort.{column_cmp};
ghost use Rattle.sort_op.specs.Cells.{cells_cmp};

use chunk_list::ItemChange;
use shift_data::ShiftData;
use std::cmp::Ordering;
use tick_model::formula::NULL;
use tick_model::items::Items;
use tick_model::plan::SortBy;

/// A row in the order of a sort.
#[derive(Drop)]
pub struct Entry {
    /// The row's cells in the sort columns, in the order of these.
    pub cells: Items<i64>,
    /// The row's key in the input.
    pub key: u64,
}

impl Entry {
    ghost use Rattle.sort_op.specs.Entries.{comes_before, entry_cmp};

    /// How the entry stands to another: by the first sort column in which they differ, and else by key.
    pub(crate) fn compare(&self, other: &Entry, by: &[SortBy]) -> Ordering
        ensures { result ≡ entry_cmp by.now self.now other.now }
    {
        match compare_cells(by, self.cells.as_slice(), other.cells.as_slice()) {
            Ordering::Equal => self.key.cmp(&other.key),
            order => order,
        }
    }

    /// Whether the entry stands before another.
    pub(crate) fn comes_before(&self, other: &Entry, by: &[SortBy]) -> bool
        ensures { result ≡ comes_before by.now self.now other.now }
    {
        self.compare(other, by) == Ordering::Less
    }
}

/// How sort cells stand to others, by the first sort column in which they differ.
fn compare_cells(by: &[SortBy], cells: &[i64], others: &[i64]) -> Ordering
    ensures { result ≡ cells_cmp by.now cells.now others.now }
{
    for (place, sort) in by.iter().enumerate() {
        let order = compare_column(sort, cell_at(cells, place), cell_at(others, place));
        if order != Ordering::Equal {
            return order;
        }
    }
    Ordering::Equal
}

/// How a cell in a sort column stands to another.
pub(crate) fn compare_column(sort: &SortBy, cell: i64, other: i64) -> Ordering
    ensures { result ≡ column_cmp sort.now cell other }
{
    if sort.descending {
        other.cmp(&cell)
    } else {
        cell.cmp(&other)
    }
}

/// The cell at a place, or null past the last.
fn cell_at(cells: &[i64], place: usize) -> i64
    ensures { result ≡ cell cells.now place }
{
    cells.get(place).copied().unwrap_or(NULL)
}

/// Puts the key to which the row of an entry moves in the place of its key.
#[derive(Drop)]
pub(crate) struct Rekey<'a> {
    pub shifts: &'a ShiftData,
}

impl ItemChange<Entry> for Rekey<'_> {
    ghost use Rattle.std.specs.Prelude.{◌≡◌, ◌^◌, false};
    ghost use Rattle.shift_data.specs.ShiftLists.{IsShiftList};
    ghost use Rattle.sort_op.specs.Entries.{rekeyed};
    ghost use Rattle.tick_model.specs.Rules.{is_past};
    ghost use Rattle.tick_model.specs.Shifts.{moved};

    ghost ready = { λ rekey entry. IsShiftList rekey.shifts.now × (is_past (2 ^ 62) (moved rekey.shifts.now entry.key) ≡ false) };

    ghost changed = { λ rekey. rekeyed rekey.shifts.now };

    fn change(&self, entry: &mut Entry) {
        entry.key = self.shifts.landing(entry.key);
    }
}
