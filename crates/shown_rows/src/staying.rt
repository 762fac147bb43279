//! The modified rows of an input that are shown before a step and now.

ghost use Rattle.std.specs.Prelude.{◌≡◌, ℕ, ◌+◌, ◌*◌, ◌≤◌, ◌++◌, ◌&&◌, length, nat_lt, IfOk};
ghost use Rattle.std.specs.List.{list_any};
ghost use Rattle.key_lists.specs.Keys.{IsRising, is_among};
ghost use Rattle.row_changes.specs.Parts.{cells_under};
ghost use Rattle.shown_rows.specs.Shown.{staying, stays};
ghost use Rattle.tick_model.specs.Updates.{differs_in, new_keys};
ghost use Rattle.tick_table.specs.Exact.{IsExact};

use crate::pairs::Pairs;
use row_changes::ChangedRows;
use row_set::RowSet;
use std::alloc::{AllocError, Global};
use std::sync::ledger::Ledger;
use table_update::ColumnSet;
use tick_model::update::KeyPair;
use tick_table::{Steps, TickTable};

/// Tells the modified rows whose old key is shown and not leaving behind the cells. Each differs, and is read by its place
/// among the modified ones, before and now.
pub(crate) fn tell_staying<L: Ledger>(
    alloc: Global,
    input: &TickTable,
    shown: &RowSet,
    leaving: &RowSet,
    cells: Vec<i64>,
    reads: &mut Steps<L>,
) -> Result<ChangedRows, AllocError>
    requires exact { IsExact input.now }
    ensures modified { IfOk result (λ told. told.modified ≡ new_keys (staying input.now shown.now leaving.now)) }
    ensures columns { IfOk result (λ told. (column : ℕ) → is_among column told.columns ≡ (nat_lt column input.now.new.width && list_any (differs_in input.now.old input.now.new column) (staying input.now shown.now leaving.now))) }
    ensures rising { IfOk result (λ told. IsRising told.columns) }
    ensures cells { IfOk result (λ told. told.cells.items ≡ cells.items ++ cells_under input.now.new told.modified) }
    ensures reads { reads.new ≤ reads.old + input.now.new.width * (2 * length input.now.update.modified) }
{
    let width = input.width();
    let update = input.update();
    let from = update.modified_before(input.prev_rows())?;
    let _ = update.modified().len();
    let mut told = ChangedRows {
        cells,
        modified: RowSet::new(alloc),
        columns: ColumnSet::none(),
    };
    let mut place = 0;
    for pair in Pairs::modified(input, &from) {
        if stays(shown, leaving, pair) {
            let before = input.modified_row_before(place, reads);
            let now = input.modified_row(place, reads);
            told.put(pair.new, before, now, width)?;
        }
        place += 1;
    }
    Ok(told)
}

/// Whether a row was shown and is not leaving.
fn stays(shown: &RowSet, leaving: &RowSet, pair: KeyPair) -> bool
    ensures { result ≡ stays shown.now leaving.now pair }
{
    shown.contains(pair.old) && !leaving.contains(pair.old)
}
