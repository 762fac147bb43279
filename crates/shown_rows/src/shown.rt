//! The change of an operator whose rows are some of its input's, under their keys.

ghost use Rattle.std.specs.Prelude.{◌≡◌, ◌+◌, ◌*◌, ◌≤◌, length, IfOk};
ghost use Rattle.tick_model.specs.Changes.{change_of};
ghost use Rattle.tick_model.specs.Tables.{keys};
ghost use Rattle.tick_model.specs.Updates.{between};
ghost use Rattle.tick_table.specs.Exact.{IsExact, tick_of};
ghost use Rattle.shown_rows.specs.Shown.{IsPart, through};

use crate::rows::Chooses;
use crate::staying::tell_staying;
use row_changes::Rows;
use row_set::RowSet;
use std::alloc::{AllocError, Global};
use std::sync::ledger::Ledger;
use table_update::Update;
use tick_model::items::Items;
use tick_table::{Change, Steps, TickTable};

/// The change from the rows that are chosen of the input before the step to those that are chosen now. `shown` has the keys
/// of the former, `leaving` the old keys of the rows that are shown no more, and `coming` the new keys of those that were not
/// shown before. It reads the coming rows, and the modified rows that stay, before and now; where it is refused, no more than
/// these.
pub fn shown_change<L: Ledger, C: Chooses>(
    alloc: Global,
    choice: &C,
    input: &TickTable,
    shown: &RowSet,
    leaving: RowSet,
    coming: RowSet,
    reads: &mut Steps<L>,
) -> Result<Change, AllocError>
    requires exact { IsExact input.now }
    requires old_part { IsPart (C.chosen choice.now input.now.old) input.now.old }
    requires new_part { IsPart (C.chosen choice.now input.now.new) input.now.new }
    requires shown { shown.now ≡ keys (C.chosen choice.now input.now.old).rows }
    requires leaving { leaving ≡ (between (through (C.chosen choice.now) (tick_of input.now))).removed }
    requires coming { coming ≡ (between (through (C.chosen choice.now) (tick_of input.now))).added }
    ensures change { IfOk result (λ change. change ≡ change_of (through (C.chosen choice.now) (tick_of input.now))) }
    ensures reads { reads.new ≤ reads.old + input.now.new.width * (2 * length input.now.update.modified + length coming) }
{
    let update = input.update();
    let staying = update.modified().len().min(shown.len());
    let rows = coming.len().saturating_add(staying) as usize;
    let mut cells = Vec::with_capacity(alloc, rows.saturating_mul(input.width() as usize))?;
    input.all_now(&coming, &mut cells, reads)?;
    let told = tell_staying(alloc, input, shown, &leaving, cells, reads)?;
    let shifted = update.shifted().canonical_without(shown, &leaving)?;
    Ok(Change {
        update: Update {
            removed: leaving,
            added: coming,
            modified: told.modified,
            shifted,
            columns: told.columns,
        },
        cells: Items::of(told.cells),
    })
}
