//! The change that is made of the rows that a step touches.

ghost use Rattle.std.specs.Prelude.{◌≡◌, ℕ, ◌+◌, ◌*◌, ◌≤◌, List, length, IfOk};
ghost use Rattle.tick_model.specs.declared.table.PlainTable.{PlainTable};
ghost use Rattle.tick_model.specs.declared.update.KeyPair.{KeyPair};
ghost use Rattle.tick_model.specs.Changes.{change_of};
ghost use Rattle.row_changes.specs.Parts.{AreParts, AreThere, tick_along};

use crate::rows::Rows;
use crate::told::compare_rows;
use crate::touched::Touched;
use std::alloc::{AllocError, Global};
use std::sync::ledger::Ledger;
use table_update::Update;
use tick_model::items::Items;
use tick_table::{Change, Steps, Version};

/// The change from the table before the step to the table now, made of the rows that the step touches: where they are the
/// parts of the change along some pairs of rows that stay, it is the change along these pairs. It reads the added rows, and
/// the rows that may differ twice, before and now; where it is refused, no more than these.
pub fn change_of_touched<L: Ledger, R: Rows<L>>(
    alloc: Global,
    rows: &R,
    width: u32,
    touched: Touched,
    reads: &mut Steps<L>,
) -> Result<Change, AllocError>
    requires ready { R.ready rows.now }
    requires width { width ≡ (R.table rows.now Version.Now).width }
    requires few { width ≤ 32 }
    requires even { length touched.compared_before ≡ length touched.compared_now }
    requires added { AreThere (R.table rows.now Version.Now) touched.added }
    requires before { AreThere (R.table rows.now Version.Before) touched.compared_before }
    requires now { AreThere (R.table rows.now Version.Now) touched.compared_now }
    ensures change { IfOk result (λ change. (kept : List KeyPair) → AreParts (R.table rows.now Version.Before) (R.table rows.now Version.Now) touched kept → change ≡ change_of (tick_along (R.table rows.now Version.Before) (R.table rows.now Version.Now) kept)) }
    ensures reads { reads.new ≤ reads.old + R.row_reads rows.now * (2 * length touched.compared_now + length touched.added) }
{
    let Touched {
        removed,
        added,
        shifted,
        compared_before,
        compared_now,
    } = touched;
    let room = (added.len() as usize).saturating_mul(width as usize);
    let mut cells = Vec::with_capacity(alloc, room)?;
    rows.all_now(&added, &mut cells, reads)?;
    let told = compare_rows(
        alloc,
        rows,
        width,
        &compared_before,
        &compared_now,
        cells,
        reads,
    )?;
    Ok(Change {
        update: Update {
            removed,
            added,
            modified: told.modified,
            shifted,
            columns: told.columns,
        },
        cells: Items::of(told.cells),
    })
}
