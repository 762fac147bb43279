//! The change of an operator that has a row for each row of its input, under its key.

ghost use Rattle.std.specs.Prelude.{◌≡◌, ◌+◌, ◌*◌, ◌≤◌, length, IfOk};
ghost use Rattle.tick_model.specs.Changes.{change_of};
ghost use Rattle.tick_model.specs.Updates.{pairs};
ghost use Rattle.tick_table.specs.Exact.{IsExact, tick_of};
ghost use Rattle.row_changes.specs.Mapped.{IsMapped, mapped_tick};
ghost use Rattle.row_changes.specs.Parts.{AreCompared};

use crate::made::change_of_touched;
use crate::rows::Rows;
use crate::touched::Touched;
use row_set::RowSet;
use std::alloc::{AllocError, Global};
use std::sync::ledger::Ledger;
use tick_table::{Change, Steps, TickTable, Version};

/// The change of an operator that has a row for each row of its input, under its key, where `before` and `now` have the
/// keys of the rows that stay and may differ, place by place. The rows that go, come and move are those of the input. Where
/// it is refused, no more rows are read.
pub fn mapped<L: Ledger, R: Rows<L>>(
    alloc: Global,
    rows: &R,
    width: u32,
    input: &TickTable,
    before: RowSet,
    now: RowSet,
    reads: &mut Steps<L>,
) -> Result<Change, AllocError>
    requires ready { R.ready rows.now }
    requires width { width ≡ (R.table rows.now Version.Now).width }
    requires few { width ≤ 32 }
    requires exact { IsExact input.now }
    requires tables { IsMapped (tick_of input.now) (R.table rows.now Version.Before) (R.table rows.now Version.Now) }
    requires compared { AreCompared (R.table rows.now Version.Before) (R.table rows.now Version.Now) (pairs input.now.old input.now.update) before now }
    ensures change { IfOk result (λ change. change ≡ change_of (mapped_tick (R.table rows.now Version.Before) (R.table rows.now Version.Now) (tick_of input.now))) }
    ensures reads { reads.new ≤ reads.old + R.row_reads rows.now * (2 * length now + length input.now.update.added) }
{
    let update = input.update();
    let removed = update.removed().copy()?;
    let added = update.added().copy()?;
    let shifted = update.shifted().copy()?;
    let touched = Touched {
        removed,
        added,
        shifted,
        compared_before: before,
        compared_now: now,
    };
    change_of_touched(alloc, rows, width, touched, reads)
}
