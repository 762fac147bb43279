//! Which rows leave an end of the input in a step, and which come to it.

ghost use Rattle.std.specs.Prelude.{◌≡◌, IfOk};
ghost use Rattle.head_tail.specs.Ends.{end_table};
ghost use Rattle.shown_rows.specs.Shown.{through};
ghost use Rattle.tick_model.specs.Updates.{between};
ghost use Rattle.tick_table.specs.Exact.{IsExact, tick_of};

use crate::edges::end_without;
use crate::end::End;
use crate::places::staying_before;
use row_set::RowSet;
use shown_rows::Crossing;
use std::alloc::AllocError;
use tick_table::TickTable;

/// The rows that leave the `count` rows at an end, and those that come to them.
pub(crate) fn crossing_at(end: End, input: &TickTable, count: u64) -> Result<Crossing, AllocError>
    requires { IsExact input.now }
    ensures leaving { IfOk result (λ crossing. crossing.leaving ≡ (between (through (end_table end count) (tick_of input.now))).removed) }
    ensures coming { IfOk result (λ crossing. crossing.coming ≡ (between (through (end_table end count) (tick_of input.now))).added) }
{
    let update = input.update();
    let before = input.prev_rows();
    let now = input.rows();
    let removed = update.removed();
    let added = update.added();
    let cut_before = end.position(count, before.len());
    let cut_now = end.position(count, now.len());
    let stayed = staying_before(before, removed, cut_before);
    let stay = staying_before(now, added, cut_now);
    let leaving = end_without(end, before, removed, cut_before, stay)?;
    let coming = end_without(end, now, added, cut_now, stayed)?;
    Ok(Crossing { leaving, coming })
}
