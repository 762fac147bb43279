//! The touched groups whose first row stays the first.

ghost use Rattle.std.specs.Prelude.{◌≡◌, ◌≤◌, ◌&&◌, not, length, take, None, Some, if◌then◌else◌, IfOk, IsTrue};
ghost use Rattle.agg_by.specs.Kept.{Keeps};
ghost use Rattle.agg_by.specs.Notes.{IsNoted};
ghost use Rattle.agg_by.specs.Steps.{first_keys, staying, stays, touched_firsts};
ghost use Rattle.agg_by.specs.Touched.{AreLed};
ghost use Rattle.key_lists.specs.Keys.{is_among};
ghost use Rattle.tick_model.specs.Agg.{agg_table};
ghost use Rattle.tick_model.specs.Tables.{cells_at, same_cells};
ghost use Rattle.tick_model.specs.Updates.{kept_pair};
ghost use Rattle.tick_table.specs.Exact.{IsExact};

use crate::firsts::LedGroup;
use crate::kept::AggIndex;
use crate::notes::PriorRows;
use row_set::RowSet;
use shown_rows::KeyPairs;
use std::alloc::{AllocError, Global};
use tick_model::update::KeyPair;
use tick_table::TickTable;

/// The first rows of noted groups that are first rows with the same key cells again, by their keys before and now. `firsts` has
/// the keys of the first rows of the touched groups now, and `led` these groups.
pub(crate) fn staying_firsts(
    alloc: Global,
    kept: &AggIndex,
    input: &TickTable,
    notes: &PriorRows,
    firsts: &RowSet,
    led: &[LedGroup],
) -> Result<KeyPairs, AllocError>
    requires exact { IsExact input.now }
    requires keeps { Keeps kept.now input.now.new.rows }
    requires noted { IsNoted notes.now (agg_table kept.now.by kept.now.aggs input.now.old) }
    requires keys { notes.now.keys ≡ touched_firsts kept.now.by input.now input.now.old.rows }
    requires firsts { firsts.now ≡ touched_firsts kept.now.by input.now input.now.new.rows }
    requires led { AreLed kept.now.rows led.now }
    ensures { IfOk result (λ pairs. pairs ≡ staying kept.now.by input.now) }
{
    let mut staying = KeyPairs::new(alloc);
    let mut position = 0;
    for old in &notes.keys {
        let row = notes.row_at(position);
        position += 1;
        let Some(pair) = staying_pair(kept, input, firsts, led, old, row) else {
            continue;
        };
        staying = staying.with_last(pair)?;
    }
    Ok(staying)
}

/// The keys before and now of a first row of before, which is noted, if it is a first row with the same key cells again.
fn staying_pair(
    kept: &AggIndex,
    input: &TickTable,
    firsts: &RowSet,
    led: &[LedGroup],
    old: u64,
    row: &[i64],
) -> Option<KeyPair>
    requires exact { IsExact input.now }
    requires keeps { Keeps kept.now input.now.new.rows }
    requires firsts { firsts.now ≡ touched_firsts kept.now.by input.now input.now.new.rows }
    requires led { AreLed kept.now.rows led.now }
    requires first { IsTrue (is_among old (first_keys kept.now.by input.now.old.rows)) }
    requires noted { row.now ≡ cells_at old (agg_table kept.now.by kept.now.aggs input.now.old).rows }
    ensures { result
        ≡ (if not (is_among old input.now.update.removed) && stays kept.now.by input.now (kept_pair input.now.update old)
        then Some (kept_pair input.now.update old) else None) }
{
    if input.update().removed().contains(old) {
        return None;
    }
    let new = input.update().shifted().landing(old);
    if !firsts.contains(new) {
        return None;
    }
    let place = led.partition_point(|group| group.first < new);
    let number = kept.number_led(new, led, place);
    let group = kept.rows.group_at(number).unwrap();
    if !has_key_cells(kept, group.cells(), row) {
        return None;
    }
    Some(KeyPair { old, new })
}

/// Whether a group's row begins with these key cells.
fn has_key_cells(kept: &AggIndex, cells: &[i64], row: &[i64]) -> bool
    requires { length kept.now.by ≤ length row.now }
    ensures { result ≡ same_cells cells.now (take (length kept.now.by) row.now) }
{
    cells == &row[..kept.by.len()]
}
