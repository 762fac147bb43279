//! The keys to which a set of keys moves.
ghost use Rattle.std.specs.Prelude.{◌≡◌, ◌-◌, ◌^◌, ◌<◌, ◌≤◌, ◌++◌, pos, negsuc, ◌+ℤ◌, ◌<ℤ◌, false, IfOk, OnOk};
ghost use Rattle.std.specs.List.{AllByRecursion};
ghost use Rattle.key_lists.specs.Keys.{IsRising};
ghost use Rattle.row_set.specs.Ranges.{keys_in};
ghost use Rattle.tick_model.specs.Rules.{is_past, landed};
ghost use Rattle.tick_model.specs.Shifts.{moved, as_key};
ghost use Rattle.shift_data.specs.ShiftLists.{IsShiftList};
ghost use Rattle.shift_data.specs.Moves.{IsLawful};

use crate::ahead::shifts_from;
use crate::parts::segment_at;
use crate::search::place_of;
use row_set::{Range, RowSet};
use std::alloc::{AllocError, Global};
use tick_model::update::ShiftRange;

/// The keys to which these keys move.
pub(crate) fn moved_keys(
    alloc: Global,
    shifts: &[ShiftRange],
    keys: &RowSet,
) -> Result<RowSet, AllocError>
    requires shifts { IsShiftList shifts.now }
    requires lawful { IsLawful shifts.now keys.now }
    ensures { IfOk result (λ set. set ≡ landed shifts.now keys.now) }
{
    let runs = keys.ranges();
    let mut places = RowSet::with_capacity(alloc, runs.len())?;
    let mut ranges = shifts;
    for run in runs {
        ranges = shifts_from(ranges, run.first);
        move_run(ranges, *run, &mut places)?;
    }
    Ok(places)
}

/// Adds the keys to which a run of neighbouring keys moves, which are past those that are there.
fn move_run(shifts: &[ShiftRange], run: Range, places: &mut RowSet) -> Result<(), AllocError>
    requires shifts { IsShiftList shifts.now }
    requires order { run.first ≤ run.last }
    requires small { run.last < 2 ^ 62 }
    requires inside { AllByRecursion (λ key. is_past (2 ^ 62) (moved shifts.now key) ≡ false) (keys_in run) }
    requires rising { IsRising (places.old ++ landed shifts.now (keys_in run)) }
    ensures { OnOk result (places.new ≡ places.old ++ landed shifts.now (keys_in run)) }
{
    let mut from = run.first;
    while from <= run.last {
        let segment = segment_at(shifts, from);
        let last = segment.last.min(run.last);
        let first_place = landing(from, segment.delta);
        let last_place = landing(last, segment.delta);
        places.insert_range(first_place, last_place)?;
        from = last + 1;
    }
    Ok(())
}

/// The key to which a key moves by delta.
pub(crate) fn landing(key: u64, delta: i64) -> u64
    requires key { key < 2 ^ 62 }
    requires up { delta <ℤ pos (2 ^ 62) }
    requires down { negsuc (2 ^ 62 - 1) <ℤ delta }
    requires inside { is_past (2 ^ 62) (pos key +ℤ delta) ≡ false }
    ensures key { result ≡ as_key (pos key +ℤ delta) }
    ensures small { result < 2 ^ 62 }
{
    place_of(key, delta) as u64
}
