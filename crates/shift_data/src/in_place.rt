//! The keys of a set moved in place.
ghost use Rattle.std.specs.Prelude.{◌≡◌, ◌-◌, ◌^◌, ◌<◌, ◌≤◌, pos, negsuc, ◌<ℤ◌, [], false, IfSome, IfNone, IfOk, OnOk};
ghost use Rattle.std.specs.List.{AllByRecursion};
ghost use Rattle.key_lists.specs.Keys.{IsRising};
ghost use Rattle.row_set.specs.Choice.{AreAhead};
ghost use Rattle.row_set.specs.Ranges.{keys_of};
ghost use Rattle.row_set.specs.Sets.{IsKeySet};
ghost use Rattle.tick_model.specs.Rules.{is_past, landed};
ghost use Rattle.tick_model.specs.Shifts.{delta_at, holds, moved};
ghost use Rattle.shift_data.specs.ShiftLists.{IsShiftList};
ghost use Rattle.shift_data.specs.Moves.{IsLawful};
ghost use Rattle.shift_data.specs.Movers.{IsMove, movers};
ghost use Rattle.shift_data.specs.Parts.{IsLastUpTo};

use crate::ahead::{runs_from, shifts_from};
use crate::apply::{landing, moved_keys};
use crate::canonical::canonical_through;
use crate::parts::{Part, last_up_to, segment_at};
use row_set::{Range, RowSet};
use std::alloc::{AllocError, Global};
use tick_model::update::ShiftRange;

/// The most ranges of a shift that move one by one, where many ranges of keys move. Each passes over the ranges of keys behind
/// it, so past about so many it costs less to put all keys down anew.
const FEW_RANGES: usize = 8;

/// The keys, moved. Those of a lone range move where they lie. Of several, where few ranges of keys move, these are taken out
/// and put in where they land, and where many do, they move where they lie too, or all are put down anew.
pub(crate) fn move_keys(
    alloc: Global,
    shifts: &[ShiftRange],
    keys: RowSet,
) -> Result<RowSet, AllocError>
    requires shifts { IsShiftList shifts.now }
    requires lawful { IsLawful shifts.now keys }
    ensures { IfOk result (λ places. places ≡ landed shifts.now keys) }
{
    match shifts {
        [] | [_] => move_ranges(shifts, keys),
        _ if !many_move(shifts, keys.ranges()) => move_parts(alloc, shifts, keys),
        _ if shifts.len() <= FEW_RANGES => move_ranges(shifts, keys),
        _ => moved_keys(alloc, shifts, &keys),
    }
}

/// The keys, moved by one shift and then by the next: at once, where both have few ranges.
pub(crate) fn move_through(
    alloc: Global,
    shifts: &[ShiftRange],
    next: &[ShiftRange],
    keys: RowSet,
) -> Result<RowSet, AllocError>
    requires shifts { IsShiftList shifts.now }
    requires next { IsShiftList next.now }
    requires lawful { IsLawful shifts.now keys }
    requires next_lawful { IsLawful next.now (landed shifts.now keys) }
    ensures { IfOk result (λ places. places ≡ landed next.now (landed shifts.now keys)) }
{
    let _ = keys.ranges();
    if shifts.len().saturating_add(next.len()) > FEW_RANGES {
        let places = move_keys(alloc, shifts, keys)?;
        return move_keys(alloc, next, places);
    }
    let both = canonical_through(alloc, shifts, next, &keys)?;
    move_ranges(&both, keys)
}

/// Whether one of eight ranges of keys moves, or more, as far as those that the shift meets can tell. About there the cost of
/// all ranges is that of taking those that move out and putting them in again.
fn many_move(shifts: &[ShiftRange], runs: &[Range]) -> bool {
    let many = runs.len() / 8;
    if many <= shifts.len() {
        return true;
    }
    let mut met: usize = 0;
    for range in shifts {
        met = met.saturating_add(count_met(*range, runs));
        if many <= met {
            return true;
        }
    }
    false
}

/// How many ranges of keys one of a shift meets.
fn count_met(range: ShiftRange, runs: &[Range]) -> usize {
    let before = runs.partition_point(|run| run.last < range.begin);
    let begun = runs.partition_point(|run| run.first <= range.end);
    begun.saturating_sub(before)
}

/// The keys, moved range by range where they lie, so that they rise all the while: those that fall are taken from the least
/// range up, and those that rise from the greatest range down. A key that fell may lie between those of a range and its end,
/// so the range takes the keys up to the last that it held before.
fn move_ranges(shifts: &[ShiftRange], mut keys: RowSet) -> Result<RowSet, AllocError>
    requires shifts { IsShiftList shifts.now }
    requires inside { AllByRecursion (λ key. is_past (2 ^ 62) (moved shifts.now key) ≡ false) keys }
    requires rising { IsRising (landed shifts.now keys) }
    ensures { IfOk result (λ places. places ≡ landed shifts.now keys) }
{
    match shifts {
        [] => Ok(keys),
        [range, others @ ..] => match last_held(*range, &keys) {
            None => move_ranges(others, keys),
            Some(last) if range.delta < 0 => {
                keys.shift_range(range.begin, last, range.delta)?;
                move_ranges(others, keys)
            }
            Some(last) => {
                let mut places = move_ranges(others, keys)?;
                places.shift_range(range.begin, last, range.delta)?;
                Ok(places)
            }
        },
    }
}

/// The last key of a set that a range holds.
fn last_held(range: ShiftRange, keys: &RowSet) -> Option<u64>
    requires { range.end < 2 ^ 62 }
    ensures none { IfNone result (AllByRecursion (λ key. holds range key ≡ false) keys.now) }
    ensures begin { IfSome result (λ last. range.begin ≤ last) }
    ensures last { IfSome result (IsLastUpTo keys.now range.end) }
    ensures keys { IsKeySet keys.now }
{
    let last = last_up_to(keys, range.end)?;
    (range.begin <= last).then_some(last)
}

/// The keys, moved part by part: those that a range holds are taken out and put in where they land.
fn move_parts(alloc: Global, shifts: &[ShiftRange], mut keys: RowSet) -> Result<RowSet, AllocError>
    requires shifts { IsShiftList shifts.now }
    requires lawful { IsLawful shifts.now keys }
    ensures { IfOk result (λ places. places ≡ landed shifts.now keys) }
{
    let mut left = RowSet::with_capacity(alloc, 0)?;
    let mut came = RowSet::with_capacity(alloc, 0)?;
    part_keys(shifts, &keys, &mut left, &mut came)?;
    keys.remove_all(&left)?;
    keys.insert_all(&came)?;
    Ok(keys)
}

/// Puts the keys that move into one empty set, and those to which they move into another. The ranges of both are gone over
/// once, side by side, but those of keys that stay.
fn part_keys(
    shifts: &[ShiftRange],
    keys: &RowSet,
    left: &mut RowSet,
    came: &mut RowSet,
) -> Result<(), AllocError>
    requires shifts { IsShiftList shifts.now }
    requires lawful { IsLawful shifts.now keys.now }
    requires none_left { left.old ≡ [] }
    requires none_came { came.old ≡ [] }
    ensures left { OnOk result (left.new ≡ movers (delta_at shifts.now) keys.now) }
    ensures came { OnOk result (came.new ≡ landed shifts.now (movers (delta_at shifts.now) keys.now)) }
    ensures keys { IsKeySet keys.now }
{
    let mut ranges = shifts;
    let mut runs = keys.ranges();
    let mut from = 0;
    while let Some(part) = move_from(ranges, runs, from) {
        if part.delta != 0 {
            left.insert_range(part.first, part.last)?;
            let first_place = landing(part.first, part.delta);
            let last_place = landing(part.last, part.delta);
            came.insert_range(first_place, last_place)?;
        }
        from = part.last + 1;
        ranges = shifts_from(ranges, from);
        runs = runs_from(runs, from);
    }
    Ok(())
}

/// The first key of the ranges from `from` on, with its neighbours that move by the same delta, or with all numbers that
/// stay.
fn move_from(shifts: &[ShiftRange], runs: &[Range], from: u64) -> Option<Part>
    requires shifts { IsShiftList shifts.now }
    requires ahead { AreAhead from runs.now }
    ensures none { IfNone result (runs.now ≡ []) }
    ensures part { IfSome result (IsMove (delta_at shifts.now) (keys_of runs.now) from) }
    ensures up { IfSome result (λ part. part.delta <ℤ pos (2 ^ 62)) }
    ensures down { IfSome result (λ part. negsuc (2 ^ 62 - 1) <ℤ part.delta) }
{
    let run = *runs.first()?;
    let first = run.first.max(from);
    let segment = segment_at(shifts, first);
    let last = if segment.delta == 0 {
        segment.last
    } else {
        segment.last.min(run.last)
    };
    Some(Part {
        first,
        last,
        delta: segment.delta,
    })
}
