//! The parts of a set of keys that a shift moves by one delta each.
ghost use Rattle.std.specs.Prelude.{◌≡◌, ℕ, ◌-◌, ◌^◌, ◌<◌, ◌≤◌, [], pos, negsuc, ◌<ℤ◌, IfSome, IfNone, true, find, nat_le};
ghost use Rattle.std.specs.List.{AllByRecursion};
ghost use Rattle.key_lists.specs.Keys.{is_among, without};
ghost use Rattle.row_set.specs.Sets.{IsKeySet};
ghost use Rattle.tick_model.specs.Shifts.{delta_at};
ghost use Rattle.shift_data.specs.ShiftLists.{IsShiftList};
ghost use Rattle.shift_data.specs.Moves.{IsLawful, delta_through};
ghost use Rattle.shift_data.specs.Parts.{from_on, IsPart, IsSegment, IsLastUpTo};

use crate::apply::landing;
use crate::search::ended_before;
use row_set::RowSet;
use tick_model::limits::KEY_SPACE;
use tick_model::update::ShiftRange;

/// The keys from `first` to `last`, which all move by `delta`. Both are keys of the set that it is a part of.
#[derive(Clone, Copy)]
pub(crate) struct Part {
    pub(crate) first: u64,
    pub(crate) last: u64,
    pub(crate) delta: i64,
}

/// The numbers up to `last` from a number on, which as keys all move by `delta`.
#[derive(Clone, Copy)]
pub(crate) struct Segment {
    pub(crate) last: u64,
    pub(crate) delta: i64,
}

/// The segment that begins at a key.
pub(crate) fn segment_at(shifts: &[ShiftRange], key: u64) -> Segment
    requires shifts { IsShiftList shifts.now }
    requires key { key < 2 ^ 62 }
    ensures segment { IsSegment (delta_at shifts.now) key result }
    ensures up { result.delta <ℤ pos (2 ^ 62) }
    ensures down { negsuc (2 ^ 62 - 1) <ℤ result.delta }
{
    match shifts.get(ended_before(shifts, key)) {
        Some(range) if range.begin <= key => Segment {
            last: range.end,
            delta: range.delta,
        },
        Some(range) => Segment {
            last: range.begin - 1,
            delta: 0,
        },
        None => Segment {
            last: KEY_SPACE - 1,
            delta: 0,
        },
    }
}

/// The greatest key of a set that is not above this one.
pub(crate) fn last_up_to(keys: &RowSet, key: u64) -> Option<u64>
    requires { key < 2 ^ 63 }
    ensures last { IfSome result (IsLastUpTo keys.now key) }
    ensures none { IfNone result (AllByRecursion (λ other. key < other) keys.now) }
    ensures keys { IsKeySet keys.now }
{
    let count = keys.count_below(key + 1);
    keys.get(count.checked_sub(1)?)
}

/// The part that begins with the first key from `from` on.
pub(crate) fn part_from(shifts: &[ShiftRange], keys: &RowSet, from: u64) -> Option<Part>
    requires { IsShiftList shifts.now }
    ensures none { IfNone result (from_on from keys.now ≡ []) }
    ensures part { IfSome result (IsPart (delta_at shifts.now) keys.now from) }
    ensures up { IfSome result (λ part. part.delta <ℤ pos (2 ^ 62)) }
    ensures down { IfSome result (λ part. negsuc (2 ^ 62 - 1) <ℤ part.delta) }
    ensures keys { IsKeySet keys.now }
{
    let first = keys.next_from(from)?;
    let segment = segment_at(shifts, first);
    let last = last_up_to(keys, segment.last).unwrap_or(first);
    Some(Part {
        first,
        last,
        delta: segment.delta,
    })
}

/// The part that begins with the first key from `from` on, where the keys move by one shift and then by the next.
pub(crate) fn part_through(
    shifts: &[ShiftRange],
    next: &[ShiftRange],
    keys: &RowSet,
    from: u64,
) -> Option<Part>
    requires shifts { IsShiftList shifts.now }
    requires next { IsShiftList next.now }
    requires lawful { IsLawful shifts.now keys.now }
    ensures none { IfNone result (from_on from keys.now ≡ []) }
    ensures part { IfSome result (IsPart (delta_through shifts.now next.now) keys.now from) }
    ensures keys { IsKeySet keys.now }
{
    let part = part_from(shifts, keys, from)?;
    let place = landing(part.first, part.delta);
    let further = segment_at(next, place);
    let high = part.last.min(part.first + (further.last - place));
    let last = last_up_to(keys, high).unwrap_or(part.first);
    Some(Part {
        first: part.first,
        last,
        delta: part.delta + further.delta,
    })
}

/// The part that begins with the first key from `from` on, of the keys but those that are left out.
pub(crate) fn part_without(
    shifts: &[ShiftRange],
    keys: &RowSet,
    left_out: &RowSet,
    from: u64,
) -> Option<Part>
    requires { IsShiftList shifts.now }
    ensures none { IfNone result (from_on from (without left_out.now keys.now) ≡ []) }
    ensures part { IfSome result (IsPart (delta_at shifts.now) (without left_out.now keys.now) from) }
    ensures up { IfSome result (λ part. part.delta <ℤ pos (2 ^ 62)) }
    ensures down { IfSome result (λ part. negsuc (2 ^ 62 - 1) <ℤ part.delta) }
    ensures keys { IsKeySet keys.now }
{
    let first = next_kept(keys, left_out, from)?;
    let segment = segment_at(shifts, first);
    let last = last_kept(keys, left_out, segment.last).unwrap_or(first);
    Some(Part {
        first,
        last,
        delta: segment.delta,
    })
}

/// The first key from `from` on that is not left out.
pub(crate) fn next_kept(keys: &RowSet, left_out: &RowSet, mut from: u64) -> Option<u64>
    ensures key { result ≡ find (nat_le from) (without left_out.now keys.now) }
    ensures keys { IsKeySet keys.now }
{
    loop {
        let key = keys.next_from(from)?;
        match left_out.range_at(key) {
            Some(run) => from = run.last + 1,
            None => return Some(key),
        }
    }
}

/// The greatest key up to `high` that is not left out.
fn last_kept(keys: &RowSet, left_out: &RowSet, mut high: u64) -> Option<u64>
    requires { high < 2 ^ 63 }
    ensures { IfSome result (IsLastUpTo (without left_out.now keys.now) high) }
{
    loop {
        let key = last_up_to(keys, high)?;
        match left_out.range_at(key) {
            Some(run) => high = run.first.checked_sub(1)?,
            None => return Some(key),
        }
    }
}
