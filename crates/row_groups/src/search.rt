//! The search for a place among the rows of a group, which stand in chunks.
ghost use Rattle.std.specs.Prelude.{◌≡◌, ◌+◌, ◌<◌, ◌≤◌, true, false, length, take, drop, IsSome};
ghost use Rattle.std.specs.List.{AllByRecursion};
ghost use Rattle.chunk_list.specs.Chunked.{joined, list_at, position_in};
ghost use Rattle.row_handles.specs.Entries.{key_with};
ghost use Rattle.row_groups.specs.Slots.{AreKnown, is_before, IsParted};

use crate::place::{GroupRow, SearchKey};
use chunk_list::{ChunkPosition as Spot, Chunks};
use row_handles::{inside, likely_place};

/// Among fewer rows or chunks a place is looked for from the middle on.
const FEW: usize = 16;

/// So far from the likely place the second look goes.
const NEAR: usize = 3;

/// By what a row stands evenly between others: where there are several `at`, by these.
fn rank(at: i64) -> u64 {
    at.abs_diff(i64::MIN)
}

/// Where a place is likely to be among so many rows or chunks: where it would be if rows stood evenly between `lower`, the first
/// row, and `upper`, the last or the one behind it, by `at`, or by key where these two have one `at`. Among few it is the middle.
fn likely_among(lower: &GroupRow, upper: &GroupRow, count: usize, place: &SearchKey<'_>) -> usize
    requires lower { IsSome (key_with lower.now.handle place.now.handles.now) }
    requires upper { IsSome (key_with upper.now.handle place.now.handles.now) }
{
    if count < FEW {
        return count / 2;
    }
    let first = place.table.at(lower.handle as usize);
    let last = place.table.at(upper.handle as usize);
    let (least, most, own) = if first == last {
        let least = place.handles.key_of(lower.handle as usize);
        let most = place.handles.key_of(upper.handle as usize);
        (least, most, place.key)
    } else {
        (rank(first), rank(last), rank(place.at))
    };
    likely_place(least, most, own, count)
}

/// How many rows of a chunk stand before a place. It is looked for near the likely place, and farther from it by growing steps.
/// `upper` is the last row or the one behind it.
fn rows_before(rows: &[GroupRow], upper: &GroupRow, place: &SearchKey<'_>) -> usize
    requires some { 0 < length rows.now }
    requires upper { IsSome (key_with upper.now.handle place.now.handles.now) }
    requires known { AreKnown place.now.handles.now rows.now }
    requires parted { IsParted (is_before place.now.handles.now place.now.table.now place.now.at place.now.key) rows.now }
    ensures within { result ≤ length rows.now }
    ensures before { AllByRecursion (λ slot. is_before place.now.handles.now place.now.table.now place.now.at place.now.key slot ≡ true) (take result rows.now) }
    ensures others { AllByRecursion (λ slot. is_before place.now.handles.now place.now.table.now place.now.at place.now.key slot ≡ false) (drop result rows.now) }
{
    let mut guess = likely_among(&rows[0], upper, rows.len(), place);
    let mut step = NEAR;
    let mut low = 0;
    let mut high = rows.len();
    while low < high {
        let middle = inside(guess, low, high);
        let far = step;
        step = step.saturating_mul(2);
        if place.is_after(rows[middle]) {
            low = middle + 1;
            guess = middle.saturating_add(far);
        } else {
            high = middle;
            guess = middle.checked_sub(far).unwrap_or(high);
        }
    }
    low
}

/// The chunk in which the rows before a place end: the first, or the last that begins before the place. It is looked for as a row is.
fn chunk_before(chunks: &Chunks<GroupRow>, place: &SearchKey<'_>) -> usize
    requires some { 0 < length chunks.now }
    requires known { AreKnown place.now.handles.now (joined chunks.now) }
    requires parted { IsParted (is_before place.now.handles.now place.now.table.now place.now.at place.now.key) (joined chunks.now) }
    ensures within { result < length chunks.now }
    ensures before { AllByRecursion (λ slot. is_before place.now.handles.now place.now.table.now place.now.at place.now.key slot ≡ true) (joined (take result chunks.now)) }
    ensures others { AllByRecursion (λ slot. is_before place.now.handles.now place.now.table.now place.now.at place.now.key slot ≡ false) (joined (drop (result + 1) chunks.now)) }
{
    let mut low = 0;
    let mut high = chunks.len() - 1;
    let end = chunks.chunk(high);
    let upper = &end[end.len() - 1];
    let mut guess = likely_among(&chunks.chunk(0)[0], upper, chunks.len(), place);
    let mut step = NEAR;
    while low < high {
        let middle = inside(guess, low, high);
        let far = step;
        step = step.saturating_mul(2);
        if place.is_after(chunks.chunk(middle + 1)[0]) {
            low = middle + 1;
            guess = middle.saturating_add(far);
        } else {
            high = middle;
            guess = middle.checked_sub(far).unwrap_or(high);
        }
    }
    low
}

/// Where the rows before a place end. Where there are none, a look at the first row shows it.
pub(crate) fn spot_before(chunks: &Chunks<GroupRow>, place: &SearchKey<'_>) -> Spot
    requires known { AreKnown place.now.handles.now (joined chunks.now) }
    requires parted { IsParted (is_before place.now.handles.now place.now.table.now place.now.at place.now.key) (joined chunks.now) }
    ensures within { result.index ≤ length chunks.now }
    ensures index { 0 < length chunks.now → result.index < length chunks.now }
    ensures offset { result.offset ≤ length (list_at result.index chunks.now) }
    ensures before { AllByRecursion (λ slot. is_before place.now.handles.now place.now.table.now place.now.at place.now.key slot ≡ true) (take (position_in chunks.now result) (joined chunks.now)) }
    ensures others { AllByRecursion (λ slot. is_before place.now.handles.now place.now.table.now place.now.at place.now.key slot ≡ false) (drop (position_in chunks.now result) (joined chunks.now)) }
{
    let none = Spot {
        index: 0,
        offset: 0,
    };
    let Some(first) = chunks.first() else {
        return none;
    };
    if !place.is_after(*first) {
        return none;
    }
    let count = chunks.len();
    let index = chunk_before(chunks, place);
    let rows = chunks.chunk(index);
    let next = index + 1;
    let upper = if next < count {
        &chunks.chunk(next)[0]
    } else {
        &rows[rows.len() - 1]
    };
    Spot {
        index,
        offset: rows_before(rows, upper, place),
    }
}
