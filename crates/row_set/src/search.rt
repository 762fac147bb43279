//! Searches in lists of ranges that ascend with a gap between any two, and in the positions at which their blocks begin.
ghost use Rattle.std.specs.Prelude.{◌≡◌, ◌<◌, ◌≤◌, length, take, drop, find, nat_le, slice_get};
ghost use Rattle.std.specs.Bool.{OnTrue};
ghost use Rattle.std.specs.List.{AllByRecursion};
ghost use Rattle.std.specs.List.Sorted.{IsNonDecreasing, IsPartitionPoint};
ghost use Rattle.row_set.specs.Ranges.{AreApart, AreRanges, Meets, holds, keys_of};
ghost use Rattle.row_set.specs.Sets.{last_key};

use crate::ranges::Range;

/// How many of the ranges end before the key. Where all do, this is seen at once.
pub(crate) fn ended_before(ranges: &[Range], key: u64) -> usize
    requires { AreApart 0 ranges.now }
    ensures within { result ≤ length ranges.now }
    ensures ended { AllByRecursion (λ range. range.last < key) (take result ranges.now) }
    ensures others { AllByRecursion (λ range. key ≤ range.last) (drop result ranges.now) }
{
    if all_end_before(ranges, key) {
        return ranges.len();
    }
    ranges.partition_point(|range| range.last < key)
}

/// How many of the ranges end before the key. Where that is none or one, this is seen at once.
pub(crate) fn few_ended_before(ranges: &[Range], key: u64) -> usize
    requires { AreApart 0 ranges.now }
    ensures within { result ≤ length ranges.now }
    ensures ended { AllByRecursion (λ range. range.last < key) (take result ranges.now) }
    ensures others { AllByRecursion (λ range. key ≤ range.last) (drop result ranges.now) }
{
    match ranges {
        [range, ..] if key <= range.last => 0,
        [_, range, ..] if key <= range.last => 1,
        _ => ended_before(ranges, key),
    }
}

/// Whether all ranges end before the key.
pub(crate) fn all_end_before(ranges: &[Range], key: u64) -> bool
    requires { AreApart 0 ranges.now }
    ensures { OnTrue result (AllByRecursion (λ range. range.last < key) ranges.now) }
{
    ranges.is_empty() || ranges[ranges.len() - 1].last < key
}

/// How many of the ranges begin at the key or before it. Where all do, this is seen at once.
pub(crate) fn begun_by(ranges: &[Range], key: u64) -> usize
    requires { AreApart 0 ranges.now }
    ensures within { result ≤ length ranges.now }
    ensures begun { AllByRecursion (λ range. range.first ≤ key) (take result ranges.now) }
    ensures others { AllByRecursion (λ range. key < range.first) (drop result ranges.now) }
{
    let count = ranges.len();
    if count > 0 && ranges[count - 1].first <= key {
        return count;
    }
    ranges.partition_point(|range| range.first <= key)
}

/// How many of the ranges begin at the key or before it. Where that is none or one, this is seen at once.
fn few_begun_by(ranges: &[Range], key: u64) -> usize
    requires { AreApart 0 ranges.now }
    ensures within { result ≤ length ranges.now }
    ensures begun { AllByRecursion (λ range. range.first ≤ key) (take result ranges.now) }
    ensures others { AllByRecursion (λ range. key < range.first) (drop result ranges.now) }
{
    match ranges {
        [range, ..] if key < range.first => 0,
        [_, range, ..] if key < range.first => 1,
        _ => begun_by(ranges, key),
    }
}

/// From which one and up to which one the ranges meet the keys from `low` to `high`.
pub(crate) fn meeting(ranges: &[Range], low: u64, high: u64) -> (usize, usize)
    requires apart { AreApart 0 ranges.now }
    requires order { low ≤ high }
    ensures { Meets low high ranges.now result.0 result.1 }
{
    let from = few_ended_before(ranges, low);
    (from, from + few_begun_by(&ranges[from..], high))
}

/// How many keys the ranges hold.
pub(crate) fn count_in(ranges: &[Range]) -> u64
    requires { AreRanges ranges.now }
    ensures { result ≡ length (keys_of ranges.now) }
{
    let mut count = 0;
    for range in ranges {
        count += range.last - range.first + 1;
    }
    count
}

/// The range that holds the key.
pub(crate) fn range_at(ranges: &[Range], key: u64) -> Option<Range>
    requires { AreApart 0 ranges.now }
    ensures { result ≡ find (holds key) ranges.now }
{
    let index = few_ended_before(ranges, key);
    if index < ranges.len() && ranges[index].first <= key {
        Some(ranges[index])
    } else {
        None
    }
}

/// The least key of the ranges that is not below this one.
pub(crate) fn next_key(ranges: &[Range], key: u64) -> Option<u64>
    requires { AreApart 0 ranges.now }
    ensures { result ≡ find (nat_le key) (keys_of ranges.now) }
{
    let index = few_ended_before(ranges, key);
    if index < ranges.len() {
        Some(ranges[index].first.max(key))
    } else {
        None
    }
}

/// How many of the rising positions are not past this one.
pub(crate) fn started_by(starts: &[u64], position: u64) -> usize
    requires { IsNonDecreasing starts.now }
    ensures within { result ≤ length starts.now }
    ensures cut { IsPartitionPoint (λ start. start ≤ position) (λ start. position < start) starts.now result }
{
    starts.partition_point(|start| *start <= position)
}

/// The key at a position, looked for from the first range on.
pub(crate) fn key_in(ranges: &[Range], position: u64) -> Option<u64>
    requires { AreApart 0 ranges.now }
    ensures { result ≡ slice_get (keys_of ranges.now) position }
{
    let mut offset = position;
    for range in ranges {
        let count = range.last - range.first + 1;
        if offset < count {
            return Some(range.first + offset);
        }
        offset -= count;
    }
    None
}

/// The first key of the ranges.
pub(crate) fn first_key(ranges: &[Range]) -> Option<u64>
    requires { AreApart 0 ranges.now }
    ensures { result ≡ slice_get (keys_of ranges.now) 0 }
{
    if ranges.is_empty() {
        None
    } else {
        Some(ranges[0].first)
    }
}

/// The last key of the ranges.
pub(crate) fn last_key(ranges: &[Range]) -> Option<u64>
    requires { AreApart 0 ranges.now }
    ensures { result ≡ last_key (keys_of ranges.now) }
{
    if ranges.is_empty() {
        None
    } else {
        Some(ranges[ranges.len() - 1].last)
    }
}
