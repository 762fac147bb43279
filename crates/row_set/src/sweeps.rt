//! Edits of a set's ranges by many others, in one sweep from the least key on.
ghost use Rattle.std.specs.Prelude.{◌≡◌, ◌+◌, ◌^◌, ◌<◌, ◌≤◌, length, take, drop, vec_len, vec_capacity};
ghost use Rattle.std.specs.List.{AllByRecursion};
ghost use Rattle.key_lists.specs.Keys.{without};
ghost use Rattle.row_set.specs.Gaps.{ArePassed, IsGap, around};
ghost use Rattle.row_set.specs.Ranges.{AreApart, keys_from, keys_of};
ghost use Rattle.row_set.specs.Sets.{united};

use crate::edits::{cut, joined, left_edge, right_edge};
use crate::gaps::{Gap, count_given, pass, put_after, put_before, with_places};
use crate::ranges::Range;
use crate::search::{few_ended_before, meeting};

/// The places that are free before the ranges or, where none is, an empty gap past the ranges that end before the others.
fn gap_for(ranges: &[Range], front: usize, others: &[Range]) -> Gap
    requires free { front ≤ length ranges.now }
    requires apart { AreApart 0 (drop front ranges.now) }
    ensures gap { IsGap result ranges.now }
    ensures same { around result ranges.now ≡ drop front ranges.now }
    ensures passed { ArePassed (take result.start ranges.now) others.now }
    ensures size { result.end ≡ result.start + front }
    ensures first { 0 < result.start → front ≡ 0 }
{
    if front > 0 {
        return Gap {
            start: 0,
            end: front,
        };
    }
    let index = match others {
        [] => ranges.len(),
        [range, ..] => few_ended_before(ranges, range.first.saturating_sub(1)),
    };
    Gap {
        start: index,
        end: index,
    }
}

/// Adds every key from `first` to `last`, which the gap has come to, and moves the gap on to them. Where an empty gap must
/// have a place, so many are opened.
fn insert_next(ranges: &mut Vec<Range>, gap: Gap, first: u64, last: u64, size: usize) -> Gap
    requires gap { IsGap gap ranges.old.items }
    requires some { 0 < size }
    requires room { vec_len ranges.old + gap.start + size ≤ vec_capacity ranges.old + gap.end }
    requires apart { AreApart 0 (around gap ranges.old.items) }
    requires passed { AllByRecursion (λ range. range.last + 2 ≤ first) (take gap.start ranges.old.items) }
    requires order { first ≤ last }
    requires small { last < 2 ^ 62 }
    ensures gap { IsGap result ranges.new.items }
    ensures apart { AreApart 0 (around result ranges.new.items) }
    ensures keys { keys_of (around result ranges.new.items) ≡ united (keys_from first last) (keys_of (around gap ranges.old.items)) }
    ensures passed { AllByRecursion (λ range. range.last + 2 ≤ first) (take result.start ranges.new.items) }
    ensures before { take gap.start ranges.new.items ≡ take gap.start ranges.old.items }
    ensures start { gap.start ≤ result.start }
    ensures growth { vec_len ranges.new + result.start + gap.end ≤ vec_len ranges.old + gap.start + result.end + 1 }
    ensures capacity { vec_capacity ranges.old ≤ vec_capacity ranges.new }
{
    let (from, to) = meeting(&ranges[gap.end..], first.saturating_sub(1), last + 1);
    let range = joined(&ranges[gap.end + from..gap.end + to], first, last);
    let gap = pass(ranges, gap, from);
    let gap = with_places(ranges, gap, to - from, 1, size);
    put_after(ranges, gap, to - from, Some(range))
}

/// Removes every key from `first` to `last`, which the gap has come to, and moves the gap on to where they were. Where an
/// empty gap must have a place, so many are opened.
fn remove_next(ranges: &mut Vec<Range>, gap: Gap, first: u64, last: u64, size: usize) -> Gap
    requires gap { IsGap gap ranges.old.items }
    requires some { 0 < size }
    requires room { vec_len ranges.old + gap.start + size ≤ vec_capacity ranges.old + gap.end }
    requires apart { AreApart 0 (around gap ranges.old.items) }
    requires passed { AllByRecursion (λ range. range.last + 2 ≤ first) (take gap.start ranges.old.items) }
    requires order { first ≤ last }
    requires small { last < 2 ^ 62 }
    ensures gap { IsGap result ranges.new.items }
    ensures apart { AreApart 0 (around result ranges.new.items) }
    ensures keys { keys_of (around result ranges.new.items) ≡ without (keys_from first last) (keys_of (around gap ranges.old.items)) }
    ensures passed { AllByRecursion (λ range. range.last < first) (take result.start ranges.new.items) }
    ensures before { take gap.start ranges.new.items ≡ take gap.start ranges.old.items }
    ensures start { gap.start ≤ result.start }
    ensures growth { vec_len ranges.new + result.start + gap.end ≤ vec_len ranges.old + gap.start + result.end + 1 }
    ensures capacity { vec_capacity ranges.old ≤ vec_capacity ranges.new }
{
    let (from, to) = meeting(&ranges[gap.end..], first, last);
    let gap = pass(ranges, gap, from);
    if from == to {
        return gap;
    }
    let left = left_edge(ranges[gap.end], first);
    let right = right_edge(ranges[gap.end + (to - from) - 1], last);
    let edges = count_given(left, right);
    let gap = with_places(ranges, gap, to - from, edges, size);
    let gap = put_after(ranges, gap, to - from, right);
    put_before(ranges, gap, left)
}

/// Adds every key of other ranges, which the gap has not passed yet. There is room for each of them.
fn insert_each(ranges: &mut Vec<Range>, gap: Gap, others: &[Range]) -> Gap
    requires gap { IsGap gap ranges.old.items }
    requires room { vec_len ranges.old + gap.start + length others.now ≤ vec_capacity ranges.old + gap.end }
    requires apart { AreApart 0 (around gap ranges.old.items) }
    requires others_apart { AreApart 0 others.now }
    requires passed { ArePassed (take gap.start ranges.old.items) others.now }
    ensures gap { IsGap result ranges.new.items }
    ensures apart { AreApart 0 (around result ranges.new.items) }
    ensures keys { keys_of (around result ranges.new.items) ≡ united (keys_of others.now) (keys_of (around gap ranges.old.items)) }
    ensures before { take gap.start ranges.new.items ≡ take gap.start ranges.old.items }
    ensures start { gap.start ≤ result.start }
    ensures growth { vec_len ranges.new + result.start + gap.end ≤ vec_len ranges.old + gap.start + length others.now + result.end }
    ensures capacity { vec_capacity ranges.old ≤ vec_capacity ranges.new }
{
    let mut at = gap;
    for (index, range) in others.iter().enumerate() {
        at = insert_next(ranges, at, range.first, range.last, others.len() - index);
    }
    at
}

/// Removes every key of other ranges, which the gap has not passed yet. There is room for one more range for each of
/// them.
fn remove_each(ranges: &mut Vec<Range>, gap: Gap, others: &[Range]) -> Gap
    requires gap { IsGap gap ranges.old.items }
    requires room { vec_len ranges.old + gap.start + length others.now ≤ vec_capacity ranges.old + gap.end }
    requires apart { AreApart 0 (around gap ranges.old.items) }
    requires others_apart { AreApart 0 others.now }
    requires passed { ArePassed (take gap.start ranges.old.items) others.now }
    ensures gap { IsGap result ranges.new.items }
    ensures apart { AreApart 0 (around result ranges.new.items) }
    ensures keys { keys_of (around result ranges.new.items) ≡ without (keys_of others.now) (keys_of (around gap ranges.old.items)) }
    ensures before { take gap.start ranges.new.items ≡ take gap.start ranges.old.items }
    ensures start { gap.start ≤ result.start }
    ensures growth { vec_len ranges.new + result.start + gap.end ≤ vec_len ranges.old + gap.start + length others.now + result.end }
    ensures capacity { vec_capacity ranges.old ≤ vec_capacity ranges.new }
{
    let mut at = gap;
    for (index, range) in others.iter().enumerate() {
        at = remove_next(ranges, at, range.first, range.last, others.len() - index);
    }
    at
}

/// Adds every key of other ranges, and moves the ranges over the first `front` places, which are free. Those before the index
/// that it gives stay: where places are free, none do.
pub(crate) fn insert_ranges(ranges: &mut Vec<Range>, front: usize, others: &[Range]) -> usize
    requires free { front ≤ vec_len ranges.old }
    requires apart { AreApart 0 (drop front ranges.old.items) }
    requires others_apart { AreApart 0 others.now }
    requires room { vec_len ranges.old + length others.now ≤ vec_capacity ranges.old }
    ensures apart { AreApart 0 ranges.new.items }
    ensures keys { keys_of ranges.new.items ≡ united (keys_of others.now) (keys_of (drop front ranges.old.items)) }
    ensures within { result ≤ vec_len ranges.new }
    ensures first { 0 < result → front ≡ 0 }
    ensures before { take result ranges.new.items ≡ take result ranges.old.items }
    ensures growth { vec_len ranges.new ≤ vec_len ranges.old + length others.now }
    ensures capacity { vec_capacity ranges.old ≤ vec_capacity ranges.new }
{
    let gap = gap_for(ranges, front, others);
    let left = insert_each(ranges, gap, others);
    cut(ranges, left.start, left.end);
    gap.start
}

/// How many of the others come before the first that meets the ranges.
pub(crate) fn count_unmet(ranges: &[Range], others: &[Range]) -> usize
    requires apart { AreApart 0 ranges.now }
    requires others_apart { AreApart 0 others.now }
    ensures within { result ≤ length others.now }
    ensures unmet { keys_of ranges.now ≡ without (keys_of (take result others.now)) (keys_of ranges.now) }
{
    for (index, range) in others.iter().enumerate() {
        let (from, to) = meeting(ranges, range.first, range.last);
        if from < to {
            return index;
        }
    }
    others.len()
}

/// Removes every key of other ranges, and moves the ranges over the first `front` places, which are free. Those before the index
/// that it gives stay: where places are free, none do.
pub(crate) fn remove_ranges(ranges: &mut Vec<Range>, front: usize, others: &[Range]) -> usize
    requires free { front ≤ vec_len ranges.old }
    requires apart { AreApart 0 (drop front ranges.old.items) }
    requires others_apart { AreApart 0 others.now }
    requires room { vec_len ranges.old + length others.now ≤ vec_capacity ranges.old }
    ensures apart { AreApart 0 ranges.new.items }
    ensures keys { keys_of ranges.new.items ≡ without (keys_of others.now) (keys_of (drop front ranges.old.items)) }
    ensures within { result ≤ vec_len ranges.new }
    ensures first { 0 < result → front ≡ 0 }
    ensures before { take result ranges.new.items ≡ take result ranges.old.items }
    ensures growth { vec_len ranges.new ≤ vec_len ranges.old + length others.now }
    ensures capacity { vec_capacity ranges.old ≤ vec_capacity ranges.new }
{
    let gap = gap_for(ranges, front, others);
    let left = remove_each(ranges, gap, others);
    cut(ranges, left.start, left.end);
    gap.start
}
