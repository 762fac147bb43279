//! Keys of a set that move by one difference, in place, where there is room for the edges that stay behind.
ghost use Rattle.std.specs.Prelude.{◌≡◌, ℕ, pos, ◌+ℤ◌, ◌+◌, ◌^◌, ◌<◌, ◌≤◌, ◌++◌, length, map, take, drop, slice_range};
ghost use Rattle.std.specs.List.{AllByRecursion};
ghost use Rattle.key_lists.specs.Keys.{IsRising};
ghost use Rattle.row_set.specs.Moves.{IsKey, Shifts, moved_key, moved_keys, shift};
ghost use Rattle.row_set.specs.Ranges.{AreApart, AreRanges, IsPart, keys_of};
ghost use Rattle.row_set.specs.Runs.{IsCounted, IsRoom, IsStored, lying};

use crate::ranges::Range;
use crate::runs::Runs;
use crate::search::few_ended_before;

/// The key that a key moves to.
fn moved(key: u64, delta: i64) -> u64
    requires small { key < 2 ^ 62 }
    requires lands { IsKey (pos key +ℤ delta) }
    ensures { pos result ≡ pos key +ℤ delta }
{
    (key as i64 + delta) as u64
}

/// Moves the ranges from `from` up to `to`.
fn shift_ranges(ranges: &mut [Range], from: usize, to: usize, delta: i64)
    requires order { from ≤ to }
    requires within { to ≤ length ranges.old }
    requires apart { AreApart 0 (slice_range ranges.old from to) }
    requires lands { AllByRecursion (Shifts delta) (slice_range ranges.old from to) }
    ensures { ranges.new ≡ take from ranges.old
        ++ (map (shift delta) (slice_range ranges.old from to) ++ drop to ranges.old) }
{
    for index in from..to {
        let range = ranges[index];
        ranges[index] = Range {
            first: moved(range.first, delta),
            last: moved(range.last, delta),
        };
    }
}

/// Moves the ranges from `from` up to `to`: as many keys as before come before each.
fn shift_runs(runs: &mut Runs, from: usize, to: usize, delta: i64)
    requires counted { IsCounted runs.old }
    requires ranges { AreRanges (lying runs.old) }
    requires order { from ≤ to }
    requires within { to ≤ length (lying runs.old) }
    requires apart { AreApart 0 (slice_range (lying runs.old) from to) }
    requires lands { AllByRecursion (Shifts delta) (slice_range (lying runs.old) from to) }
    ensures counted { IsCounted runs.new }
    ensures ranges { AreRanges (lying runs.new) }
    ensures items { lying runs.new ≡ take from (lying runs.old)
        ++ (map (shift delta) (slice_range (lying runs.old) from to) ++ drop to (lying runs.old)) }
{
    shift_ranges(&mut runs.all, runs.front + from, runs.front + to, delta);
}

/// Parts the ranges from an index on at a key, so that each of them ends before the key or begins at it or after it. Says how
/// many come before. There is room for one more range.
fn part(runs: &mut Runs, start: usize, key: u64) -> usize
    requires counted { IsCounted runs.old }
    requires ranges { AreRanges (lying runs.old) }
    requires within { start ≤ length (lying runs.old) }
    requires apart { AreApart 0 (drop start (lying runs.old)) }
    requires room { IsRoom 1 runs.old }
    ensures counted { IsCounted runs.new }
    ensures ranges { AreRanges (lying runs.new) }
    ensures part { IsPart start key (lying runs.old) (lying runs.new) result }
    ensures room { (more : ℕ) → IsRoom (more + 1) runs.old → IsRoom more runs.new }
{
    let rest = &runs.as_slice()[start..];
    let count = few_ended_before(rest, key);
    let index = start + count;
    if count == rest.len() {
        return index;
    }
    let range = rest[count];
    if key <= range.first {
        return index;
    }
    let left = Range {
        first: range.first,
        last: key - 1,
    };
    let right = Range {
        first: key,
        last: range.last,
    };
    runs.replace(index, index + 1, &[left, right]);
    index + 1
}

/// Makes one range of the two that meet at an index, where they touch. Those from `from` on are apart then.
fn join(runs: &mut Runs, from: usize, index: usize)
    requires counted { IsCounted runs.old }
    requires ranges { AreRanges (lying runs.old) }
    requires order { from ≤ index }
    requires within { index ≤ length (lying runs.old) }
    requires before { AreApart 0 (slice_range (lying runs.old) from index) }
    requires after { AreApart 0 (drop index (lying runs.old)) }
    requires rising { IsRising (keys_of (lying runs.old)) }
    ensures counted { IsCounted runs.new }
    ensures ranges { AreRanges (lying runs.new) }
    ensures apart { AreApart 0 (drop from (lying runs.new)) }
    ensures keys { keys_of (lying runs.new) ≡ keys_of (lying runs.old) }
    ensures front { take from (lying runs.new) ≡ take from (lying runs.old) }
{
    let ranges = runs.as_slice();
    if from == index || index == ranges.len() {
        return;
    }
    let left = ranges[index - 1];
    let right = ranges[index];
    if left.last + 1 == right.first {
        let joined = Range {
            first: left.first,
            last: right.last,
        };
        runs.replace(index - 1, index + 1, &[joined]);
    }
}

/// Moves every key from `first` to `last` by delta. There is room for two more ranges.
pub(crate) fn shift_keys(runs: &mut Runs, first: u64, last: u64, delta: i64)
    requires stored { IsStored runs.old }
    requires order { first ≤ last }
    requires small { last < 2 ^ 62 }
    requires in_bounds { AllByRecursion (λ key. IsKey (moved_key first last delta key)) (keys_of (lying runs.old)) }
    requires rising { IsRising (moved_keys first last delta (keys_of (lying runs.old))) }
    requires room { IsRoom 2 runs.old }
    ensures stored { IsStored runs.new }
    ensures keys { keys_of (lying runs.new) ≡ moved_keys first last delta (keys_of (lying runs.old)) }
{
    let from = part(runs, 0, first);
    let to = part(runs, from, last + 1);
    if from < to {
        shift_runs(runs, from, to, delta);
        join(runs, from, to);
        join(runs, 0, from);
    }
}
