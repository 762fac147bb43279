//! Keys that are added to the ranges of a set, and keys that are removed from them, where there is room.
ghost use Rattle.std.specs.Prelude.{◌≡◌, ℕ, ◌+◌, ◌^◌, ◌<◌, ◌≤◌, ◌++◌, length, take, drop};
ghost use Rattle.key_lists.specs.Keys.{without};
ghost use Rattle.row_set.specs.Gaps.{listed};
ghost use Rattle.row_set.specs.Ranges.{AreApart, AreRanges, keys_from, keys_of};
ghost use Rattle.row_set.specs.Runs.{IsCounted, IsRoom, IsStored, lying};
ghost use Rattle.row_set.specs.Sets.{united};

use crate::blocks::recount;
use crate::edits::{joined, left_edge, right_edge};
use crate::ranges::Range;
use crate::runs::Runs;
use crate::search::{all_end_before, meeting};
use crate::sweeps::{count_unmet, insert_ranges, remove_ranges};

/// So few ranges are put in or taken out one by one.
const FEW: usize = 4;

/// Adds every key from `first` to `last`. There is room for one more range.
pub(crate) fn put_range(runs: &mut Runs, first: u64, last: u64)
    requires stored { IsStored runs.old }
    requires order { first ≤ last }
    requires small { last < 2 ^ 62 }
    requires room { IsRoom 1 runs.old }
    ensures stored { IsStored runs.new }
    ensures keys { keys_of (lying runs.new) ≡ united (keys_from first last) (keys_of (lying runs.old)) }
    ensures room { (more : ℕ) → IsRoom (more + 1) runs.old → IsRoom more runs.new }
{
    if runs.stretch(first, last) {
        return;
    }
    let ranges = runs.as_slice();
    if all_end_before(ranges, first.saturating_sub(1)) {
        runs.push(Range { first, last });
        return;
    }
    let (from, to) = meeting(ranges, first.saturating_sub(1), last + 1);
    let range = joined(&ranges[from..to], first, last);
    runs.replace(from, to, &[range]);
}

/// Puts what is left of ranges at either end in their place. There is room for one more range.
fn leave(runs: &mut Runs, from: usize, to: usize, left: Option<Range>, right: Option<Range>)
    requires counted { IsCounted runs.old }
    requires old { AreRanges (lying runs.old) }
    requires new { AreRanges (take from (lying runs.old) ++ ((listed left ++ listed right) ++ drop to (lying runs.old))) }
    requires some { from < to }
    requires within { to ≤ length (lying runs.old) }
    requires room { IsRoom 1 runs.old }
    ensures counted { IsCounted runs.new }
    ensures ranges { lying runs.new ≡ take from (lying runs.old) ++ ((listed left ++ listed right) ++ drop to (lying runs.old)) }
    ensures room { (more : ℕ) → IsRoom (more + 1) runs.old → IsRoom more runs.new }
{
    match (left, right) {
        (None, None) => runs.replace(from, to, &[]),
        (Some(edge), None) | (None, Some(edge)) => runs.replace(from, to, &[edge]),
        (Some(left), Some(right)) => runs.replace(from, to, &[left, right]),
    }
}

/// Removes every key from `first` to `last`. There is room for one more range.
pub(crate) fn take_range(runs: &mut Runs, first: u64, last: u64)
    requires stored { IsStored runs.old }
    requires order { first ≤ last }
    requires small { last < 2 ^ 62 }
    requires room { IsRoom 1 runs.old }
    ensures stored { IsStored runs.new }
    ensures keys { keys_of (lying runs.new) ≡ without (keys_from first last) (keys_of (lying runs.old)) }
    ensures room { (more : ℕ) → IsRoom (more + 1) runs.old → IsRoom more runs.new }
{
    let ranges = runs.as_slice();
    let (from, to) = meeting(ranges, first, last);
    if from == to {
        return;
    }
    let left = left_edge(ranges[from], first);
    let right = right_edge(ranges[to - 1], last);
    leave(runs, from, to, left, right);
}

/// Adds every key of other ranges. There is room for each of them.
pub(crate) fn put_ranges(runs: &mut Runs, others: &[Range])
    requires stored { IsStored runs.old }
    requires others { AreApart 0 others.now }
    requires room { IsRoom (length others.now) runs.old }
    ensures stored { IsStored runs.new }
    ensures keys { keys_of (lying runs.new) ≡ united (keys_of others.now) (keys_of (lying runs.old)) }
{
    if others.len() <= FEW {
        for range in others {
            put_range(runs, range.first, range.last);
        }
        return;
    }
    let from = insert_ranges(&mut runs.all, runs.front, others);
    runs.front = 0;
    recount(&mut runs.starts, &runs.all, 0, from);
}

/// Removes every key of other ranges. There is room for one more range for each of them.
pub(crate) fn take_ranges(runs: &mut Runs, others: &[Range])
    requires stored { IsStored runs.old }
    requires others { AreApart 0 others.now }
    requires room { IsRoom (length others.now) runs.old }
    ensures stored { IsStored runs.new }
    ensures keys { keys_of (lying runs.new) ≡ without (keys_of others.now) (keys_of (lying runs.old)) }
{
    if others.len() <= FEW {
        for range in others {
            take_range(runs, range.first, range.last);
        }
        return;
    }
    let unmet = count_unmet(runs.as_slice(), others);
    if unmet == others.len() {
        return;
    }
    let from = remove_ranges(&mut runs.all, runs.front, &others[unmet..]);
    runs.front = 0;
    recount(&mut runs.starts, &runs.all, 0, from);
}
