//! Edits of a set's ranges in place, where there is room for them.
ghost use Rattle.std.specs.Prelude.{◌≡◌, ℕ, ◌+◌, ◌-◌, ◌*◌, ◌^◌, ◌<◌, ◌≤◌, ◌∷◌, [], ◌++◌, length, take, drop, OnOk, vec_len, vec_capacity};
ghost use Rattle.std.specs.List.{AllByRecursion};
ghost use Rattle.key_lists.specs.Keys.{without};
ghost use Rattle.row_set.specs.Gaps.{listed};
ghost use Rattle.row_set.specs.Ranges.{left_edge, right_edge, stretched};
ghost use Rattle.row_set.specs.Sets.{united};

use crate::ranges::Range;

/// Puts a range at an index, in the place of the one there or, where that is one of the last to stay, before it.
fn put(ranges: &mut Vec<Range>, at: usize, to: usize, range: Range)
    requires within { at ≤ vec_len ranges.old }
    requires end { to ≤ vec_len ranges.old }
    requires room { to ≤ at → vec_len ranges.old < vec_capacity ranges.old }
    ensures replaced { at < to → ranges.new.items ≡ take at ranges.old.items ++ (range ∷ drop (at + 1) ranges.old.items) }
    ensures inserted { to ≤ at → ranges.new.items ≡ take at ranges.old.items ++ (range ∷ drop at ranges.old.items) }
    ensures capacity { vec_capacity ranges.old ≤ vec_capacity ranges.new }
{
    if at < to {
        ranges[at] = range;
    } else {
        let _ = ranges.insert(at, range);
    }
}

/// Takes out the ranges from `from` up to `to`.
pub(crate) fn cut(ranges: &mut Vec<Range>, from: usize, to: usize)
    requires order { from ≤ to }
    requires within { to ≤ vec_len ranges.old }
    ensures items { ranges.new.items ≡ take from ranges.old.items ++ drop to ranges.old.items }
    ensures capacity { vec_capacity ranges.old ≤ vec_capacity ranges.new }
{
    let len = ranges.len();
    if from < to {
        ranges.copy_within(to..len, from);
        ranges.truncate(len - (to - from));
    }
}

/// Puts other ranges in the place of those from `from` up to `to`. There is room for them.
pub(crate) fn splice(ranges: &mut Vec<Range>, from: usize, to: usize, others: &[Range])
    requires order { from ≤ to }
    requires within { to ≤ vec_len ranges.old }
    requires room { vec_len ranges.old + length others.now ≤ vec_capacity ranges.old + (to - from) }
    ensures items { ranges.new.items ≡ take from ranges.old.items ++ (others.now ++ drop to ranges.old.items) }
    ensures capacity { vec_capacity ranges.old ≤ vec_capacity ranges.new }
{
    let mut at = from;
    for range in others {
        put(ranges, at, to, *range);
        at += 1;
    }
    if at < to {
        cut(ranges, at, to);
    }
}

/// Puts other ranges in the place of as many from an index on.
pub(crate) fn put_at(ranges: &mut [Range], from: usize, others: &[Range])
    requires { from + length others.now ≤ length ranges.old }
    ensures { ranges.new ≡ take from ranges.old ++ (others.now ++ drop (from + length others.now) ranges.old) }
{
    ranges[from..from + others.len()].copy_from_slice(others);
}

/// Puts other ranges in the place of those up to `end`, of which `from` stay, behind the first `front` places. Those that stay
/// are moved so that the places up to `end` are full, and the places before them are free: it says how many.
pub(crate) fn slide(
    ranges: &mut [Range],
    front: usize,
    from: usize,
    end: usize,
    others: &[Range],
) -> usize
    requires order { front + from ≤ end }
    requires within { end ≤ length ranges.old }
    requires places { from + length others.now ≤ end }
    ensures front { result + from + length others.now ≡ end }
    ensures ranges { drop result ranges.new ≡ take from (drop front ranges.old) ++ (others.now ++ drop end ranges.old) }
    ensures len { length ranges.new ≡ length ranges.old }
{
    let place = end - others.len();
    ranges.copy_within(front..front + from, place - from);
    put_at(ranges, place, others);
    place - from
}

/// The range from `first` to `last`, stretched over those that it meets.
pub(crate) fn joined(met: &[Range], first: u64, last: u64) -> Range
    ensures { result ≡ stretched first last met.now }
{
    match met {
        [] => Range { first, last },
        [head, ..] => Range {
            first: first.min(head.first),
            last: last.max(met[met.len() - 1].last),
        },
    }
}

/// What is left of a range before this key.
pub(crate) fn left_edge(range: Range, first: u64) -> Option<Range>
    ensures { listed result ≡ left_edge first range }
{
    if range.first < first {
        Some(Range {
            first: range.first,
            last: first - 1,
        })
    } else {
        None
    }
}

/// What is left of a range after this key.
pub(crate) fn right_edge(range: Range, last: u64) -> Option<Range>
    ensures { listed result ≡ right_edge last range }
{
    if last < range.last {
        Some(Range {
            first: last + 1,
            last: range.last,
        })
    } else {
        None
    }
}
