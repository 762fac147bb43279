//! Gaps in lists of ranges. A gap moves on through a list from edit to edit, so that a range is moved once and not by each.
ghost use Rattle.std.specs.Prelude.{◌≡◌, ◌+◌, ◌<◌, ◌≤◌, ◌++◌, length, take, drop, vec_len, vec_capacity};
ghost use Rattle.row_set.specs.Gaps.{IsGap, around, listed};

use crate::ranges::Range;

/// The places from `start` up to `end` of a list of ranges: none of its ranges stands there.
#[derive(Clone, Copy)]
pub(crate) struct Gap {
    /// The first of the places.
    pub(crate) start: usize,
    /// The place of the first range after the gap.
    pub(crate) end: usize,
}

/// Opens a gap of this size before the range at an index. There is room for it.
pub(crate) fn open_gap(ranges: &mut Vec<Range>, index: usize, size: usize) -> Gap
    requires within { index ≤ vec_len ranges.old }
    requires room { vec_len ranges.old + size ≤ vec_capacity ranges.old }
    ensures gap { IsGap result ranges.new.items }
    ensures same { around result ranges.new.items ≡ ranges.old.items }
    ensures before { take index ranges.new.items ≡ take index ranges.old.items }
    ensures start { result.start ≡ index }
    ensures size { result.end ≡ index + size }
    ensures len { vec_len ranges.new ≡ vec_len ranges.old + size }
    ensures capacity { vec_capacity ranges.old ≤ vec_capacity ranges.new }
{
    let len = ranges.len();
    let _ = ranges.resize(len + size, Range { first: 0, last: 0 });
    ranges.copy_within(index..len, index + size);
    Gap {
        start: index,
        end: index + size,
    }
}

/// Opens a gap of this size where an empty one and the next ranges, which are to go, have not the places that are wanted.
/// There is room for it.
pub(crate) fn with_places(
    ranges: &mut Vec<Range>,
    gap: Gap,
    count: usize,
    wanted: usize,
    size: usize,
) -> Gap
    requires gap { IsGap gap ranges.old.items }
    requires some { 0 < size }
    requires within { gap.end + count ≤ vec_len ranges.old }
    requires few { wanted ≤ count + 1 }
    requires room { vec_len ranges.old + gap.start + size ≤ vec_capacity ranges.old + gap.end }
    ensures gap { IsGap result ranges.new.items }
    ensures same { around result ranges.new.items ≡ around gap ranges.old.items }
    ensures before { take gap.start ranges.new.items ≡ take gap.start ranges.old.items }
    ensures start { result.start ≡ gap.start }
    ensures places { result.start + wanted ≤ result.end + count }
    ensures len { vec_len ranges.new + gap.end ≡ vec_len ranges.old + result.end }
    ensures capacity { vec_capacity ranges.old ≤ vec_capacity ranges.new }
{
    if wanted <= gap.end - gap.start + count {
        gap
    } else {
        open_gap(ranges, gap.start, size)
    }
}

/// Moves the next ranges over a gap.
fn carry(ranges: &mut [Range], gap: Gap, count: usize) -> Gap
    requires gap { IsGap gap ranges.old }
    requires within { gap.end + count ≤ length ranges.old }
    ensures gap { IsGap result ranges.new }
    ensures same { around result ranges.new ≡ around gap ranges.old }
    ensures before { take gap.start ranges.new ≡ take gap.start ranges.old }
    ensures start { result.start ≡ gap.start + count }
    ensures end { result.end ≡ gap.end + count }
    ensures len { length ranges.new ≡ length ranges.old }
{
    ranges.copy_within(gap.end..gap.end + count, gap.start);
    Gap {
        start: gap.start + count,
        end: gap.end + count,
    }
}

/// Moves a gap on over the next ranges. They stay where they are if it is empty.
pub(crate) fn pass(ranges: &mut Vec<Range>, gap: Gap, count: usize) -> Gap
    requires gap { IsGap gap ranges.old.items }
    requires within { gap.end + count ≤ vec_len ranges.old }
    ensures gap { IsGap result ranges.new.items }
    ensures same { around result ranges.new.items ≡ around gap ranges.old.items }
    ensures before { take gap.start ranges.new.items ≡ take gap.start ranges.old.items }
    ensures start { result.start ≡ gap.start + count }
    ensures end { result.end ≡ gap.end + count }
    ensures len { vec_len ranges.new ≡ vec_len ranges.old }
    ensures capacity { vec_capacity ranges.old ≤ vec_capacity ranges.new }
{
    if gap.start < gap.end {
        return carry(ranges, gap, count);
    }
    Gap {
        start: gap.start + count,
        end: gap.end + count,
    }
}

/// Puts a range, if there is one, before a gap.
pub(crate) fn put_before(ranges: &mut Vec<Range>, gap: Gap, range: Option<Range>) -> Gap
    requires gap { IsGap gap ranges.old.items }
    requires room { gap.start + length (listed range) ≤ gap.end }
    ensures gap { IsGap result ranges.new.items }
    ensures added { around result ranges.new.items ≡ take gap.start ranges.old.items ++ (listed range ++ drop gap.end ranges.old.items) }
    ensures before { take result.start ranges.new.items ≡ take gap.start ranges.old.items ++ listed range }
    ensures start { result.start ≡ gap.start + length (listed range) }
    ensures end { result.end ≡ gap.end }
    ensures len { vec_len ranges.new ≡ vec_len ranges.old }
    ensures capacity { vec_capacity ranges.old ≤ vec_capacity ranges.new }
{
    match range {
        None => gap,
        Some(range) => {
            ranges[gap.start] = range;
            Gap {
                start: gap.start + 1,
                end: gap.end,
            }
        }
    }
}

/// Puts a range, if there is one, in the place of the next ranges after a gap.
pub(crate) fn put_after(
    ranges: &mut Vec<Range>,
    gap: Gap,
    count: usize,
    range: Option<Range>,
) -> Gap
    requires gap { IsGap gap ranges.old.items }
    requires within { gap.end + count ≤ vec_len ranges.old }
    requires room { gap.start < gap.end + count }
    ensures gap { IsGap result ranges.new.items }
    ensures replaced { around result ranges.new.items ≡ take gap.start ranges.old.items ++ (listed range ++ drop (gap.end + count) ranges.old.items) }
    ensures before { take gap.start ranges.new.items ≡ take gap.start ranges.old.items }
    ensures start { result.start ≡ gap.start }
    ensures end { result.end + length (listed range) ≡ gap.end + count }
    ensures len { vec_len ranges.new ≡ vec_len ranges.old }
    ensures capacity { vec_capacity ranges.old ≤ vec_capacity ranges.new }
{
    let end = gap.end + count;
    match range {
        None => Gap {
            start: gap.start,
            end,
        },
        Some(range) => {
            ranges[end - 1] = range;
            Gap {
                start: gap.start,
                end: end - 1,
            }
        }
    }
}

/// How many there are of two ranges.
pub(crate) fn count_given(left: Option<Range>, right: Option<Range>) -> usize
    ensures { result ≡ length (listed left) + length (listed right) }
{
    match (left, right) {
        (Some(_), Some(_)) => 2,
        (None, None) => 0,
        _ => 1,
    }
}
