//! The parts of the merge of two lists of ranges, by which sets are combined.
ghost use Rattle.std.specs.Prelude.{◌≡◌, ℕ, ◌<◌, ◌≤◌, Bool, min, max};
ghost use Rattle.key_lists.specs.Keys.{is_among};
ghost use Rattle.row_set.specs.Ranges.{AreApart, keys_of};
ghost use Rattle.row_set.specs.Choice.{takes, AreAhead};

use crate::ranges::Range;
use crate::search::ended_before;
use tick_model::limits::KEY_SPACE;

/// Neighbouring keys that are all held or all left out.
#[derive(Clone, Copy)]
pub(crate) struct Stretch {
    /// Whether they are held.
    pub(crate) held: bool,
    /// The key past the last of them.
    pub(crate) end: u64,
}

/// Which keys of two sets a third one takes.
#[derive(Clone, Copy)]
pub(crate) enum SetOperation {
    /// Those that are in either.
    Either,
    /// Those that are in the first and not in the second.
    FirstAlone,
    /// Those that are in both.
    Both,
}

impl SetOperation {
    /// Whether it takes a key that is in the two sets or not.
    pub(crate) fn takes(self, in_first: bool, in_second: bool) -> bool
        ensures { result ≡ takes self in_first in_second }
    {
        match self {
            SetOperation::Either => in_first || in_second,
            SetOperation::FirstAlone => in_first && !in_second,
            SetOperation::Both => in_first && in_second,
        }
    }

    /// How many ranges to make room for at first, where the two sets have these many. There may be more in the end.
    pub(crate) fn room(self, first: usize, second: usize) -> usize {
        match self {
            SetOperation::Either => first.saturating_add(second),
            SetOperation::FirstAlone => first,
            SetOperation::Both => first.min(second),
        }
    }

    /// The key up to which it takes all keys, or none, where stretches of the two sets begin.
    pub(crate) fn until(self, here: Stretch, there: Stretch) -> u64
        ensures least { min here.end there.end ≤ result }
        ensures greatest { result ≤ max here.end there.end }
        ensures same { (key : ℕ) (in_first in_second : Bool) → key < result
            → (key < here.end → in_first ≡ here.held)
            → (key < there.end → in_second ≡ there.held)
            → takes self in_first in_second ≡ takes self here.held there.held }
    {
        match self {
            SetOperation::FirstAlone | SetOperation::Both if !here.held => here.end,
            SetOperation::Both if !there.held => there.end,
            _ => here.end.min(there.end),
        }
    }
}

/// The stretch of keys from `at` on that are all among the keys of the ranges, or all not.
pub(crate) fn stretch_from(ranges: &[Range], at: u64) -> Stretch
    requires ahead { AreAhead at ranges.now }
    requires small { at < KEY_SPACE }
    ensures begins { at < result.end }
    ensures ends { result.end ≤ KEY_SPACE }
    ensures same { (key : ℕ) → at ≤ key → key < result.end → is_among key (keys_of ranges.now) ≡ result.held }
{
    match ranges.first() {
        None => Stretch {
            held: false,
            end: KEY_SPACE,
        },
        Some(range) => {
            if range.first <= at {
                Stretch {
                    held: true,
                    end: range.last + 1,
                }
            } else {
                Stretch {
                    held: false,
                    end: range.first,
                }
            }
        }
    }
}

/// The ranges that have keys from `end` on.
pub(crate) fn rest_from(ranges: &[Range], end: u64) -> &[Range]
    requires { AreApart 0 ranges.now }
    ensures ahead { AreAhead end result.now }
    ensures same { (key : ℕ) → end ≤ key → is_among key (keys_of result.now) ≡ is_among key (keys_of ranges.now) }
{
    match ranges {
        [range, ..] if end <= range.last => ranges,
        [_, range, ..] if end <= range.last => &ranges[1..],
        _ => &ranges[ended_before(ranges, end)..],
    }
}
