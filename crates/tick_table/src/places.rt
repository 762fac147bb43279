//! The positions of keys that are asked for in rising order.

ghost use Rattle.std.specs.Prelude.{◌≡◌, ◌<◌, ◌≤◌, IsTrue, length, take, drop, true};
ghost use Rattle.std.specs.List.{AllByRecursion};
ghost use Rattle.key_lists.specs.Keys.{is_among};
ghost use Rattle.row_set.specs.Ranges.{AreApart, keys_before, keys_of};
ghost use Rattle.row_set.specs.Sets.{IsKeySet, count_below, found};

use row_set::{Range, RowSet};
use std::marker::Model;

/// At most so many ranges are passed one by one before a key is searched for.
const FEW: usize = 8;

/// A set of keys, in which a key is looked for from the range on that was come to last: keys that are asked for in rising order
/// and lie near one another are found in one pass over the ranges. A contract sees the set.
#[derive(Drop)]
pub(crate) struct KeyCursor<'t> {
    set: &'t RowSet,
    /// The ranges of the set.
    ranges: &'t [Range],
    /// How many of them are passed.
    passed: usize,
    /// How many keys those hold.
    before: u64,
    /// So many ranges are passed one by one next time. Each time that they are too few it is halved.
    step: usize,
}

impl<'t> Model for KeyCursor<'t> {
    ghost use Rattle.std.specs.Prelude.{List, ℕ};
    ghost use Rattle.tick_table.specs.Places.{IsPassing};

    ghost Value = { List ℕ };

    ghost view = { λ places. places.set.now };

    ghost invariant = { λ places. IsPassing places.set.now places.ranges.now places.passed places.before };
}

/// Whether so many of the ranges end before a key, and no other.
fn ends_at(ranges: &[Range], index: usize, key: u64) -> bool
    requires apart { AreApart 0 ranges.now }
    requires within { index ≤ length ranges.now }
    ensures ended { result ≡ true → AllByRecursion (λ range. range.last < key) (take index ranges.now) }
    ensures others { result ≡ true → AllByRecursion (λ range. key ≤ range.last) (drop index ranges.now) }
{
    if index > 0 && key <= ranges[index - 1].last {
        return false;
    }
    index == ranges.len() || key <= ranges[index].last
}

/// The position of a key before which so many of the ranges end, with this number of keys, or else, as an error, the number of
/// smaller keys.
fn found_at(ranges: &[Range], index: usize, before: u64, key: u64) -> Result<u64, u64>
    requires apart { AreApart 0 ranges.now }
    requires ended { AllByRecursion (λ range. range.last < key) (take index ranges.now) }
    requires others { AllByRecursion (λ range. key ≤ range.last) (drop index ranges.now) }
    requires before { before ≡ keys_before index ranges.now }
    ensures { result ≡ found key (keys_of ranges.now) }
{
    if index < ranges.len() && ranges[index].first <= key {
        Ok(before + (key - ranges[index].first))
    } else {
        Err(before)
    }
}

/// The ranges that end before a key.
#[derive(Clone, Copy)]
struct Passed {
    ranges: usize,
    /// How many keys they hold.
    keys: u64,
}

/// Searches for the ranges of a set that end before a key.
fn passed_before(set: &RowSet, ranges: &[Range], key: u64) -> Passed
    requires apart { AreApart 0 ranges.now }
    requires held { keys_of ranges.now ≡ set.now }
    ensures within { result.ranges ≤ length ranges.now }
    ensures ended { AllByRecursion (λ range. range.last < key) (take result.ranges ranges.now) }
    ensures others { AllByRecursion (λ range. key ≤ range.last) (drop result.ranges ranges.now) }
    ensures keys { result.keys ≡ keys_before result.ranges ranges.now }
{
    let passed = ranges.partition_point(|range| range.last < key);
    let below = set.count_below(key);
    let within = if passed < ranges.len() {
        key.saturating_sub(ranges[passed].first)
    } else {
        0
    };
    Passed {
        ranges: passed,
        keys: below.saturating_sub(within),
    }
}

impl<'t> KeyCursor<'t> {
    /// A set of which no key was asked for.
    pub(crate) fn of(set: &'t RowSet) -> KeyCursor<'t>
        ensures { result ≡ set.now }
    {
        KeyCursor {
            set,
            ranges: set.ranges(),
            passed: 0,
            before: 0,
            step: FEW,
        }
    }

    /// The position of a key, or else, as an error, the number of smaller keys. A key that is less than one before it, or far
    /// behind it, is searched for, and the next one is looked for from there on; where that does not help, each is searched for.
    pub(crate) fn find(&mut self, key: u64) -> Result<u64, u64>
        ensures same { self.new ≡ self.old }
        ensures position { result ≡ found key self.old }
        ensures keys { IsKeySet self.old }
    {
        let end = self.passed.saturating_add(self.step).min(self.ranges.len());
        while self.passed < end && self.ranges[self.passed].last < key {
            let range = self.ranges[self.passed];
            self.before += range.last - range.first + 1;
            self.passed += 1;
        }
        if ends_at(self.ranges, self.passed, key) {
            self.step = FEW;
            return found_at(self.ranges, self.passed, self.before, key);
        }
        if self.step == 0 {
            return self.set.find(key);
        }
        self.step /= 2;
        let Passed { ranges, keys } = passed_before(self.set, self.ranges, key);
        self.passed = ranges;
        self.before = keys;
        found_at(self.ranges, ranges, keys, key)
    }

    /// The position of a key of the set.
    pub(crate) fn position_of(&mut self, key: u64) -> usize
        requires { IsTrue (is_among key self.old) }
        ensures same { self.new ≡ self.old }
        ensures position { result ≡ count_below key self.old }
    {
        match self.find(key) {
            Ok(position) | Err(position) => position as usize,
        }
    }
}
