//! The set itself: what it is made of, what it answers and how it is edited.
ghost use Rattle.std.specs.Prelude.{◌≡◌, ℕ, ◌^◌, ◌<◌, ◌≤◌, ◌==◌, List, [], length, find, nat_le, IfOk, OnOk, OnErr, slice_get, take, drop};
ghost use Rattle.std.specs.List.{AllByRecursion};
ghost use Rattle.key_lists.specs.Keys.{IsRising, is_among, without};
ghost use Rattle.row_set.specs.Ranges.{AreApart, holds, keys_from, keys_of, ranges_of};
ghost use Rattle.row_set.specs.Choice.{chosen};
ghost use Rattle.row_set.specs.Moves.{IsKey, moved_key, moved_keys};
ghost use Rattle.row_set.specs.Sets.{IsKeySet, count_below, common, found, last_key, united};

use crate::algebra::{SetOperation, rest_from, stretch_from};
use crate::changes::{put_range, put_ranges, take_range, take_ranges};
use crate::iter::Keys;
use crate::ranges::{BLOCK, Range};
use crate::runs::Runs;
use crate::search;
use crate::shifts::shift_keys;
use std::alloc::{AllocError, Global};
use std::marker::Model;
use tick_model::limits::KEY_SPACE;

/// An ordered set of row keys. A contract sees the rising list of the keys.
pub struct RowSet {
    runs: Runs,
}

impl Drop for RowSet {
    fn drop(self) {
        let Self { runs: _ } = self;
    }
}

impl Model for RowSet {
    ghost use Rattle.std.specs.Prelude.{List, ℕ};
    ghost use Rattle.row_set.specs.Ranges.{keys_of};
    ghost use Rattle.row_set.specs.Runs.{IsStored, lying};

    ghost Value = { List ℕ };

    ghost view = { λ set. keys_of (lying set.runs) };

    ghost invariant = { λ set. IsStored set.runs };
}

impl RowSet {
    /// The empty set.
    pub fn new(alloc: Global) -> RowSet
        ensures { result ≡ [] }
    {
        RowSet {
            runs: Runs::new(alloc),
        }
    }

    /// The empty set, with room for this many ranges.
    pub fn with_capacity(alloc: Global, ranges: usize) -> Result<RowSet, AllocError>
        ensures { IfOk result (λ keys. keys ≡ []) }
    {
        let mut runs = Runs::new(alloc);
        runs.reserve(ranges)?;
        Ok(RowSet { runs })
    }

    /// The set of these keys, in any order.
    pub fn from_keys(alloc: Global, mut keys: Vec<u64>) -> Result<RowSet, AllocError>
        requires small { AllByRecursion (λ key. key < 2 ^ 62) keys.items }
        ensures keys { IfOk result (λ set. (key : ℕ) → is_among key set ≡ is_among key keys.items) }
        ensures set { IfOk result IsKeySet }
        ensures no_more { IfOk result (λ set. length set ≤ length keys.items) }
    {
        keys.sort_unstable();
        let Some((least, others)) = keys.split_first() else {
            return Ok(RowSet::new(alloc));
        };
        let mut set = RowSet::with_capacity(alloc, keys.len().min(BLOCK - 1))?;
        let mut first = *least;
        let mut last = *least;
        for key in others {
            if *key > last + 1 {
                set.insert_range(first, last)?;
                first = *key;
            }
            last = *key;
        }
        set.insert_range(first, last)?;
        Ok(set)
    }

    /// Whether the key is in the set.
    pub fn contains(&self, key: u64) -> bool
        ensures member { result ≡ is_among key self.now }
        ensures keys { IsKeySet self.now }
    {
        self.range_at(key).is_some()
    }

    /// The range of neighbouring keys that holds the key, if the set has it.
    pub fn range_at(&self, key: u64) -> Option<Range>
        ensures range { result ≡ find (holds key) (ranges_of self.now) }
        ensures keys { IsKeySet self.now }
    {
        search::range_at(self.ranges(), key)
    }

    /// The number of keys.
    pub fn len(&self) -> u64
        ensures count { result ≡ length self.now }
        ensures keys { IsKeySet self.now }
    {
        self.runs.len()
    }

    /// Whether there is no key.
    pub fn is_empty(&self) -> bool
        ensures empty { result ≡ (length self.now == 0) }
        ensures keys { IsKeySet self.now }
    {
        self.ranges().is_empty()
    }

    /// The key at a position, or None past the end.
    pub fn get(&self, position: u64) -> Option<u64>
        ensures key { result ≡ slice_get self.now position }
        ensures keys { IsKeySet self.now }
    {
        self.runs.key_at(position)
    }

    /// The position of a key, or else, as an error, the number of smaller keys.
    pub fn find(&self, key: u64) -> Result<u64, u64>
        ensures position { result ≡ found key self.now }
        ensures keys { IsKeySet self.now }
    {
        self.runs.position_of(key)
    }

    /// The number of smaller keys.
    pub fn count_below(&self, key: u64) -> u64
        ensures count { result ≡ count_below key self.now }
        ensures keys { IsKeySet self.now }
    {
        match self.find(key) {
            Ok(count) | Err(count) => count,
        }
    }

    /// The least key, or None where there is none.
    pub fn first(&self) -> Option<u64>
        ensures key { result ≡ slice_get self.now 0 }
        ensures keys { IsKeySet self.now }
    {
        search::first_key(self.ranges())
    }

    /// The greatest key, or None where there is none.
    pub fn last(&self) -> Option<u64>
        ensures key { result ≡ last_key self.now }
        ensures keys { IsKeySet self.now }
    {
        search::last_key(self.ranges())
    }

    /// The least key that is not below this one, or None where all are.
    pub fn next_from(&self, key: u64) -> Option<u64>
        ensures next { result ≡ find (nat_le key) self.now }
        ensures keys { IsKeySet self.now }
    {
        search::next_key(self.ranges(), key)
    }

    /// The keys, rising.
    pub fn iter(&self) -> Keys<'_>
        ensures rest { result ≡ self.now }
        ensures keys { IsKeySet self.now }
    {
        Keys {
            next: 0,
            end: 0,
            ranges: self.ranges(),
        }
    }

    /// The longest ranges of neighbouring keys, rising.
    pub fn ranges(&self) -> &[Range]
        ensures ranges { result.now ≡ ranges_of self.now }
        ensures held { keys_of result.now ≡ self.now }
        ensures apart { AreApart 0 result.now }
        ensures keys { IsKeySet self.now }
    {
        self.runs.as_slice()
    }

    /// Adds every key from `first` to `last`. After a refusal the set is as before.
    pub fn insert_range(&mut self, first: u64, last: u64) -> Result<(), AllocError>
        requires order { first ≤ last }
        requires small { last < 2 ^ 62 }
        ensures ok { OnOk result (self.new ≡ united (keys_from first last) self.old) }
        ensures err { OnErr result (self.new ≡ self.old) }
    {
        if self.runs.stretch(first, last) || self.runs.append(first, last) {
            return Ok(());
        }
        self.runs.reserve(1)?;
        put_range(&mut self.runs, first, last);
        Ok(())
    }

    /// Removes every key from `first` to `last`. After a refusal the set is as before.
    pub fn remove_range(&mut self, first: u64, last: u64) -> Result<(), AllocError>
        requires order { first ≤ last }
        requires small { last < 2 ^ 62 }
        ensures ok { OnOk result (self.new ≡ without (keys_from first last) self.old) }
        ensures err { OnErr result (self.new ≡ self.old) }
    {
        self.runs.reserve(1)?;
        take_range(&mut self.runs, first, last);
        Ok(())
    }

    /// Adds every key of a set, best a small one. After a refusal the set is as before.
    pub fn insert_all(&mut self, keys: &RowSet) -> Result<(), AllocError>
        ensures ok { OnOk result (self.new ≡ united keys.now self.old) }
        ensures err { OnErr result (self.new ≡ self.old) }
    {
        if keys.is_empty() {
            return Ok(());
        }
        let others = keys.ranges();
        self.runs.reserve(others.len())?;
        put_ranges(&mut self.runs, others);
        Ok(())
    }

    /// Removes every key of a set, best a small one. After a refusal the set is as before.
    pub fn remove_all(&mut self, keys: &RowSet) -> Result<(), AllocError>
        ensures ok { OnOk result (self.new ≡ without keys.now self.old) }
        ensures err { OnErr result (self.new ≡ self.old) }
    {
        if keys.is_empty() {
            return Ok(());
        }
        let others = keys.ranges();
        self.runs.reserve(others.len())?;
        take_ranges(&mut self.runs, others);
        Ok(())
    }

    /// Moves every key from `first` to `last` by `delta`, where the keys stay keys and rise. After a refusal the set is as
    /// before.
    pub fn shift_range(&mut self, first: u64, last: u64, delta: i64) -> Result<(), AllocError>
        requires order { first ≤ last }
        requires small { last < 2 ^ 62 }
        requires in_bounds { AllByRecursion (λ key. IsKey (moved_key first last delta key)) self.old }
        requires rising { IsRising (moved_keys first last delta self.old) }
        ensures ok { OnOk result (self.new ≡ moved_keys first last delta self.old) }
        ensures err { OnErr result (self.new ≡ self.old) }
    {
        self.runs.reserve(2)?;
        shift_keys(&mut self.runs, first, last, delta);
        Ok(())
    }

    /// The keys of either set.
    pub fn union(&self, other: &RowSet) -> Result<RowSet, AllocError>
        ensures { IfOk result (λ keys. keys ≡ united self.now other.now) }
    {
        let _ = self.ranges();
        if other.is_empty() {
            return self.copy();
        }
        self.combined(other, SetOperation::Either)
    }

    /// The keys of this set alone.
    pub fn minus(&self, other: &RowSet) -> Result<RowSet, AllocError>
        ensures { IfOk result (λ keys. keys ≡ without other.now self.now) }
    {
        if other.is_empty() {
            return self.copy();
        }
        self.combined(other, SetOperation::FirstAlone)
    }

    /// The keys of both sets.
    pub fn intersect(&self, other: &RowSet) -> Result<RowSet, AllocError>
        ensures { IfOk result (λ keys. keys ≡ common self.now other.now) }
    {
        self.combined(other, SetOperation::Both)
    }

    /// The keys at the positions from `first` on, `count` of them or as many as there are.
    pub fn by_positions(&self, first: u64, count: u64) -> Result<RowSet, AllocError>
        ensures { IfOk result (λ keys. keys ≡ take count (drop first self.now)) }
    {
        let end = first.saturating_add(count).min(self.len());
        let mut window = RowSet::new(*self.runs.all.allocator());
        if first < end {
            let low = self.get(first).unwrap();
            let high = self.get(end - 1).unwrap();
            window.insert_range(low, high)?;
        }
        window.intersect(self)
    }

    /// An equal set.
    pub fn copy(&self) -> Result<RowSet, AllocError>
        ensures { IfOk result (λ keys. keys ≡ self.now) }
    {
        let alloc = *self.runs.all.allocator();
        Ok(RowSet {
            runs: Runs {
                all: Vec::from_slice(alloc, &self.runs.all)?,
                front: self.runs.front,
                starts: Vec::from_slice(alloc, &self.runs.starts)?,
            },
        })
    }

    /// Takes the keys of another set in the place of its own, and keeps its room.
    pub fn copy_from(&mut self, other: &RowSet) -> Result<(), AllocError>
        ensures keys { OnOk result (self.new ≡ other.now) }
        ensures none { OnErr result (self.new ≡ []) }
    {
        self.runs.copy_from(&other.runs)
    }

    /// The keys that are in the sets as the choice has it.
    fn combined(&self, other: &RowSet, choice: SetOperation) -> Result<RowSet, AllocError>
        ensures { IfOk result (λ keys. keys ≡ chosen choice self.now other.now) }
    {
        let mut first = self.ranges();
        let mut second = other.ranges();
        let room = choice.room(first.len(), second.len());
        let mut kept = RowSet::with_capacity(*self.runs.all.allocator(), room)?;
        let mut at = 0;
        while at < KEY_SPACE {
            let here = stretch_from(first, at);
            let there = stretch_from(second, at);
            let end = choice.until(here, there);
            if choice.takes(here.held, there.held) {
                kept.insert_range(at, end - 1)?;
            }
            first = rest_from(first, end);
            second = rest_from(second, end);
            at = end;
        }
        Ok(kept)
    }
}

impl<'a> IntoIterator for &'a RowSet {
    type Item = u64;

    type IntoIter = Keys<'a>;

    ghost into_iter_gives = { λ set keys. (keys ≡ set.now) × IsKeySet set.now };

    fn into_iter(self) -> Self::IntoIter {
        self.iter()
    }
}
