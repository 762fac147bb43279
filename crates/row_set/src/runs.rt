//! The ranges of a set as they lie: with places that are free before them, and with the number of keys before each block of places.
//! An edit moves the ranges of the shorter side.
ghost use Rattle.std.specs.Prelude.{◌≡◌, ℕ, ◌+◌, ◌-◌, ◌^◌, ◌<◌, ◌≤◌, [], ◌∷◌, ◌++◌, length, take, drop, slice_get, OnErr, OnOk, vec_len};
ghost use Rattle.std.specs.Bool.{OnTrue, OnFalse};
ghost use Rattle.std.specs.List.{AllByRecursion};
ghost use Rattle.row_set.specs.Ranges.{AreApart, AreRanges, keys_before, keys_from, keys_of};
ghost use Rattle.row_set.specs.Runs.{IsCounted, IsRoom, IsStored, lying};
ghost use Rattle.row_set.specs.Sets.{found, united};

use crate::blocks::{count_rest, keys_before_block, recount, recount_between};
use crate::edits::{cut, put_at, slide, splice};
use crate::ranges::{BLOCK, Range};
use crate::search::{all_end_before, count_in, few_ended_before, key_in, started_by};
use std::alloc::{AllocError, Global};

/// Ranges, rising, behind places that are free. A contract sees their list as `lying runs`: those of `all` from `front` on.
#[derive(Drop)]
pub(crate) struct Runs {
    /// The places: the ranges are those from `front` on.
    pub(crate) all: Vec<Range>,
    /// How many places are free before the ranges.
    pub(crate) front: usize,
    /// The number of keys before each block of places but the first.
    pub(crate) starts: Vec<u64>,
}

impl Runs {
    /// No ranges.
    pub(crate) fn new(alloc: Global) -> Runs
        ensures ranges { lying result ≡ [] }
        ensures stored { IsStored result }
    {
        Runs {
            all: Vec::new(alloc),
            front: 0,
            starts: Vec::new(alloc),
        }
    }

    /// The ranges.
    pub(crate) fn as_slice(&self) -> &[Range]
        requires { self.now.front ≤ length self.now.all.items }
        ensures { result.now ≡ lying self.now }
    {
        &self.all[self.front..]
    }

    /// The number of keys in the ranges before the one at an index. Those of its own block are counted.
    fn keys_before(&self, index: usize) -> u64
        requires stored { IsStored self.now }
        requires within { index ≤ length (lying self.now) }
        ensures { result ≡ keys_before index (lying self.now) }
    {
        if index == 0 {
            return 0;
        }
        let block = ((self.front + index) / BLOCK).min(self.starts.len());
        let begin = (block * BLOCK).saturating_sub(self.front);
        keys_before_block(&self.starts, block) + count_in(&self.as_slice()[begin..index])
    }

    /// The number of keys.
    pub(crate) fn len(&self) -> u64
        requires { IsStored self.now }
        ensures { result ≡ length (keys_of (lying self.now)) }
    {
        self.keys_before(self.as_slice().len())
    }

    /// The position of a key, or else, as an error, the number of smaller keys.
    pub(crate) fn position_of(&self, key: u64) -> Result<u64, u64>
        requires { IsStored self.now }
        ensures { result ≡ found key (keys_of (lying self.now)) }
    {
        let ranges = self.as_slice();
        let index = few_ended_before(ranges, key);
        let before = self.keys_before(index);
        if index < ranges.len() && ranges[index].first <= key {
            Ok(before + (key - ranges[index].first))
        } else {
            Err(before)
        }
    }

    /// The key at a position, or None past the end.
    pub(crate) fn key_at(&self, position: u64) -> Option<u64>
        requires { IsStored self.now }
        ensures { result ≡ slice_get (keys_of (lying self.now)) position }
    {
        let block = started_by(&self.starts, position);
        let begin = (block * BLOCK).saturating_sub(self.front);
        let offset = position - keys_before_block(&self.starts, block);
        key_in(&self.as_slice()[begin..], offset)
    }

    /// Takes the ranges of others in the place of its own, and keeps its room.
    pub(crate) fn copy_from(&mut self, other: &Runs) -> Result<(), AllocError>
        requires stored { IsStored other.now }
        ensures stored { IsStored self.new }
        ensures ranges { OnOk result (lying self.new ≡ lying other.now) }
        ensures none { OnErr result (lying self.new ≡ []) }
    {
        self.front = 0;
        self.all.clear();
        self.starts.clear();
        self.starts.reserve(other.starts.len())?;
        self.all.extend_from_slice(&other.all)?;
        let _ = self.starts.extend_from_slice(&other.starts);
        self.front = other.front;
        Ok(())
    }

    /// Makes room for some more ranges.
    pub(crate) fn reserve(&mut self, more: usize) -> Result<(), AllocError>
        requires { IsStored self.old }
        ensures stored { IsStored self.new }
        ensures ranges { lying self.new ≡ lying self.old }
        ensures room { OnOk result (IsRoom more self.new) }
    {
        self.use_free(more);
        self.all.reserve(more)?;
        let blocks = (self.all.len() + more) / BLOCK;
        self.starts
            .reserve(blocks.saturating_sub(self.starts.len()))
    }

    /// Moves the ranges to the first places, where more than half of the places are free and some more ranges have no room.
    fn use_free(&mut self, more: usize)
        requires { IsStored self.old }
        ensures stored { IsStored self.new }
        ensures ranges { lying self.new ≡ lying self.old }
    {
        if more > self.all.capacity() - self.all.len() && self.front > self.all.len() / 2 {
            self.gather();
        }
    }

    /// Moves the ranges to the first places.
    fn gather(&mut self)
        requires { IsStored self.old }
        ensures stored { IsStored self.new }
        ensures ranges { lying self.new ≡ lying self.old }
        ensures front { self.new.front ≡ 0 }
        ensures room { (more : ℕ) → IsRoom more self.old → IsRoom more self.new }
    {
        if self.front == 0 {
            return;
        }
        cut(&mut self.all, 0, self.front);
        self.front = 0;
        recount(&mut self.starts, &self.all, 0, 0);
    }

    /// Puts other ranges in the place of those from `from` up to `to`. There is room for them.
    pub(crate) fn replace(&mut self, from: usize, to: usize, others: &[Range])
        requires counted { IsCounted self.old }
        requires old { AreRanges (lying self.old) }
        requires new { AreRanges (take from (lying self.old) ++ (others.now ++ drop to (lying self.old))) }
        requires order { from ≤ to }
        requires within { to ≤ length (lying self.old) }
        requires room { IsRoom (length others.now - (to - from)) self.old }
        ensures counted { IsCounted self.new }
        ensures ranges { lying self.new ≡ take from (lying self.old) ++ (others.now ++ drop to (lying self.old)) }
        ensures room { (more : ℕ) → IsRoom (more + (length others.now - (to - from))) self.old → IsRoom more self.new }
    {
        let start = self.front + from;
        let end = self.front + to;
        let gone = count_in(&self.all[start..end]);
        let came = count_in(others);
        if others.len() == to - from {
            put_at(&mut self.all, start, others);
            recount_between(
                &mut self.starts,
                &self.all,
                self.front,
                start,
                end,
                came,
                gone,
            );
        } else if from < self.all.len() - end && others.len() <= self.front + (to - from) {
            let front = slide(&mut self.all, self.front, from, end, others);
            let low = front.min(self.front);
            self.front = front;
            recount_between(&mut self.starts, &self.all, front, low, end, came, gone);
        } else {
            splice(&mut self.all, start, end, others);
            recount(&mut self.starts, &self.all, self.front, start);
        }
    }

    /// Puts a range behind all others. There is room for it.
    pub(crate) fn push(&mut self, range: Range)
        requires counted { IsCounted self.old }
        requires ranges { AreRanges (lying self.old ++ range ∷ []) }
        requires room { IsRoom 1 self.old }
        ensures counted { IsCounted self.new }
        ensures ranges { lying self.new ≡ lying self.old ++ range ∷ [] }
        ensures room { (more : ℕ) → IsRoom (more + 1) self.old → IsRoom more self.new }
    {
        let _ = self.all.push(range);
        count_rest(&mut self.starts, &self.all, self.front);
    }

    /// Adds every key from `first` to `last` to the last range, if this ends just before them, and says whether it does.
    pub(crate) fn stretch(&mut self, first: u64, last: u64) -> bool
        requires stored { IsStored self.old }
        requires order { first ≤ last }
        requires small { last < 2 ^ 62 }
        ensures stored { IsStored self.new }
        ensures added { OnTrue result (keys_of (lying self.new) ≡ united (keys_from first last) (keys_of (lying self.old))) }
        ensures same { OnFalse result (lying self.new ≡ lying self.old) }
        ensures room { (more : ℕ) → IsRoom more self.old → IsRoom more self.new }
    {
        let count = self.all.len();
        if self.front == count || self.all[count - 1].last + 1 != first {
            return false;
        }
        self.all[count - 1].last = last;
        true
    }

    /// Puts every key from `first` to `last` behind all others, as a range of its own, where a key is left out before them and
    /// there is room in the last block. Says whether it does.
    pub(crate) fn append(&mut self, first: u64, last: u64) -> bool
        requires stored { IsStored self.old }
        requires order { first ≤ last }
        requires small { last < 2 ^ 62 }
        ensures stored { IsStored self.new }
        ensures added { OnTrue result (keys_of (lying self.new) ≡ united (keys_from first last) (keys_of (lying self.old))) }
        ensures same { OnFalse result (lying self.new ≡ lying self.old) }
    {
        let room = self.all.capacity().min((self.starts.len() + 1) * BLOCK);
        if self.all.len() >= room || !all_end_before(self.as_slice(), first.saturating_sub(1)) {
            return false;
        }
        let _ = self.all.push(Range { first, last });
        true
    }
}
