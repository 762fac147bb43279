//! A list in chunks that counts the items of each.
ghost use Rattle.std.specs.Prelude.{◌≡◌, ◌+◌, ◌-◌, ◌^◌, ◌<◌, ◌≤◌, ◌==◌, ◌++◌, ◌∷◌, [], length, map, take, drop, insert, remove, option_copied, slice_get, slice_range, slice_set, Bool, true, false, IfOk, OnErr, OnOk, Some};
ghost use Rattle.std.specs.List.{AllByRecursion, remove_range};
ghost use Rattle.std.specs.List.Sorted.{IsPartitionedBy, IsPartitionPoint};
ghost use Rattle.std.specs.Fn.{ComputesKey};
ghost use Rattle.chunk_list.specs.Chunked.{IsChunk, IsPlace, IsReplaced, joined, list_at, position_in};

use crate::change::ItemChange;
use crate::chunks::Chunks;
use crate::counts::{ChunkPosition, Counts};
use std::alloc::{AllocError, Global};
use std::marker::Model;

/// A chunk with so many items is full.
const CHUNK_LEN: usize = 512;

/// A list has at most so many items.
const MOST_ITEMS: usize = 1 << 62;

/// Items in order. An item comes or leaves in their midst at the cost of one chunk and of the list of chunks. A contract sees
/// the chunks, lists of 1 to 512 items; a position is a place among the items of all of them, which are joined.
pub struct ChunkList<T> {
    chunks: Chunks<T>,
    /// How many items each chunk has.
    counts: Counts,
}

impl<T: Drop> Drop for ChunkList<T> {
    fn drop(self) {
        let Self {
            chunks: _,
            counts: _,
        } = self;
    }
}

impl<T> Model for ChunkList<T> {
    ghost use Rattle.std.specs.Prelude.{List};
    ghost use Rattle.chunk_list.specs.Chunked.{AreChunks};

    ghost Value = { List (List T) };

    ghost view = { λ list. list.chunks };

    ghost invariant = { λ list. AreChunks list.chunks list.counts };
}

impl<T: Drop> ChunkList<T> {
    /// No items. They take no memory.
    pub fn new(alloc: Global) -> ChunkList<T>
        ensures { result ≡ [] }
    {
        ChunkList {
            chunks: Chunks::new(alloc),
            counts: Counts::new(alloc),
        }
    }

    /// How many items there are.
    pub fn len(&self) -> usize
        ensures count { result ≡ length (joined self.now) }
        ensures sizes { AllByRecursion IsChunk self.now }
    {
        self.counts.total()
    }

    /// Whether there are none.
    pub fn is_empty(&self) -> bool
        ensures { result ≡ (length (joined self.now) == 0) }
    {
        self.len() == 0
    }

    /// Where the item at a position stands.
    fn find(&self, position: usize) -> ChunkPosition
        requires { position < length (joined self.now) }
        ensures { IsPlace self.now position result }
    {
        self.counts.find(position)
    }

    /// The item at a position, or None past the end.
    pub fn get(&self, position: usize) -> Option<&T>
        ensures { option_copied result ≡ slice_get (joined self.now) position }
    {
        if position >= self.len() {
            return None;
        }
        self.run_at(position).first()
    }

    /// The first item.
    pub fn first(&self) -> Option<&T>
        ensures { option_copied result ≡ slice_get (joined self.now) 0 }
    {
        self.chunks.first()
    }

    /// The last item.
    pub fn last(&self) -> Option<&T>
        ensures { option_copied result ≡ slice_get (joined self.now) (length (joined self.now) - 1) }
    {
        self.chunks.last()
    }

    /// The items from a position to the end of the chunk in which it stands, so that a list is walked in slices.
    pub fn run_at(&self, position: usize) -> &[T]
        requires { position < length (joined self.now) }
        ensures some { 0 < length result.now }
        ensures run { take (length result.now) (drop position (joined self.now)) ≡ result.now }
    {
        let place = self.find(position);
        &self.chunks.chunk(place.index)[place.offset..]
    }

    /// How many items pass a test, where no item that passes it stands behind one that fails it. Where the last one passes, no
    /// other is looked at; else a binary search finds this.
    pub fn partition_point<P: FnMut(&T) -> bool>(&self, mut pred: P) -> usize
        requires { P.IsAlwaysCallable pred }
        ensures within { result ≤ length (joined self.now) }
        ensures partitioned { (p : T → Bool) → ComputesKey P.FnMut p pred → IsPartitionedBy p (joined self.now) → IsPartitionPoint (λ item. p item ≡ true) (λ item. p item ≡ false) (joined self.now) result }
    {
        match self.last() {
            Some(last) => {
                if pred(last) {
                    self.len()
                } else {
                    let place = self.chunks.partition_point(pred);
                    self.counts.before(place.index) + place.offset
                }
            }
            None => 0,
        }
    }

    /// Puts an item in at a place of a chunk, which becomes two if it is full. After a refusal all is as before.
    fn put(&mut self, place: ChunkPosition, item: T) -> Result<(), AllocError>
        requires index { place.index < length self.old }
        requires offset { place.offset ≤ length (list_at place.index self.old) }
        requires few { length (joined self.old) < 2 ^ 62 }
        ensures ok { OnOk result (joined self.new ≡ insert (joined self.old) (position_in self.old place) item) }
        ensures replaced { OnOk result (IsReplaced 1 2 self.old self.new) }
        ensures err { OnErr result (self.new ≡ self.old) }
        ensures sizes { AllByRecursion IsChunk self.new }
    {
        if self.chunks.chunk(place.index).len() < CHUNK_LEN {
            self.chunks.insert(place, item, CHUNK_LEN)?;
            self.counts.add(place.index, 1);
            return Ok(());
        }
        let next = place.index + 1;
        self.counts.insert(next, 0)?;
        if let Err(refused) = self.chunks.insert(place, item, CHUNK_LEN) {
            self.counts.remove(next);
            return Err(refused);
        }
        let gone = CHUNK_LEN - self.chunks.chunk(place.index).len();
        self.counts.add(next, gone + 1);
        self.counts.sub(place.index, gone);
        Ok(())
    }

    /// Puts a chunk behind all others.
    fn append_chunk(&mut self, items: Vec<T>) -> Result<(), AllocError>
        requires chunk { IsChunk items.items }
        requires room { length (joined self.old) + length items.items ≤ 2 ^ 62 }
        ensures ok { OnOk result (self.new ≡ self.old ++ items.items ∷ []) }
        ensures err { OnErr result (self.new ≡ self.old) }
        ensures sizes { AllByRecursion IsChunk self.new }
    {
        let count = self.chunks.len();
        self.counts.insert(count, items.len())?;
        if let Err(refused) = self.chunks.insert_chunk(count, items) {
            self.counts.remove(count);
            return Err(refused);
        }
        Ok(())
    }

    /// Puts an item in behind all others, without a move of these. After a refusal all is as before.
    pub fn push(&mut self, item: T) -> Result<(), AllocError>
        ensures ok { OnOk result (joined self.new ≡ joined self.old ++ item ∷ []) }
        ensures replaced { OnOk result (IsReplaced 1 2 self.old self.new) }
        ensures err { OnErr result (self.new ≡ self.old) }
        ensures sizes { AllByRecursion IsChunk self.new }
    {
        if self.len() >= MOST_ITEMS {
            return Err(AllocError);
        }
        let count = self.chunks.len();
        if count == 0 {
            let mut items = Vec::new(self.chunks.alloc());
            items.push(item)?;
            return self.append_chunk(items);
        }
        let index = count - 1;
        let offset = self.chunks.chunk(index).len();
        self.put(ChunkPosition { index, offset }, item)
    }

    /// How many items there is room for in the last chunk.
    fn room_at_end(&self) -> usize
        ensures some { 0 < result → 0 < length self.now }
        ensures room { 0 < length self.now → length (list_at (length self.now - 1) self.now) + result ≤ 512 }
    {
        let count = self.chunks.len();
        if count == 0 {
            return 0;
        }
        CHUNK_LEN - self.chunks.chunk(count - 1).len()
    }

    /// Puts items into new chunks behind all others. After a refusal some of these chunks are there.
    fn append_chunks(&mut self, items: &[T]) -> Result<(), AllocError>
    where
        T: Copy,
        requires { length (joined self.old) + length items.now ≤ 2 ^ 62 }
        ensures kept { take (length self.old) self.new ≡ self.old }
        ensures ok { OnOk result (joined (drop (length self.old) self.new) ≡ items.now) }
        ensures sizes { AllByRecursion IsChunk self.new }
    {
        let alloc = self.chunks.alloc();
        let mut rest = items;
        while !rest.is_empty() {
            let (first, others) = rest.split_at(CHUNK_LEN.min(rest.len()));
            let chunk = Vec::from_slice(alloc, first)?;
            self.append_chunk(chunk)?;
            rest = others;
        }
        Ok(())
    }

    /// Puts items in behind all others: those that are too many for the last chunk into new ones. After a refusal some of the
    /// new chunks are there.
    fn append(&mut self, items: &[T]) -> Result<(), AllocError>
    where
        T: Copy,
        requires { length (joined self.old) + length items.now ≤ 2 ^ 62 }
        ensures ok { OnOk result (joined self.new ≡ joined self.old ++ items.now) }
        ensures err { OnErr result (take (length self.old) self.new ≡ self.old) }
        ensures sizes { AllByRecursion IsChunk self.new }
    {
        let count = self.chunks.len();
        let (first, rest) = items.split_at(self.room_at_end().min(items.len()));
        self.append_chunks(rest)?;
        if first.is_empty() {
            return Ok(());
        }
        let last = count - 1;
        self.chunks.extend_chunk(last, first)?;
        self.counts.add(last, first.len());
        Ok(())
    }

    /// Puts items in behind all others, without a move of these. After a refusal all is as before.
    pub fn extend_from_slice(&mut self, items: &[T]) -> Result<(), AllocError>
    where
        T: Copy,
        ensures ok { OnOk result (joined self.new ≡ joined self.old ++ items.now) }
        ensures err { OnErr result (self.new ≡ self.old) }
        ensures sizes { AllByRecursion IsChunk self.new }
    {
        let count = self.chunks.len();
        if items.len() > MOST_ITEMS - self.len() {
            return Err(AllocError);
        }
        match self.append(items) {
            Ok(()) => Ok(()),
            Err(refused) => {
                self.chunks.truncate(count);
                self.counts.truncate(count);
                Err(refused)
            }
        }
    }

    /// An equal list.
    pub fn copy(&self) -> Result<ChunkList<T>, AllocError>
    where
        T: Copy,
        ensures { IfOk result (λ copy. copy ≡ self.now) }
    {
        Ok(ChunkList {
            chunks: self.chunks.copy()?,
            counts: self.counts.copy()?,
        })
    }

    /// Puts an item in at a position. After a refusal all is as before.
    pub fn insert(&mut self, position: usize, item: T) -> Result<(), AllocError>
        requires { position ≤ length (joined self.old) }
        ensures ok { OnOk result (joined self.new ≡ insert (joined self.old) position item) }
        ensures replaced { OnOk result (IsReplaced 1 2 self.old self.new) }
        ensures err { OnErr result (self.new ≡ self.old) }
        ensures sizes { AllByRecursion IsChunk self.new }
    {
        if position == self.len() {
            return self.push(item);
        }
        if self.len() >= MOST_ITEMS {
            return Err(AllocError);
        }
        let place = self.find(position);
        self.put(place, item)
    }

    /// Takes the item at a position out.
    pub fn remove(&mut self, position: usize) -> T
        requires { position < length (joined self.old) }
        ensures item { slice_get (joined self.old) position ≡ Some result }
        ensures others { joined self.new ≡ remove (joined self.old) position }
        ensures replaced { IsReplaced 0 1 self.old self.new }
        ensures sizes { AllByRecursion IsChunk self.new }
    {
        let place = self.find(position);
        if self.chunks.chunk(place.index).len() == 1 {
            self.counts.remove(place.index);
            return self.chunks.remove(place);
        }
        self.counts.sub(place.index, 1);
        self.chunks.remove(place)
    }

    /// Takes items out, so many from a position on, and puts them behind others: those of a chunk together. After a refusal all
    /// is as before.
    pub fn remove_run(
        &mut self,
        position: usize,
        count: usize,
        out: &mut Vec<T>,
    ) -> Result<(), AllocError>
    where
        T: Copy,
        requires { position + count ≤ length (joined self.old) }
        ensures others { OnOk result (joined self.new ≡ remove_range (joined self.old) position (position + count)) }
        ensures out { OnOk result (out.new.items ≡ out.old.items ++ slice_range (joined self.old) position (position + count)) }
        ensures err { OnErr result (self.new ≡ self.old) }
        ensures err_out { OnErr result (out.new.items ≡ out.old.items) }
    {
        let _ = &self.counts;
        out.reserve(count + CHUNK_LEN)?;
        let mut rest = count;
        while rest > 0 {
            let place = self.find(position);
            let len = self.chunks.chunk(place.index).len();
            let some = rest.min(len - place.offset);
            rest -= some;
            self.chunks.remove_run(place, some, out);
            if some == len {
                self.counts.remove(place.index);
            } else {
                self.counts.sub(place.index, some);
            }
        }
        Ok(())
    }

    /// Changes each item in its place.
    pub fn change_all<C: ItemChange<T>>(&mut self, change: &C)
        requires { AllByRecursion (C.ready change.now) (joined self.old) }
        ensures chunks { self.new ≡ map (map (C.changed change.now)) self.old }
        ensures sizes { AllByRecursion IsChunk self.new }
    {
        self.chunks.change_all(change);
    }
}
