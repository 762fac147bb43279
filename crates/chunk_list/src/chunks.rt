//! Items in chunks, none of which is empty: an item comes or leaves in their midst at the cost of one chunk and of the list of chunks.
ghost use Rattle.std.specs.Prelude.{◌≡◌, ◌≢◌, ◌+◌, ◌-◌, ◌/◌, ◌^◌, ◌<◌, ◌≤◌, ◌++◌, ◌∷◌, [], ℕ, Bool, true, false, length, map, take, drop, insert, remove, option_copied, slice_get, slice_range, slice_set, slice_index_or, vec_capacity, vec_len, IfOk, IfSome, OnOk, OnErr, None, Some};
ghost use Rattle.std.specs.Fn.{ComputesKey};
ghost use Rattle.std.specs.List.{AllByRecursion, remove_range};
ghost use Rattle.std.specs.List.Sorted.{IsPartitionedBy, IsPartitionPoint};
ghost use Rattle.chunk_list.specs.Chunked.{IsPlace, IsSplit, joined, list_at, position_in};

use crate::change::ItemChange;
use crate::counts::{ChunkPosition, put_within};
use std::alloc::{AllocError, Global};
use std::marker::Model;

/// Items in chunks. A contract sees the items of each chunk; none is empty. The owner says how many items a chunk has at most,
/// and knows how many there are.
pub struct Chunks<T> {
    chunks: Vec<Vec<T>>,
}

impl<T: Drop> Drop for Chunks<T> {
    fn drop(self) {
        let Self { chunks: _ } = self;
    }
}

impl<T> Model for Chunks<T> {
    ghost use Rattle.std.specs.Prelude.{List};
    ghost use Rattle.chunk_list.specs.Chunked.{AreFilled, contents};

    ghost Value = { List (List T) };

    ghost view = { λ chunks. contents chunks.chunks.items };

    ghost invariant = { λ chunks. AreFilled (contents chunks.chunks.items) };
}

/// Takes the upper half of a chunk out, into room for as many items as the chunk has, or for more.
fn upper_half<T: Drop>(items: &mut Vec<T>, most: usize) -> Result<Vec<T>, AllocError>
    ensures lower { OnOk result (items.new.items ≡ take (vec_len items.old / 2) items.old.items) }
    ensures upper { IfOk result (λ upper. upper.items ≡ drop (vec_len items.old / 2) items.old.items) }
    ensures room { IfOk result (λ upper. vec_len items.old ≤ vec_capacity upper) }
    ensures capacity { vec_capacity items.new ≡ vec_capacity items.old }
    ensures err { OnErr result (items.new.items ≡ items.old.items) }
{
    let len = items.len();
    let mut upper = Vec::with_capacity(*items.allocator(), most.max(len))?;
    let mut tail = items.split_off(len / 2)?;
    let _ = upper.append(&mut tail);
    Ok(upper)
}

/// Puts an item into one of the halves of a chunk, at its place in both.
fn put_into_half<T: Drop>(lower: &mut Vec<T>, upper: &mut Vec<T>, offset: usize, item: T)
    requires lower { vec_len lower.old < vec_capacity lower.old }
    requires upper { vec_len upper.old < vec_capacity upper.old }
    requires within { offset ≤ vec_len lower.old + vec_len upper.old }
    ensures items { lower.new.items ++ upper.new.items ≡ insert (lower.old.items ++ upper.old.items) offset item }
    ensures lower_some { vec_len lower.old ≤ vec_len lower.new }
    ensures upper_some { vec_len upper.old ≤ vec_len upper.new }
{
    let below = lower.len();
    if offset < below {
        put_within(lower, offset, item);
    } else {
        put_within(upper, offset - below, item);
    }
}

/// Changes each item of a chunk in its place.
fn change_items<T, C: ItemChange<T>>(items: &mut [T], change: &C)
    requires { AllByRecursion (C.ready change.now) items.old }
    ensures { items.new ≡ map (C.changed change.now) items.old }
{
    for item in items.iter_mut() {
        change.change(item);
    }
}

impl<T: Drop> Chunks<T> {
    /// No chunks. They take no memory.
    pub fn new(alloc: Global) -> Chunks<T>
        ensures { result ≡ [] }
    {
        Chunks {
            chunks: Vec::new(alloc),
        }
    }

    /// What the chunks take their memory from.
    pub(crate) fn alloc(&self) -> Global {
        *self.chunks.allocator()
    }

    /// How many chunks there are.
    pub fn len(&self) -> usize
        ensures { result ≡ length self.now }
    {
        self.chunks.len()
    }

    /// The items of a chunk.
    pub fn chunk(&self, index: usize) -> &[T]
        requires { index < length self.now }
        ensures items { result.now ≡ list_at index self.now }
        ensures some { 0 < length result.now }
    {
        &self.chunks[index]
    }

    /// The first item, whose chunk is at hand.
    pub fn first(&self) -> Option<&T>
        ensures { option_copied result ≡ slice_get (joined self.now) 0 }
    {
        let items = self.chunks.first()?;
        items.first()
    }

    /// The last item, whose chunk is at hand.
    pub fn last(&self) -> Option<&T>
        ensures { option_copied result ≡ slice_get (joined self.now) (length (joined self.now) - 1) }
    {
        let items = self.chunks.last()?;
        items.last()
    }

    /// Where the item at a position stands. The chunks before it are looked at one by one.
    pub fn find(&self, position: usize) -> ChunkPosition
        requires { position < length (joined self.now) }
        ensures { IsPlace self.now position result }
    {
        let mut index = 0;
        let mut offset = position;
        while offset >= self.chunk(index).len() {
            offset -= self.chunk(index).len();
            index += 1;
        }
        ChunkPosition { index, offset }
    }

    /// How many items are in the first chunks.
    pub fn count_in(&self, chunks: usize) -> usize
        requires within { chunks ≤ length self.now }
        requires fits { length (joined self.now) < 2 ^ 64 }
        ensures { result ≡ length (joined (take chunks self.now)) }
    {
        let mut count = 0;
        for index in 0..chunks {
            count += self.chunk(index).len();
        }
        count
    }

    /// Where the item behind a place stands, if there is one: behind the end of a chunk that is the first of the next.
    pub fn next_item(&self, place: ChunkPosition) -> Option<ChunkPosition>
        requires { place.offset ≤ length (list_at place.index self.now) }
        ensures found { IfSome result (λ found. IsPlace self.now (position_in self.now place) found) }
        ensures none { result ≡ None → length (joined self.now) ≤ position_in self.now place }
    {
        if place.index >= self.chunks.len() {
            return None;
        }
        if place.offset < self.chunk(place.index).len() {
            return Some(place);
        }
        let index = place.index + 1;
        if index >= self.chunks.len() {
            return None;
        }
        Some(ChunkPosition { index, offset: 0 })
    }

    /// The place behind the items that pass a test, where no item that passes it stands behind one that fails it: a binary search
    /// by the first items of the chunks, and then one in a chunk.
    pub fn partition_point<P: FnMut(&T) -> bool>(&self, mut pred: P) -> ChunkPosition
        requires { P.IsAlwaysCallable pred }
        ensures index { result.index ≤ length self.now }
        ensures within { position_in self.now result ≤ length (joined self.now) }
        ensures partitioned { (p : T → Bool) → ComputesKey P.FnMut p pred → IsPartitionedBy p (joined self.now) → IsPartitionPoint (λ item. p item ≡ true) (λ item. p item ≡ false) (joined self.now) (position_in self.now result) }
    {
        let mut size = self.len();
        if size == 0 {
            return ChunkPosition {
                index: 0,
                offset: 0,
            };
        }
        let mut base = 0;
        while size > 1 {
            let half = size / 2;
            let middle = base + half;
            if pred(&self.chunk(middle)[0]) {
                base = middle;
                size -= half;
            } else {
                size -= half;
            }
        }
        ChunkPosition {
            index: base,
            offset: self.chunk(base).partition_point(pred),
        }
    }

    /// Puts a chunk in before the one at an index, or behind all.
    pub(crate) fn insert_chunk(&mut self, index: usize, items: Vec<T>) -> Result<(), AllocError>
        requires within { index ≤ length self.old }
        requires some { 0 < length items.items }
        ensures ok { OnOk result (self.new ≡ insert self.old index items.items) }
        ensures err { OnErr result (self.new ≡ self.old) }
    {
        self.chunks.insert(index, items)?;
        Ok(())
    }

    /// Begins a chunk with an item before the one at an index, or behind all.
    fn begin(&mut self, index: usize, item: T) -> Result<(), AllocError>
        requires { index ≤ length self.old }
        ensures ok { OnOk result (self.new ≡ insert self.old index (item ∷ [])) }
        ensures err { OnErr result (self.new ≡ self.old) }
    {
        let mut items = Vec::new(self.alloc());
        items.push(item)?;
        self.insert_chunk(index, items)
    }

    /// Puts an item in at a place of a chunk, of which two are made. Behind its end the item begins the second.
    fn split(&mut self, place: ChunkPosition, item: T, most: usize) -> Result<(), AllocError>
        requires index { place.index < length self.old }
        requires two { 2 ≤ length (list_at place.index self.old) }
        requires offset { place.offset ≤ length (list_at place.index self.old) }
        ensures ok { OnOk result (IsSplit place.index (insert (list_at place.index self.old) place.offset item) self.old self.new) }
        ensures err { OnErr result (self.new ≡ self.old) }
    {
        if place.offset == self.chunk(place.index).len() {
            return self.begin(place.index + 1, item);
        }
        self.chunks.reserve(1)?;
        let lower = &mut self.chunks[place.index];
        let mut upper = upper_half(lower, most)?;
        put_into_half(lower, &mut upper, place.offset, item);
        put_within(&mut self.chunks, place.index + 1, upper);
        Ok(())
    }

    /// Puts an item in at a place. A chunk that has the most items becomes two, the second of which has room for so many, or
    /// begins with the item where this stands behind its end. After a refusal all is as before.
    pub fn insert(&mut self, place: ChunkPosition, item: T, most: usize) -> Result<(), AllocError>
        requires index { place.index < length self.old }
        requires offset { place.offset ≤ length (list_at place.index self.old) }
        requires most { 2 ≤ most }
        ensures items { OnOk result (joined self.new ≡ insert (joined self.old) (position_in self.old place) item) }
        ensures room { OnOk result (length (list_at place.index self.old) < most → self.new ≡ slice_set self.old place.index (insert (list_at place.index self.old) place.offset item)) }
        ensures full { OnOk result (most ≤ length (list_at place.index self.old) → IsSplit place.index (insert (list_at place.index self.old) place.offset item) self.old self.new) }
        ensures err { OnErr result (self.new ≡ self.old) }
    {
        if self.chunk(place.index).len() >= most {
            return self.split(place, item, most);
        }
        self.chunks[place.index].insert(place.offset, item)?;
        Ok(())
    }

    /// Puts an item in behind all others: into the last chunk, or into a new one where that has the most items. After a refusal
    /// all is as before.
    pub fn push(&mut self, item: T, most: usize) -> Result<(), AllocError>
        requires { 2 ≤ most }
        ensures ok { OnOk result (joined self.new ≡ joined self.old ++ item ∷ []) }
        ensures err { OnErr result (self.new ≡ self.old) }
    {
        let count = self.len();
        if count == 0 {
            return self.begin(0, item);
        }
        let index = count - 1;
        let offset = self.chunk(index).len();
        self.insert(ChunkPosition { index, offset }, item, most)
    }

    /// Takes the item at a place out, and its chunk where no other item is there.
    pub fn remove(&mut self, place: ChunkPosition) -> T
        requires index { place.index < length self.old }
        requires offset { place.offset < length (list_at place.index self.old) }
        ensures item { slice_get (joined self.old) (position_in self.old place) ≡ Some result }
        ensures items { joined self.new ≡ remove (joined self.old) (position_in self.old place) }
        ensures gone { length (list_at place.index self.old) ≡ 1 → self.new ≡ remove self.old place.index }
        ensures left { length (list_at place.index self.old) ≢ 1 → self.new ≡ slice_set self.old place.index (remove (list_at place.index self.old) place.offset) }
    {
        let items = &mut self.chunks[place.index];
        let item = items.remove(place.offset);
        if items.is_empty() {
            self.chunks.remove(place.index);
        }
        item
    }

    /// Takes items of a chunk out, so many from a place on, and puts them behind others. A chunk of which none is left goes.
    pub(crate) fn remove_run(&mut self, place: ChunkPosition, count: usize, out: &mut Vec<T>)
    where
        T: Copy,
        requires index { place.index < length self.old }
        requires within { place.offset + count ≤ length (list_at place.index self.old) }
        requires room { vec_len out.old + length (list_at place.index self.old) ≤ vec_capacity out.old }
        ensures gone { count ≡ length (list_at place.index self.old) → self.new ≡ remove self.old place.index }
        ensures left { count ≢ length (list_at place.index self.old) → self.new ≡ slice_set self.old place.index (remove_range (list_at place.index self.old) place.offset (place.offset + count)) }
        ensures out { out.new.items ≡ out.old.items ++ slice_range (list_at place.index self.old) place.offset (place.offset + count) }
        ensures capacity { vec_capacity out.old ≤ vec_capacity out.new }
    {
        if count == 1 {
            let _ = out.push(self.remove(place));
            return;
        }
        let items = &mut self.chunks[place.index];
        let end = out.len() + count;
        let _ = out.extend_from_slice(&items[place.offset..]);
        items.truncate(place.offset);
        let _ = items.extend_from_slice(&out[end..]);
        out.truncate(end);
        if items.is_empty() {
            self.chunks.remove(place.index);
        }
    }

    /// Puts items in behind those of a chunk.
    pub(crate) fn extend_chunk(&mut self, index: usize, items: &[T]) -> Result<(), AllocError>
    where
        T: Copy,
        requires { index < length self.old }
        ensures ok { OnOk result (self.new ≡ slice_set self.old index (list_at index self.old ++ items.now)) }
        ensures err { OnErr result (self.new ≡ self.old) }
    {
        self.chunks[index].extend_from_slice(items)?;
        Ok(())
    }

    /// Takes all chunks but the first ones off.
    pub(crate) fn truncate(&mut self, count: usize)
        ensures { self.new ≡ take count self.old }
    {
        self.chunks.truncate(count);
    }

    /// Equal chunks.
    pub(crate) fn copy(&self) -> Result<Chunks<T>, AllocError>
    where
        T: Copy,
        ensures { IfOk result (λ copy. copy ≡ self.now) }
    {
        let alloc = self.alloc();
        let mut chunks = Vec::with_capacity(alloc, self.chunks.len())?;
        for items in &self.chunks {
            let copied = Vec::from_slice(alloc, items)?;
            chunks.push(copied)?;
        }
        Ok(Chunks { chunks })
    }

    /// Changes each item in its place.
    pub(crate) fn change_all<C: ItemChange<T>>(&mut self, change: &C)
        requires { AllByRecursion (C.ready change.now) (joined self.old) }
        ensures { self.new ≡ map (map (C.changed change.now)) self.old }
    {
        for items in self.chunks.iter_mut() {
            change_items(items, change);
        }
    }
}
