//! The rows of a group in order.
ghost use Rattle.std.specs.Prelude.{◌≡◌, ◌+◌, ◌-◌, ◌<◌, ◌≤◌, ◌++◌, ◌∷◌, ◌==◌, [], true, false, length, take, drop, slice_get, OnOk, OnErr, Some};
ghost use Rattle.std.specs.List.{AllByRecursion};
ghost use Rattle.row_groups.specs.Slots.{AreKnown, handle_from, is_before, IsParted, slots_with, slots_without};

use crate::place::{GroupRow, SearchKey};
use crate::search::spot_before;
use chunk_list::Chunks;
use row_handles::Handle;
use std::alloc::{AllocError, Global};
use std::marker::Model;

/// At most this many rows are in one chunk.
const CHUNK_LEN: usize = 128;

/// Rows in order. A row comes or leaves in their midst at the cost of one chunk and of the list of chunks.
#[derive(Drop)]
pub(crate) struct Sequence {
    chunks: Chunks<GroupRow>,
    len: usize,
}

impl Model for Sequence {
    ghost use Rattle.std.specs.Prelude.{List};
    ghost use Rattle.row_groups.specs.declared.place.GroupRow.{GroupRow};
    ghost use Rattle.chunk_list.specs.Chunked.{joined};
    ghost use Rattle.row_groups.specs.Slots.{IsCounted};

    ghost Value = { List GroupRow };

    ghost view = { λ sequence. joined sequence.chunks };

    ghost invariant = { λ sequence. IsCounted sequence.len sequence.chunks };
}

impl Sequence {
    /// No rows. It takes no memory.
    pub(crate) fn new(alloc: Global) -> Sequence
        ensures { result ≡ [] }
    {
        Sequence {
            chunks: Chunks::new(alloc),
            len: 0,
        }
    }

    pub(crate) fn len(&self) -> usize
        ensures { result ≡ length self.now }
    {
        self.len
    }

    pub(crate) fn is_empty(&self) -> bool
        ensures { result ≡ (length self.now == 0) }
    {
        self.len == 0
    }

    /// The row at a position.
    pub(crate) fn get(&self, position: usize) -> GroupRow
        requires { position < length self.now }
        ensures { slice_get self.now position ≡ Some result }
    {
        let spot = self.chunks.find(position);
        self.chunks.chunk(spot.index)[spot.offset]
    }

    /// The first row, whose chunk is at hand.
    pub(crate) fn first(&self) -> Option<GroupRow>
        ensures { result ≡ slice_get self.now 0 }
    {
        self.chunks.first().copied()
    }

    /// The last row, whose chunk is at hand.
    pub(crate) fn last(&self) -> Option<GroupRow>
        ensures { result ≡ slice_get self.now (length self.now - 1) }
    {
        self.chunks.last().copied()
    }

    /// How many rows stand before a place: two binary searches, and the rows of the chunks before it are counted.
    fn search(&self, place: &SearchKey<'_>) -> usize
        requires known { AreKnown place.now.handles.now self.now }
        requires parted { IsParted (is_before place.now.handles.now place.now.table.now place.now.at place.now.key) self.now }
        ensures within { result ≤ length self.now }
        ensures before { AllByRecursion (λ slot. is_before place.now.handles.now place.now.table.now place.now.at place.now.key slot ≡ true) (take result self.now) }
        ensures others { AllByRecursion (λ slot. is_before place.now.handles.now place.now.table.now place.now.at place.now.key slot ≡ false) (drop result self.now) }
    {
        let spot = spot_before(&self.chunks, place);
        self.chunks.count_in(spot.index) + spot.offset
    }

    /// How many rows stand before a place. Where that is all of them or none, a look at the last row or the first shows it.
    pub(crate) fn count_before(&self, place: &SearchKey<'_>) -> usize
        requires known { AreKnown place.now.handles.now self.now }
        requires parted { IsParted (is_before place.now.handles.now place.now.table.now place.now.at place.now.key) self.now }
        ensures within { result ≤ length self.now }
        ensures before { AllByRecursion (λ slot. is_before place.now.handles.now place.now.table.now place.now.at place.now.key slot ≡ true) (take result self.now) }
        ensures others { AllByRecursion (λ slot. is_before place.now.handles.now place.now.table.now place.now.at place.now.key slot ≡ false) (drop result self.now) }
    {
        if let Some(last) = self.last() {
            if place.is_after(last) {
                return self.len;
            }
        }
        if let Some(first) = self.first() {
            if !place.is_after(first) {
                return 0;
            }
        }
        self.search(place)
    }

    /// Puts a row in behind all others, at a cost that does not grow with them. After a refusal all is as it was.
    pub(crate) fn push(&mut self, slot: GroupRow) -> Result<(), AllocError>
        ensures ok { OnOk result (self.new ≡ self.old ++ slot ∷ []) }
        ensures err { OnErr result (self.new ≡ self.old) }
    {
        let len = self.len.checked_add(1).ok_or(AllocError)?;
        self.chunks.push(slot, CHUNK_LEN)?;
        self.len = len;
        Ok(())
    }

    /// Puts a row in at a place: behind all others at once where a look at the last one shows that it belongs there. After a
    /// refusal all is as it was.
    pub(crate) fn put(&mut self, place: &SearchKey<'_>, slot: GroupRow) -> Result<(), AllocError>
        requires known { AreKnown place.now.handles.now self.old }
        requires parted { IsParted (is_before place.now.handles.now place.now.table.now place.now.at place.now.key) self.old }
        ensures ok { OnOk result (self.new ≡ slots_with place.now.handles.now place.now.table.now place.now.at place.now.key slot self.old) }
        ensures err { OnErr result (self.new ≡ self.old) }
    {
        if self.len == 0 {
            return self.push(slot);
        }
        if let Some(last) = self.last() {
            if place.is_after(last) {
                return self.push(slot);
            }
        }
        let len = self.len.checked_add(1).ok_or(AllocError)?;
        let spot = spot_before(&self.chunks, place);
        self.chunks.insert(spot, slot, CHUNK_LEN)?;
        self.len = len;
        Ok(())
    }

    /// Takes out the first row that does not stand before a place, if there is one, and returns its handle.
    pub(crate) fn take(&mut self, place: &SearchKey<'_>) -> Option<Handle>
        requires known { AreKnown place.now.handles.now self.old }
        requires parted { IsParted (is_before place.now.handles.now place.now.table.now place.now.at place.now.key) self.old }
        ensures rest { self.new ≡ slots_without place.now.handles.now place.now.table.now place.now.at place.now.key self.old }
        ensures handle { result ≡ handle_from place.now.handles.now place.now.table.now place.now.at place.now.key self.old }
    {
        let end = spot_before(&self.chunks, place);
        let spot = self.chunks.next_item(end)?;
        let row = self.chunks.remove(spot);
        self.len -= 1;
        Some(row.handle as usize)
    }
}
