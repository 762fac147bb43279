//! The order of a sort.
//!
//! Entries are kept whole, since `get` shows them: each has its sort cells in a list of its own.
ghost use Rattle.std.specs.Prelude.{◌≡◌, ◌<◌, ◌≤◌, [], None, true, false, drop, length, insert, map, option_copied, remove, slice_get, take, IfNone, IfOk, IfSome, OnErr, OnOk, OnSome};
ghost use Rattle.std.specs.List.{AllByRecursion};
ghost use Rattle.std.specs.Option.{option_map_or};
ghost use Rattle.chunk_list.specs.Chunked.{IsReplaced};
ghost use Rattle.shift_data.specs.Moves.{IsLawful};
ghost use Rattle.sort_op.specs.Entries.{IsOrder, IsWhole, comes_before, count_before, entries, found, is_same, place_of, rekeyed, rising_keys};

use crate::entry::{Entry, Rekey};
use chunk_list::ChunkList;
use shift_data::ShiftData;
use std::alloc::{AllocError, Global};
use std::cmp::Ordering;
use std::marker::Model;
use tick_model::items::Items;
use tick_model::plan::SortBy;

/// Entries in order by the sort columns, each ascending or descending, and then by key. A contract sees the sort columns and
/// the chunks, lists of 1 to 512 entries that rise from the first entry of the first chunk to the last one of the last. A
/// position is a place among all entries.
#[derive(Drop)]
pub struct SortOrder {
    by: Items<SortBy>,
    entries: ChunkList<Entry>,
}

impl Model for SortOrder {
    ghost use Rattle.sort_op.specs.Entries.{IsOrder, Order};

    ghost Value = { Order };

    ghost view = { λ order. record { by = order.by; chunks = order.entries } };

    ghost invariant = { λ order. IsOrder (record { by = order.by; chunks = order.entries }) };
}

impl SortOrder {
    /// An order by these columns that has no entries.
    pub fn new(alloc: Global, by: Items<SortBy>) -> SortOrder
        ensures by { result.by ≡ by }
        ensures chunks { result.chunks ≡ [] }
    {
        SortOrder {
            by,
            entries: ChunkList::new(alloc),
        }
    }

    /// The columns that the entries are sorted by.
    pub fn by(&self) -> &[SortBy]
        ensures by { result.now ≡ self.now.by }
        ensures order { IsOrder self.now }
    {
        self.by.as_slice()
    }

    /// How many entries there are.
    pub fn len(&self) -> u64
        ensures count { result ≡ length (entries self.now) }
        ensures order { IsOrder self.now }
    {
        self.entries.len() as u64
    }

    /// How many entries stand before one, by two binary searches.
    fn count_before(&self, entry: &Entry) -> usize
        ensures within { result ≤ length (entries self.now) }
        ensures before { AllByRecursion (λ other. comes_before self.now.by other entry.now ≡ true) (take result (entries self.now)) }
        ensures others { AllByRecursion (λ other. comes_before self.now.by other entry.now ≡ false) (drop result (entries self.now)) }
        ensures order { IsOrder self.now }
    {
        let by = self.by.as_slice();
        self.entries
            .partition_point(|other| other.comes_before(entry, by))
    }

    /// Whether the entry at a position is this one.
    fn holds(&self, position: usize, entry: &Entry) -> bool
        requires { IsWhole self.now.by entry.now }
        ensures { result ≡ option_map_or (λ other. is_same other entry.now) (slice_get (entries self.now) position) false }
    {
        match self.entries.get(position) {
            Some(other) => other.compare(entry, self.by.as_slice()) == Ordering::Equal,
            None => false,
        }
    }

    /// Puts an entry in that is not there, and gives its position. One chunk is replaced by one or by two, or the entry is
    /// the first chunk. After a refusal, which comes where memory runs out, all is as it was.
    pub fn insert(&mut self, entry: Entry) -> Result<u64, AllocError>
        requires whole { IsWhole self.old.by entry }
        requires absent { place_of entry (entries self.old) ≡ None }
        ensures position { IfOk result (λ position. position ≡ count_before self.old.by entry (entries self.old)) }
        ensures entries { IfOk result (λ position. entries self.new ≡ insert (entries self.old) position entry) }
        ensures chunks { OnOk result (IsReplaced 1 2 self.old.chunks self.new.chunks) }
        ensures by { self.new.by ≡ self.old.by }
        ensures refused { OnErr result (self.new ≡ self.old) }
        ensures order { IsOrder self.new }
    {
        let position = self.count_before(&entry);
        self.entries.insert(position, entry)?;
        Ok(position as u64)
    }

    /// Takes an entry out, and gives the position that it had, or None where it is not there. One chunk is replaced by one or
    /// by none. It takes no memory.
    pub fn remove(&mut self, entry: &Entry) -> Option<u64>
        requires whole { IsWhole self.old.by entry.now }
        ensures position { result ≡ place_of entry.now (entries self.old) }
        ensures entries { IfSome result (λ position. entries self.new ≡ remove (entries self.old) position) }
        ensures chunks { OnSome result (IsReplaced 0 1 self.old.chunks self.new.chunks) }
        ensures by { self.new.by ≡ self.old.by }
        ensures absent { IfNone result (self.new ≡ self.old) }
        ensures order { IsOrder self.new }
    {
        let position = self.count_before(entry);
        if !self.holds(position, entry) {
            return None;
        }
        let _ = self.entries.remove(position);
        Some(position as u64)
    }

    /// The position of an entry, or else, as an error, how many stand before it. It is found by two binary searches.
    pub fn position(&self, entry: &Entry) -> Result<u64, u64>
        requires whole { IsWhole self.now.by entry.now }
        ensures position { result ≡ found self.now.by entry.now (entries self.now) }
        ensures order { IsOrder self.now }
    {
        let position = self.count_before(entry);
        if self.holds(position, entry) {
            Ok(position as u64)
        } else {
            Err(position as u64)
        }
    }

    /// The entry at a position, or None past the end.
    pub fn get(&self, position: u64) -> Option<&Entry>
        ensures entry { option_copied result ≡ slice_get (entries self.now) position }
        ensures order { IsOrder self.now }
    {
        self.entries.get(position as usize)
    }

    /// Puts the key to which each row moves in the place of its key, where the moved keys rise as the keys do. It adds to
    /// each key, reads no cell and takes no memory, and does nothing where no row moves.
    pub fn rekey(&mut self, shifts: &ShiftData)
        requires { IsLawful shifts.now (rising_keys (entries self.old)) }
        ensures chunks { self.new.chunks ≡ map (map (rekeyed shifts.now)) self.old.chunks }
        ensures by { self.new.by ≡ self.old.by }
        ensures order { IsOrder self.new }
    {
        let _ = &self.by;
        if shifts.ranges().is_empty() {
            return;
        }
        self.entries.change_all(&Rekey { shifts });
    }
}
