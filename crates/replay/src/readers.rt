//! The callers, and the snapshots that they keep.
ghost use Rattle.std.specs.Prelude.{◌≡◌, ◌+◌, ◌^◌, ◌<◌, ◌≤◌, IfOk, OnOk, [], slice_index};
ghost use Rattle.snapshot_store.specs.Lines.{count};
ghost use Rattle.snapshot_store.specs.Looks.{latest};
ghost use Rattle.snapshot_store.specs.Models.{IsOf};
ghost use Rattle.replay.specs.Snapshots.{IsReader, steps_of};

use snapshot_store::{Caller, Store, Taken};
use std::alloc::{AllocError, Global};
use std::sync::Wait;
use tick_model::items::Items;

/// A snapshot that is kept: how it was taken, and the words of the table.
#[derive(Drop)]
pub struct KeptSnapshot {
    pub taken: Taken,
    pub(crate) words: Items<u64>,
}

/// A caller with the snapshots that it has kept.
#[derive(Drop)]
pub(crate) struct Reader {
    pub(crate) caller: Caller,
    pub(crate) kept: Items<KeptSnapshot>,
    /// Whether memory ran out before it had kept all.
    pub(crate) short: bool,
}

/// The words of a snapshot, copied.
fn copied(alloc: Global, words: &[u64]) -> Result<Items<u64>, AllocError>
    ensures { IfOk result (λ copy. copy ≡ words.now) }
{
    let mut copy = Vec::with_capacity(alloc, words.len())?;
    copy.extend_from_slice(words)?;
    Ok(Items::of(copy))
}

impl Reader {
    /// A caller that has kept nothing yet.
    pub(crate) fn new(alloc: Global, caller: Caller) -> Reader
        ensures caller { result.caller ≡ caller }
        ensures nothing { result.kept ≡ [] }
    {
        Reader {
            caller,
            kept: Items::new(alloc),
            short: false,
        }
    }

    /// Takes the snapshot of a call, and keeps it. It is not older than what the caller had seen.
    pub(crate) fn take<R: Wait>(
        &mut self,
        rt: &R,
        alloc: Global,
        store: &Store,
        published: u32,
        attempts: u32,
        number: u32,
        call: u32,
    ) -> Result<(), AllocError>
        requires reader { IsReader store.now attempts number call self.old }
        requires published { published ≡ count store.now.run }
        requires some { 0 < published }
        requires few { number + call < 2 ^ 32 }
        ensures own { IsOf store.now self.new.caller.table self.new.caller.run }
        ensures more { OnOk result (IsReader store.now attempts number (call + 1) self.new) }
        ensures not_older { OnOk result (latest self.old.caller.looks ≤ slice_index (steps_of self.new.kept) call) }
    {
        let table = (number + call) % published;
        let taken = store.snapshot(rt, &mut self.caller, table, attempts);
        let words = copied(alloc, self.caller.words())?;
        self.kept.push(KeptSnapshot { taken, words })?;
        Ok(())
    }

    /// Takes the snapshots of so many calls, one after the other.
    pub(crate) fn take_all<R: Wait>(
        &mut self,
        rt: &R,
        alloc: Global,
        store: &Store,
        published: u32,
        attempts: u32,
        number: u32,
        calls: u32,
    ) -> Result<(), AllocError>
        requires reader { IsReader store.now attempts number 0 self.old }
        requires published { published ≡ count store.now.run }
        requires some { 0 < published }
        requires few { number + calls < 2 ^ 32 }
        ensures own { IsOf store.now self.new.caller.table self.new.caller.run }
        ensures all { OnOk result (IsReader store.now attempts number calls self.new) }
    {
        for call in 0..calls {
            self.take(rt, alloc, store, published, attempts, number, call)?;
        }
        Ok(())
    }
}
