//! The start of a store: its words, the writer and the callers.

ghost use Rattle.std.specs.Prelude.{◌≡◌, ℕ, ◌+◌, ◌<◌, ◌≤◌, ◌⊎◌, All, IfOk, Some, length, map, slice_index, vec_capacity, vec_len};
ghost use Rattle.std.specs.Arc.{arc_value};
ghost use Rattle.tick_model.specs.LawfulRuns.{IsLawfulRun};
ghost use Rattle.tick_table.specs.Ticking.{Ticking};
ghost use Rattle.snapshot_store.specs.Lines.{count, size};
ghost use Rattle.snapshot_store.specs.Models.{IsNewCaller, IsOf};
ghost use Rattle.snapshot_store.specs.Opening.{AreFirst, AreOpening};

use crate::board::{Board, BoardSeat};
use crate::callers::Caller;
use crate::layout::Layout;
use crate::plays::StoreSplit;
use crate::rows::copy_table;
use crate::store::Store;
use crate::writers::{Phase, Writer};
use atomic_table::Table;
use std::alloc::{AllocError, Global};
use std::snapshot::Snapshot;
use std::sync::atomic::AtomicU64;
use tick_model::feed::Run;
use tick_model::items::Items;
use tick_table::Shared;

// Writes a table's words from `start` on.
fn fill(words: &mut [u64], start: usize, table: &[u64])
    requires { start + length table.now ≤ length words.old }
    ensures inside { (i : ℕ) → i < length table.now → slice_index words.new (start + i) ≡ slice_index table.now i }
    ensures outside { (k : ℕ) → (k < start) ⊎ (start + length table.now ≤ k) → slice_index words.new k ≡ slice_index words.old k }
{
    for i in 0..table.len() {
        words[start + i] = table[i];
    }
}

// The words with which a store begins. The buffer has room for each table.
fn opening(
    alloc: Global,
    run: &Run,
    layout: &Layout,
    tables: &[Shared],
    buffer: &mut Vec<u64>,
) -> Result<Vec<u64>, AllocError>
    requires run { IsLawfulRun run.now }
    requires layout { layout.now ≡ run.now.plan.published }
    requires tables { AreFirst run.now (map (λ shared. (arc_value {X = Ticking} shared).new) tables.now) }
    requires room { (p : ℕ) → p < count run.now → size run.now p ≤ vec_capacity buffer.old }
    ensures words { IfOk result (λ words. AreOpening run.now words.items) }
    ensures room { vec_capacity buffer.new ≡ vec_capacity buffer.old }
{
    let _ = run;
    let mut words = Vec::from_elem(alloc, 0u64, 2 + 2 * layout.bank())?;
    words[0] = 1;
    for p in 0..tables.len() {
        copy_table(&tables[p], buffer);
        let start = 2 + layout.start(p as u32);
        fill(words.as_mut_slice(), start, buffer.as_slice());
    }
    Ok(words)
}

impl Store {
    /// The store of a lawful run whose clock is idle after step 0, with its writer and its callers.
    ///
    /// The layout is that of the run's published tables, and the tables are these at step 0, in order of their numbers, each
    /// within its limit. The buffers of the writer and of the callers have room for the largest table.
    pub fn start(
        alloc: Global,
        run: &Run,
        layout: Layout,
        tables: &[Shared],
        callers: u32,
    ) -> Result<(Store, Writer, Items<Caller>), AllocError>
        requires run { IsLawfulRun run.now }
        requires layout { layout ≡ run.now.plan.published }
        requires tables { AreFirst run.now (map (λ shared. (arc_value {X = Ticking} shared).new) tables.now) }
        ensures store { IfOk result (λ r. r.0.run ≡ run.now) }
        ensures writer { IfOk result (λ r. IsOf r.0 r.1.table r.1.run × (r.1.step ≡ 0) × (r.1.phase ≡ Phase.Idle)) }
        ensures callers { IfOk result (λ r. (length r.2 ≡ callers) × All (IsNewCaller r.0) r.2) }
    {
        let mut words = Vec::with_capacity(alloc, layout.largest())?;
        let first = opening(alloc, run, &layout, tables, &mut words)?;
        let about = Snapshot::of(run);
        let (board, place): (Board, BoardSeat) = Table::of_words(alloc, first.as_slice(), &about)?;
        let store = Store {
            board,
            layout,
            sleepers: AtomicU64::new(0),
        };
        let mut writer = Writer {
            place,
            step: 0,
            phase: Phase::Idle,
            words,
        };
        let all = store.callers(alloc, &mut writer, callers)?;
        Ok((store, writer, Items::of(all)))
    }

    // A caller that has not looked at the clock.
    fn caller(&self, alloc: Global, writer: &mut Writer) -> Result<Caller, AllocError>
        requires own { IsOf self.now writer.old.table writer.old.run }
        ensures same { writer.new ≡ writer.old }
        ensures caller { IfOk result (IsNewCaller self.now) }
    {
        let words = Vec::with_capacity(alloc, self.layout.largest())?;
        let place = self
            .board
            .shared
            .split_seat::<StoreSplit>(&mut writer.place);
        Ok(Caller {
            place,
            words,
            seen: 1,
        })
    }

    fn callers(
        &self,
        alloc: Global,
        writer: &mut Writer,
        count: u32,
    ) -> Result<Vec<Caller>, AllocError>
        requires own { IsOf self.now writer.old.table writer.old.run }
        ensures same { writer.new ≡ writer.old }
        ensures callers { IfOk result (λ callers. (vec_len callers ≡ count) × All (IsNewCaller self.now) callers.items) }
    {
        let mut all = Vec::with_capacity(alloc, count as usize)?;
        for _ in 0..count {
            all.push_reserved(self.caller(alloc, writer)?);
        }
        Ok(all)
    }
}
