//! The callers beside the feed, each in a thread of its own.
ghost use Rattle.std.specs.Prelude.{◌≡◌, ◌^◌, ◌<◌, ◌≤◌, ◌⊎◌, length};
ghost use Rattle.std.specs.Thread.{IsSync};
ghost use Rattle.snapshot_store.specs.Lines.{count};
ghost use Rattle.snapshot_store.specs.Models.{IsOf};
ghost use Rattle.tick_model.specs.LawfulRuns.{IsLawfulRun};
ghost use Rattle.replay.specs.Snapshots.{EachReader, HasRead, IsReader};
ghost use Rattle.replay.specs.Standing.{IsAt, IsReady, IsWriterAt};
ghost use Rattle.replay.specs.Steps.{HasRun};

use crate::progress::PrintedRun;
use crate::readers::Reader;
use crate::steps::run_steps;
use crate::{Knobs, Outcome};
use snapshot_store::{Store, Writer};
use std::alloc::Global;
use std::sync::Wait;
use std::thread::{Threads, for_each_mut, join_mut};
use tick_io::{Gate, Sink};
use tick_model::feed::Run;

/// The gate's number of caller 0. Numbers below it are those of nodes.
const FIRST_CALLER: u32 = 256;

/// There are no more callers than these, so that each has a thread of its own.
const MOST_CALLERS: usize = 16;

/// The calls of one caller beside the feed, behind the gate.
fn read<R: Wait, G: Gate>(
    rt: &R,
    alloc: Global,
    knobs: &Knobs,
    gate: &G,
    store: &Store,
    published: u32,
    number: u32,
    reader: &mut Reader,
)
    requires reader { IsReader store.now knobs.now.attempts number 0 reader.old }
    requires published { published ≡ count store.now.run }
    requires some { 0 < published }
    requires few { number < 16 }
    requires few_snaps { knobs.now.snaps ≤ 64 }
    ensures { HasRead store.now knobs.now.attempts number knobs.now.snaps reader.new }
{
    gate.enter(FIRST_CALLER + number);
    let all = reader.take_all(
        rt,
        alloc,
        store,
        published,
        knobs.attempts,
        number,
        knobs.snaps,
    );
    reader.short = all.is_err();
    gate.leave(FIRST_CALLER + number);
}

/// The calls of all callers beside the feed.
fn read_all<R: Threads + Wait + Sync, G: Gate>(
    rt: &R,
    alloc: Global,
    knobs: &Knobs,
    gate: &G,
    store: &Store,
    published: u32,
    readers: &mut [Reader],
)
    requires readers { EachReader (λ number. IsReader store.now knobs.now.attempts number 0) readers.old }
    requires published { published ≡ count store.now.run }
    requires some { 0 < length readers.old → 0 < published }
    requires few { length readers.old ≤ 16 }
    requires few_snaps { knobs.now.snaps ≤ 64 }
    ensures { EachReader (λ number. HasRead store.now knobs.now.attempts number knobs.now.snaps) readers.new }
{
    let each = |number: usize, reader: &mut Reader|
        requires { IsSync R.row × IsSync G.row × IsReader store.now knobs.now.attempts number 0 reader.now × (published ≡ count store.now.run) × (0 < published) × (number < 16) × (knobs.now.snaps ≤ 64) }
        ensures { HasRead store.entry.now knobs.entry.now.attempts number knobs.entry.now.snaps reader.exit.now }
    {
        read(
            rt,
            alloc,
            knobs,
            gate,
            store,
            published,
            number as u32,
            reader,
        )
    };
    for_each_mut(rt, readers, MOST_CALLERS, &each);
}

/// The work of the feed, once it is its turn.
fn feed<R: Threads + Wait + Sync, S: Sink, G: Gate>(
    rt: &R,
    alloc: Global,
    run: &Run,
    workers: u32,
    gate: &G,
    store: &Store,
    progress: &mut Option<PrintedRun>,
    writer: &mut Writer,
    out: &mut S,
) -> Outcome
    requires lawful { IsLawfulRun run.now }
    requires some_workers { 1 ≤ workers }
    requires few_workers { workers ≤ 64 }
    requires store { store.now.run ≡ run.now }
    requires ready { IsReady run.now progress.old }
    requires writer { IsWriterAt store.now 0 writer.old }
    ensures own { IsOf store.now writer.new.table writer.new.run }
    ensures ran { HasRun run.now result writer.new.step (S.bytes out.old) (S.bytes out.new) (S.failures out.old) (S.failures out.new) }
{
    match progress.take() {
        Some(progress) => { run_steps(rt, alloc, run, workers, gate, store, progress, writer, out) }
        None => unreachable!(),
    }
}

/// Brings a run to its end, with the callers beside it.
pub(crate) fn run_beside<R: Threads + Wait + Sync, S: Sink, G: Gate>(
    rt: &R,
    alloc: Global,
    run: &Run,
    knobs: &Knobs,
    gate: &G,
    store: &Store,
    progress: PrintedRun,
    readers: &mut [Reader],
    writer: &mut Writer,
    out: &mut S,
) -> Outcome
    requires lawful { IsLawfulRun run.now }
    requires some_workers { 1 ≤ knobs.now.workers }
    requires few_workers { knobs.now.workers ≤ 64 }
    requires few_snaps { knobs.now.snaps ≤ 64 }
    requires store { store.now.run ≡ run.now }
    requires stands { IsAt run.now 0 progress }
    requires writer { IsWriterAt store.now 0 writer.old }
    requires readers { EachReader (λ number. IsReader store.now knobs.now.attempts number 0) readers.old }
    requires some { 0 < length readers.old → 0 < count run.now }
    requires few { length readers.old ≤ 16 }
    ensures own { IsOf store.now writer.new.table writer.new.run }
    ensures ran { HasRun run.now result writer.new.step (S.bytes out.old) (S.bytes out.new) (S.failures out.old) (S.failures out.new) }
    ensures read { EachReader (λ number. HasRead store.now knobs.now.attempts number knobs.now.snaps) readers.new }
{
    let published = run.plan.published.len() as u32;
    let workers = knobs.workers;
    let mut progress = Some(progress);
    let mut calls = ||
        requires { IsSync R.row × IsSync G.row × EachReader (λ number. IsReader store.now knobs.now.attempts number 0) readers.now × (published ≡ count store.now.run) × (0 < length readers.now → 0 < published) × (length readers.now ≤ 16) × (knobs.now.snaps ≤ 64) }
        ensures { EachReader (λ number. HasRead store.entry.now knobs.entry.now.attempts number knobs.entry.now.snaps) readers.exit.now }
    { read_all(rt, alloc, knobs, gate, store, published, readers) };
    let mut steps = || -> Outcome
        requires { IsSync R.row × IsSync G.row × IsLawfulRun run.now × (1 ≤ workers) × (workers ≤ 64) × (store.now.run ≡ run.now) × IsReady run.now progress × IsWriterAt store.now 0 writer.now }
        ensures { IsOf store.entry.now writer.exit.now.table writer.exit.now.run × HasRun run.entry.now result writer.exit.now.step (S.bytes out.entry.now) (S.bytes out.exit.now) (S.failures out.entry.now) (S.failures out.exit.now) }
    {
        feed(
            rt,
            alloc,
            run,
            workers,
            gate,
            store,
            &mut progress,
            writer,
            out,
        )
    };
    let ((), outcome) = join_mut(rt, &mut calls, &mut steps);
    outcome
}
