//! The steps of a run, one after the other, to its end.
ghost use Rattle.std.specs.Io.KnownBytes.{append_known};
ghost use Rattle.std.specs.Prelude.{◌≡◌, ◌+◌, ◌≤◌, IfErr, IfOk, IsErrOf, OnErr, OnOk, length};
ghost use Rattle.snapshot_store.specs.Models.{IsOf};
ghost use Rattle.tick_io.specs.Counts.{Rose};
ghost use Rattle.tick_io.specs.Written.{AppendsPrefix};
ghost use Rattle.tick_model.specs.LawfulRuns.{IsLawfulRun};
ghost use Rattle.replay.specs.Outcomes.{IsEnd, IsTold, OnTold};
ghost use Rattle.replay.specs.Standing.{IsAt, IsLast, IsWriterAt};
ghost use Rattle.replay.specs.Steps.{HasRun};
ghost use Rattle.replay.specs.ToCome.{text_from};

use crate::Outcome;
use crate::hands::Hands;
use crate::progress::PrintedRun;
use snapshot_store::{Store, Writer};
use std::alloc::{AllocError, Global};
use std::sync::Wait;
use std::thread::Threads;
use tick_io::{Gate, Sink};
use tick_model::feed::Run;

/// Brings a run that was opened to its last step, publishing and printing each step.
fn bring_to_end<R: Threads + Wait + Sync, S: Sink, G: Gate>(
    rt: &R,
    alloc: Global,
    run: &Run,
    hands: &mut Hands,
    gate: &G,
    store: &Store,
    progress: PrintedRun,
    writer: &mut Writer,
    out: &mut S,
) -> Result<PrintedRun, Outcome>
    requires lawful { IsLawfulRun run.now }
    requires store { store.now.run ≡ run.now }
    requires stands { IsAt run.now 0 progress }
    requires writer { IsWriterAt store.now 0 writer.old }
    ensures stands { IfOk result (IsAt run.now (length run.now.batches)) }
    ensures writer { OnOk result (writer.new.step ≡ length run.now.batches) }
    ensures own { IsOf store.now writer.new.table writer.new.run }
    ensures whole { OnOk result (S.bytes out.new ≡ append_known (S.bytes out.old) (text_from run.now 1)) }
    ensures end { IfErr result (λ outcome. IsTold outcome → IsEnd run.now outcome) }
    ensures last { IfErr result (λ outcome. IsTold outcome → IsLast run.now writer.new.step) }
    ensures ended { IfErr result (λ outcome. IsTold outcome → S.bytes out.new ≡ append_known (S.bytes out.old) (text_from run.now 1)) }
    ensures prefix { OnErr result (AppendsPrefix (S.bytes out.old) (S.bytes out.new) (text_from run.now 1)) }
    ensures failed { IsErrOf result Outcome.Write → Rose (S.failures out.old) (S.failures out.new) }
    ensures never_falls { S.failures out.old ≤ S.failures out.new }
    ensures steady { OnTold result (S.failures out.new ≡ S.failures out.old) }
{
    let mut progress = progress;
    for _step in 0..run.batches.len() {
        progress = progress.advance(rt, alloc, run, hands, gate, store, writer, out)?;
    }
    Ok(progress)
}

/// The work of a feed: what the run ends with, whose last good step the writer has then completed.
pub(crate) fn run_steps<R: Threads + Wait + Sync, S: Sink, G: Gate>(
    rt: &R,
    alloc: Global,
    run: &Run,
    workers: u32,
    gate: &G,
    store: &Store,
    progress: PrintedRun,
    writer: &mut Writer,
    out: &mut S,
) -> Outcome
    requires lawful { IsLawfulRun run.now }
    requires some_workers { 1 ≤ workers }
    requires few_workers { workers ≤ 64 }
    requires store { store.now.run ≡ run.now }
    requires stands { IsAt run.now 0 progress }
    requires writer { IsWriterAt store.now 0 writer.old }
    ensures own { IsOf store.now writer.new.table writer.new.run }
    ensures ran { HasRun run.now result writer.new.step (S.bytes out.old) (S.bytes out.new) (S.failures out.old) (S.failures out.new) }
{
    let mut hands = match Hands::new(alloc, workers) {
        Ok(hands) => hands,
        Err(AllocError) => return Outcome::Memory,
    };
    let progress = match bring_to_end(
        rt, alloc, run, &mut hands, gate, store, progress, writer, out,
    ) {
        Ok(progress) => progress,
        Err(outcome) => return outcome,
    };
    match progress.done(alloc, run) {
        Ok(done) => done,
        Err(AllocError) => Outcome::Memory,
    }
}
