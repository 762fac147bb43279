//! What the callers have kept, printed after the updates.
ghost use Rattle.std.specs.Io.KnownBytes.{append_known};
ghost use Rattle.std.specs.List.{AllByRecursion};
ghost use Rattle.std.specs.Prelude.{◌≡◌, ◌+◌, ◌^◌, ◌<◌, ◌≤◌, IsErrOf, OnErr, OnOk, ℕ, length, map};
ghost use Rattle.snapshot_store.specs.Lines.{count};
ghost use Rattle.tick_io.specs.Counts.{Rose};
ghost use Rattle.tick_io.specs.Written.{AppendsPrefix};
ghost use Rattle.tick_laws.specs.Reached.{IsReached};
ghost use Rattle.tick_model.specs.LawfulRuns.{IsLawfulRun};
ghost use Rattle.tick_model.specs.Texts.{calls_records, callers_records, records_text, snapshot_records};
ghost use Rattle.tick_model.specs.Words.{line};
ghost use Rattle.replay.specs.Printed.{published_of};
ghost use Rattle.replay.specs.Snapshots.{AreLast, AreTaken, all_steps, steps_of, table_number};

use crate::printed::{PrintedNode, published_nodes};
use crate::readers::KeptSnapshot;
use std::alloc::Global;
use tick_io::Sink;
use tick_model::feed::Run;
use tick_model::items::Items;
use update_text::{WriteFault, write_snapshot};

/// Writes the snapshot of a caller's call.
fn write_call<S: Sink>(
    alloc: Global,
    out: &mut S,
    run: &Run,
    published: &[PrintedNode],
    caller: u32,
    call: u32,
    kept: &KeptSnapshot,
) -> Result<(), WriteFault>
    requires lawful { IsLawfulRun run.now }
    requires published { published.now ≡ map (published_of run.now) run.now.plan.published }
    requires some { 0 < length published.now }
    requires few { caller + call < 2 ^ 32 }
    requires reached { IsReached run.now kept.now.taken.step }
    requires words { kept.now.words ≡ line run.now kept.now.taken.step (table_number run.now caller call) }
    ensures whole { OnOk result (S.bytes out.new ≡ append_known (S.bytes out.old) (records_text (snapshot_records run.now caller call kept.now.taken.step))) }
    ensures err { OnErr result (AppendsPrefix (S.bytes out.old) (S.bytes out.new) (records_text (snapshot_records run.now caller call kept.now.taken.step))) }
    ensures failed { IsErrOf result WriteFault.Failed → Rose (S.failures out.old) (S.failures out.new) }
    ensures never_falls { S.failures out.old ≤ S.failures out.new }
    ensures steady { OnOk result (S.failures out.new ≡ S.failures out.old) }
{
    let number = (caller + call) as usize % published.len();
    let shown = &published[number].shown;
    write_snapshot(
        alloc,
        out,
        caller,
        call,
        kept.taken.step,
        shown,
        &run.texts,
        kept.words.as_slice(),
    )
}

/// Writes the snapshots of a caller, in order of its calls.
fn write_caller<S: Sink>(
    alloc: Global,
    out: &mut S,
    run: &Run,
    published: &[PrintedNode],
    caller: u32,
    kept: &[KeptSnapshot],
) -> Result<(), WriteFault>
    requires lawful { IsLawfulRun run.now }
    requires published { published.now ≡ map (published_of run.now) run.now.plan.published }
    requires some { 0 < length published.now }
    requires few { caller < 16 }
    requires few_calls { length kept.now ≤ 65 }
    requires taken { AreTaken run.now caller 0 kept.now }
    requires reached { AllByRecursion (λ snapshot. IsReached run.now snapshot.taken.step) kept.now }
    ensures whole { OnOk result (S.bytes out.new ≡ append_known (S.bytes out.old) (records_text (calls_records run.now caller 0 (steps_of kept.now)))) }
    ensures err { OnErr result (AppendsPrefix (S.bytes out.old) (S.bytes out.new) (records_text (calls_records run.now caller 0 (steps_of kept.now)))) }
    ensures failed { IsErrOf result WriteFault.Failed → Rose (S.failures out.old) (S.failures out.new) }
    ensures never_falls { S.failures out.old ≤ S.failures out.new }
    ensures steady { OnOk result (S.failures out.new ≡ S.failures out.old) }
{
    for (call, snapshot) in kept.iter().enumerate() {
        write_call(alloc, out, run, published, caller, call as u32, snapshot)?;
    }
    Ok(())
}

/// Writes what the callers have kept, in order of the callers.
fn write_callers<S: Sink>(
    alloc: Global,
    out: &mut S,
    run: &Run,
    published: &[PrintedNode],
    all: &[Items<KeptSnapshot>],
) -> Result<(), WriteFault>
    requires lawful { IsLawfulRun run.now }
    requires published { published.now ≡ map (published_of run.now) run.now.plan.published }
    requires some { 0 < length all.now → 0 < length published.now }
    requires few { length all.now ≤ 16 }
    requires last { (snaps : ℕ) × (last : ℕ) × (snaps ≤ 64) × AreLast run.now snaps last 0 all.now }
    ensures whole { OnOk result (S.bytes out.new ≡ append_known (S.bytes out.old) (records_text (callers_records run.now 0 (all_steps all.now)))) }
    ensures err { OnErr result (AppendsPrefix (S.bytes out.old) (S.bytes out.new) (records_text (callers_records run.now 0 (all_steps all.now)))) }
    ensures failed { IsErrOf result WriteFault.Failed → Rose (S.failures out.old) (S.failures out.new) }
    ensures never_falls { S.failures out.old ≤ S.failures out.new }
    ensures steady { OnOk result (S.failures out.new ≡ S.failures out.old) }
{
    for (caller, kept) in all.iter().enumerate() {
        write_caller(alloc, out, run, published, caller as u32, kept.as_slice())?;
    }
    Ok(())
}

/// Writes what the callers have kept, by caller and then by call.
pub(crate) fn write_snapshots<S: Sink>(
    alloc: Global,
    out: &mut S,
    run: &Run,
    all: &[Items<KeptSnapshot>],
) -> Result<(), WriteFault>
    requires lawful { IsLawfulRun run.now }
    requires some { 0 < length all.now → 0 < count run.now }
    requires few { length all.now ≤ 16 }
    requires last { (snaps : ℕ) × (last : ℕ) × (snaps ≤ 64) × AreLast run.now snaps last 0 all.now }
    ensures whole { OnOk result (S.bytes out.new ≡ append_known (S.bytes out.old) (records_text (callers_records run.now 0 (all_steps all.now)))) }
    ensures err { OnErr result (AppendsPrefix (S.bytes out.old) (S.bytes out.new) (records_text (callers_records run.now 0 (all_steps all.now)))) }
    ensures failed { IsErrOf result WriteFault.Failed → Rose (S.failures out.old) (S.failures out.new) }
    ensures never_falls { S.failures out.old ≤ S.failures out.new }
    ensures steady { OnOk result (S.failures out.new ≡ S.failures out.old) }
{
    let published = published_nodes(alloc, run)?;
    write_callers(alloc, out, run, published.as_slice(), all)
}
