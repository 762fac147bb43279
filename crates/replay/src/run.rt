//! The run itself.
ghost use Rattle.std.specs.Io.KnownBytes.{append_known};
ghost use Rattle.std.specs.Prelude.{◌≡◌, ◌≤◌, ◌<◌, length};
ghost use Rattle.snapshot_store.specs.Lines.{count};
ghost use Rattle.snapshot_store.specs.Models.{IsOf};
ghost use Rattle.tick_io.specs.Counts.{Rose};
ghost use Rattle.tick_model.specs.LawfulRuns.{IsLawfulRun};
ghost use Rattle.tick_model.specs.Spoiled.{good};
ghost use Rattle.tick_model.specs.Texts.{snapshots_text};
ghost use Rattle.replay.specs.Kept.{kept_words as words_kept, most_words};
ghost use Rattle.replay.specs.Opened.{IsOpened};
ghost use Rattle.replay.specs.Outcomes.{IsComplete, IsEnd, IsTold, IsVerdict, WritesPrefix, WritesWhole, last_written, text_until};
ghost use Rattle.replay.specs.Snapshots.{AreTaking, EachReader, HasRead, all_steps, callers_of};
ghost use Rattle.replay.specs.Standing.{IsLast};
ghost use Rattle.replay.specs.Wholes.{AddsPrefix, AddsWhole, HasEndedFrom, rest_from};

use crate::beside::run_beside;
use crate::kept::{MOST_WORDS, kept_words};
use crate::last_calls::last_snapshots;
use crate::opening::{Opened, Publication, open_run};
use crate::snapshots::write_snapshots;
use crate::{Knobs, Outcome, Ran};
use std::alloc::{AllocError, Global};
use std::sync::Wait;
use std::thread::Threads;
use tick_io::{Gate, Sink};
use tick_model::feed::Run;
use tick_model::items::Items;

/// Ends a run: each caller makes its last call, and what the callers have kept is written.
fn ended<R: Wait, S: Sink>(
    rt: &R,
    alloc: Global,
    run: &Run,
    knobs: &Knobs,
    publication: Publication,
    outcome: Outcome,
    out: &mut S,
) -> Ran
    requires lawful { IsLawfulRun run.now }
    requires few_callers { knobs.now.callers ≤ 16 }
    requires few_snaps { knobs.now.snaps ≤ 64 }
    requires store { publication.store.run ≡ run.now }
    requires own { IsOf publication.store publication.writer.table publication.writer.run }
    requires count { length publication.readers.items ≡ callers_of run.now.plan.published knobs.now.callers }
    requires read { EachReader (λ number. HasRead publication.store knobs.now.attempts number knobs.now.snaps) publication.readers.items }
    requires told { IsTold outcome }
    requires last { IsLast run.now publication.writer.step }
    ensures same { IsTold result.outcome → result.outcome ≡ outcome }
    ensures whole { IsTold result.outcome → AddsWhole run.now knobs.now publication.writer.step (S.bytes out.old) (S.bytes out.new) }
    ensures prefix { AddsPrefix run.now knobs.now publication.writer.step (S.bytes out.old) (S.bytes out.new) }
    ensures kept { IsTold result.outcome → S.bytes out.new ≡ append_known (S.bytes out.old) (snapshots_text run.now (all_steps result.snapshots)) }
    ensures tried { AreTaking knobs.now.attempts result.snapshots }
    ensures failed { result.outcome ≡ Outcome.Write → Rose (S.failures out.old) (S.failures out.new) }
    ensures never_falls { S.failures out.old ≤ S.failures out.new }
    ensures steady { IsTold result.outcome → S.failures out.new ≡ S.failures out.old }
{
    let published = run.plan.published.len() as u32;
    let all = match last_snapshots(rt, alloc, knobs, published, publication) {
        Ok(all) => all,
        Err(AllocError) => {
            return Ran {
                outcome: Outcome::Memory,
                snapshots: Items::new(alloc),
            };
        }
    };
    match write_snapshots(alloc, out, run, all.as_slice()) {
        Ok(()) => Ran {
            outcome,
            snapshots: all,
        },
        Err(fault) => Ran {
            outcome: Outcome::from(fault),
            snapshots: all,
        },
    }
}

/// Brings a run that was opened to its end, with the callers beside it. Where memory ran out or the sink failed, nothing more is written.
fn run_opened<R: Threads + Wait + Sync, S: Sink, G: Gate>(
    rt: &R,
    alloc: Global,
    run: &Run,
    knobs: &Knobs,
    opened: Opened,
    gate: &G,
    out: &mut S,
) -> Ran
    requires lawful { IsLawfulRun run.now }
    requires some_workers { 1 ≤ knobs.now.workers }
    requires few_workers { knobs.now.workers ≤ 64 }
    requires few_callers { knobs.now.callers ≤ 16 }
    requires few_snaps { knobs.now.snaps ≤ 64 }
    requires opened { IsOpened run.now knobs.now opened }
    ensures ended { HasEndedFrom run.now knobs.now 1 result.outcome (S.bytes out.old) (S.bytes out.new) (S.failures out.old) (S.failures out.new) }
    ensures kept { IsTold result.outcome → S.bytes out.new ≡ append_known (S.bytes out.old) (rest_from run.now 1 (good run.now) (all_steps result.snapshots)) }
    ensures tried { AreTaking knobs.now.attempts result.snapshots }
{
    let Opened {
        progress,
        publication,
    } = opened;
    let Publication {
        store,
        mut writer,
        mut readers,
    } = publication;
    let outcome = run_beside(
        rt,
        alloc,
        run,
        knobs,
        gate,
        &store,
        progress,
        readers.as_mut_slice(),
        &mut writer,
        out,
    );
    if !outcome.is_told() {
        return Ran {
            outcome,
            snapshots: Items::new(alloc),
        };
    }
    let publication = Publication {
        store,
        writer,
        readers,
    };
    ended(rt, alloc, run, knobs, publication, outcome, out)
}

/// Runs a run whose snapshots can be kept.
fn run_kept<R: Threads + Wait + Sync, S: Sink, G: Gate>(
    rt: &R,
    alloc: Global,
    run: &Run,
    knobs: &Knobs,
    out: &mut S,
    gate: &G,
) -> Ran
    requires lawful { IsLawfulRun run.now }
    requires some_workers { 1 ≤ knobs.now.workers }
    requires few_workers { knobs.now.workers ≤ 64 }
    requires few_callers { knobs.now.callers ≤ 16 }
    requires few_snaps { knobs.now.snaps ≤ 64 }
    ensures ended { HasEndedFrom run.now knobs.now 0 result.outcome (S.bytes out.old) (S.bytes out.new) (S.failures out.old) (S.failures out.new) }
    ensures kept { IsTold result.outcome → S.bytes out.new ≡ append_known (S.bytes out.old) (rest_from run.now 0 (good run.now) (all_steps result.snapshots)) }
    ensures tried { AreTaking knobs.now.attempts result.snapshots }
{
    match open_run(alloc, run, knobs, out) {
        Ok(opened) => run_opened(rt, alloc, run, knobs, opened, gate, out),
        Err(outcome) => Ran {
            outcome,
            snapshots: Items::new(alloc),
        },
    }
}

/// Does what `run_feed` does, and tells besides how each snapshot was taken that was written. A caller takes the turn only after as many
/// attempts as the knobs say.
pub fn replay_feed<R: Threads + Wait + Sync, S: Sink, G: Gate>(
    rt: &R,
    alloc: Global,
    run: &Run,
    knobs: &Knobs,
    out: &mut S,
    gate: &G,
) -> Ran
    requires lawful { IsLawfulRun run.now }
    requires some_workers { 1 ≤ knobs.now.workers }
    requires few_workers { knobs.now.workers ≤ 64 }
    requires few_callers { knobs.now.callers ≤ 16 }
    requires few_snaps { knobs.now.snaps ≤ 64 }
    ensures verdict { IsTold result.outcome → IsVerdict run.now knobs.now result.outcome }
    ensures whole { IsTold result.outcome → WritesWhole run.now knobs.now (S.bytes out.old) (S.bytes out.new) }
    ensures failed { result.outcome ≡ Outcome.Write → Rose (S.failures out.old) (S.failures out.new) }
    ensures prefix { WritesPrefix run.now knobs.now (S.bytes out.old) (S.bytes out.new) }
    ensures complete { (Rose (S.failures out.old) (S.failures out.new) → ⊥) → IsComplete run.now knobs.now result.outcome }
    ensures kept { IsTold result.outcome → S.bytes out.new ≡ append_known (S.bytes out.old) (text_until run.now (last_written run.now knobs.now) (all_steps result.snapshots)) }
    ensures tried { AreTaking knobs.now.attempts result.snapshots }
    ensures never_falls { S.failures out.old ≤ S.failures out.new }
    ensures steady { IsTold result.outcome → S.failures out.new ≡ S.failures out.old }
{
    let words = kept_words(run, knobs);
    if words > MOST_WORDS {
        return Ran {
            outcome: Outcome::Kept { words },
            snapshots: Items::new(alloc),
        };
    }
    run_kept(rt, alloc, run, knobs, out, gate)
}

/// Runs a run from its opening to its last step, or to the first step that is spoiled, and writes the updates of its printed nodes at
/// every step before that one. Beside it callers take snapshots of the published tables, which are written last.
///
/// Where the snapshots would have too many words, or step 0 is spoiled, nothing is written. Where nothing is published, no snapshot is
/// taken. Where memory runs out or the sink fails, a prefix of those texts was written.
pub fn run_feed<R: Threads + Wait + Sync, S: Sink, G: Gate>(
    rt: &R,
    alloc: Global,
    run: &Run,
    knobs: &Knobs,
    out: &mut S,
    gate: &G,
) -> Outcome
    requires lawful { IsLawfulRun run.now }
    requires some_workers { 1 ≤ knobs.now.workers }
    requires few_workers { knobs.now.workers ≤ 64 }
    requires few_callers { knobs.now.callers ≤ 16 }
    requires few_snaps { knobs.now.snaps ≤ 64 }
    ensures verdict { IsTold result → IsVerdict run.now knobs.now result }
    ensures whole { IsTold result → WritesWhole run.now knobs.now (S.bytes out.old) (S.bytes out.new) }
    ensures failed { result ≡ Outcome.Write → Rose (S.failures out.old) (S.failures out.new) }
    ensures prefix { WritesPrefix run.now knobs.now (S.bytes out.old) (S.bytes out.new) }
    ensures complete { (Rose (S.failures out.old) (S.failures out.new) → ⊥) → IsComplete run.now knobs.now result }
    ensures never_falls { S.failures out.old ≤ S.failures out.new }
    ensures steady { IsTold result → S.failures out.new ≡ S.failures out.old }
{
    let Ran {
        outcome,
        snapshots: _,
    } = replay_feed(rt, alloc, run, knobs, out, gate);
    outcome
}
