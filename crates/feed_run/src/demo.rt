//! The made run: run to its end without being written, and summed up.

ghost use Rattle.std.specs.Prelude.{◌≡◌, ◌≤◌, IfOk, IfSome, None, length};
ghost use Rattle.feed_reader.specs.Assembled.{plain_run};
ghost use Rattle.made_run.specs.Run.{made};
ghost use Rattle.replay.specs.Kept.{kept_words, most_words};
ghost use Rattle.replay.specs.Outcomes.{IsDone};
ghost use Rattle.tick_io.specs.Counts.{Rose};
ghost use Rattle.tick_model.specs.LawfulRuns.{IsLawfulRun};
ghost use Rattle.tick_model.specs.Spoiled.{first_spoiled};
ghost use Rattle.feed_run.specs.Answers.{EndsBy};
ghost use Rattle.feed_run.specs.Headline.{IsWritten};
ghost use Rattle.feed_run.specs.Verdicts.{Summary};

use crate::reports::report_all;
use crate::summary::{Totals, summary};
use made_run::laws::{made_runs_are_lawful, made_runs_have_no_spoiled_step};
use made_run::run::made_run;
use replay::{Knobs, Outcome, run_feed};
use std::alloc::{AllocError, Global};
use std::sync::Wait;
use std::thread::Threads;
use tick_io::{Gate, Sink, VoidSink};
use tick_model::feed::Run;

/// The made run of so many steps.
fn lawful_made_run(alloc: Global, steps: u32) -> Result<Run, AllocError>
    requires { steps ≤ 10000 }
    ensures run { IfOk result (λ run. plain_run run ≡ made steps) }
    ensures lawful { IfOk result IsLawfulRun }
    ensures unspoiled { IfOk result (λ run. first_spoiled run ≡ None) }
{
    made_runs_are_lawful();
    made_runs_have_no_spoiled_step();
    made_run(alloc, steps)
}

/// What a run without a spoiled step ends with, or `None` where memory runs out. Its updates are not written.
fn run_totals<R: Threads + Wait + Sync, G: Gate>(
    rt: &R,
    alloc: Global,
    run: &Run,
    knobs: &Knobs,
    gate: &G,
) -> Option<Totals>
    requires lawful { IsLawfulRun run.now }
    requires unspoiled { first_spoiled run.now ≡ None }
    requires some_workers { 1 ≤ knobs.now.workers }
    requires few_workers { knobs.now.workers ≤ 64 }
    requires few_callers { knobs.now.callers ≤ 16 }
    requires few_snaps { knobs.now.snaps ≤ 64 }
    requires few_words { kept_words run.now knobs.now ≤ most_words }
    ensures { IfSome result (λ totals. IsDone run.now (length run.now.batches) totals.records totals.rows) }
{
    match run_feed(rt, alloc, run, knobs, &mut VoidSink, gate) {
        Outcome::Done { records, rows, .. } => Some(Totals { records, rows }),
        Outcome::Memory => None,
        Outcome::Kept { .. }
        | Outcome::Feed { .. }
        | Outcome::Node { .. }
        | Outcome::Publish { .. }
        | Outcome::Write => unreachable!(),
    }
}

/// Runs the made run of so many steps, and reports its summary.
pub(crate) fn demo<R: Threads + Wait + Sync, S: Sink, G: Gate>(
    rt: &R,
    alloc: Global,
    steps: u32,
    knobs: &Knobs,
    out: &mut S,
    gate: &G,
) -> u8
    requires few_steps { steps ≤ 10000 }
    requires some_workers { 1 ≤ knobs.now.workers }
    requires few_workers { knobs.now.workers ≤ 64 }
    requires few_callers { knobs.now.callers ≤ 16 }
    requires few_snaps { knobs.now.snaps ≤ 64 }
    ensures ends { EndsBy (Summary steps) (Rose (S.failures out.old) (S.failures out.new)) (S.bytes out.old) (S.bytes out.new) result }
    ensures steady { IsWritten result → S.failures out.new ≡ S.failures out.old }
{
    let Ok(run) = lawful_made_run(alloc, steps) else {
        return 1;
    };
    let Some(totals) = run_totals(rt, alloc, &run, knobs, gate) else {
        return 1;
    };
    report_all(alloc, out, 0, summary(alloc, &run, steps, &totals))
}
