//! A watched run: put together from its files, brought to its end, and reported.

ghost use Rattle.std.specs.Prelude.{◌≡◌, ◌≤◌, ◌<◌, ◌^◌, IfSome, length, option_map};
ghost use Rattle.std.specs.Str.{bytes_eq};
ghost use Rattle.tick_io.specs.Counts.{Rose};
ghost use Rattle.tick_model.specs.LawfulRuns.{IsLawfulRun};
ghost use Rattle.watched_run.specs.Messages.{IsWatch};
ghost use Rattle.feed_run.specs.Answers.{Answers, EndsByWatch, HasAsked};
ghost use Rattle.feed_run.specs.Headline.{IsOneOf, IsWritten, LoadFailed, NoLoadFailed};
ghost use Rattle.feed_run.specs.Readings.{script_in};
ghost use Rattle.feed_run.specs.Verdicts.{node_named as first_named, watch_files, watch_of, watch_verdict};

use crate::fault_records::{
    batch_record, done_record, node_record, publication_record, unnamed_record,
};
use crate::readings::load_script;
use crate::reports::{report, report_stop};
use crate::run::read_plan_run;
use replay::Outcome;
use std::alloc::Global;
use std::thread::Threads;
use tick_io::{Gate, Inputs, Sink};
use tick_model::feed::Run;
use tick_model::plan::{Node, Plan};
use watched_run::{Watch, watch_feed};

/// What is asked of a watched run: the name of its node, its positions, and how many steps lie between two messages.
#[derive(Clone, Copy)]
pub(crate) struct Asked<'a> {
    pub(crate) script: &'a str,
    pub(crate) feed: &'a str,
    pub(crate) name: &'a str,
    pub(crate) first: u32,
    pub(crate) count: u32,
    pub(crate) every: u32,
}

/// Whether a node has this name.
fn is_named(node: &Node, name: &str) -> bool
    ensures { result ≡ bytes_eq node.now.name name.now }
{
    node.name.as_str() == name
}

/// The number of the node of this name.
fn node_named(plan: &Plan, name: &str) -> Option<u32>
    requires { length plan.now.nodes < 2 ^ 32 }
    ensures named { result ≡ first_named name.now plan.now }
    ensures there { IfSome result (λ node. node < length plan.now.nodes) }
{
    let position = plan
        .nodes
        .as_slice()
        .iter()
        .position(|node| is_named(node, name))?;
    Some(position as u32)
}

/// Brings a watched run to its end, and reports how it ended.
fn watch_to_end<R: Threads + Sync, S: Sink, G: Gate>(
    rt: &R,
    alloc: Global,
    run: &Run,
    watch: &Watch,
    workers: u32,
    out: &mut S,
    gate: &G,
) -> u8
    requires lawful { IsLawfulRun run.now }
    requires watch { IsWatch run.now watch.now }
    requires some_workers { 1 ≤ workers }
    requires few_workers { workers ≤ 64 }
    ensures ends { EndsByWatch run.now watch.now (Rose (S.failures out.old) (S.failures out.new)) (S.bytes out.old) (S.bytes out.new) result }
    ensures steady { IsWritten result → S.failures out.new ≡ S.failures out.old }
{
    let outcome = match watch_feed(rt, alloc, run, watch, workers, out, gate) {
        Ok(step) => return report(alloc, out, 0, done_record(alloc, step)),
        Err(outcome) => outcome,
    };
    match outcome {
        Outcome::Feed {
            step,
            number,
            fault,
        } => report(alloc, out, 7, batch_record(alloc, run, step, number, fault)),
        Outcome::Node { step, node, kind } => {
            report(alloc, out, 8, node_record(alloc, run, step, node, kind))
        }
        Outcome::Publish {
            step,
            number,
            rows,
            limit,
        } => report(
            alloc,
            out,
            9,
            publication_record(alloc, run, step, number, rows, limit),
        ),
        Outcome::Memory => 1,
        Outcome::Write => 10,
        Outcome::Done { .. } => unreachable!(),
        Outcome::Kept { .. } => unreachable!(),
    }
}

/// Watches the rows of a node, and answers the status.
pub(crate) fn watch<R: Threads + Sync, I: Inputs, S: Sink, G: Gate>(
    rt: &R,
    alloc: Global,
    asked: Asked<'_>,
    workers: u32,
    inputs: &mut I,
    out: &mut S,
    gate: &G,
) -> u8
    requires few_positions { asked.first < 4194304 }
    requires some_rows { 1 ≤ asked.count }
    requires few_rows { asked.count ≤ 4194304 }
    requires some_steps { 1 ≤ asked.every }
    requires few_steps { asked.every ≤ 100000 }
    requires some_workers { 1 ≤ workers }
    requires few_workers { workers ≤ 64 }
    ensures answers { Answers I.told (watch_verdict (I.content inputs.old) (watch_of asked.entry.first asked.entry.count asked.entry.every) asked.entry.feed.now asked.entry.name.now (option_map script_in (I.content inputs.old asked.entry.script.now)))
        (LoadFailed I.failures inputs.old inputs.new) (IsOneOf (watch_files (I.content inputs.old) asked.entry.script.now asked.entry.feed.now asked.entry.name.now))
        (Rose (S.failures out.old) (S.failures out.new)) (S.bytes out.old) (S.bytes out.new) result }
    ensures asks { HasAsked I.told (I.asked inputs.old) (I.asked inputs.new)
        (watch_files (I.content inputs.old) asked.entry.script.now asked.entry.feed.now asked.entry.name.now) (NoLoadFailed I.failures inputs.old inputs.new) result }
    ensures steady { IsWritten result → S.failures out.new ≡ S.failures out.old }
{
    let script = match load_script(alloc, inputs, asked.script) {
        Ok(script) => script,
        Err(stop) => return report_stop(alloc, out, &stop),
    };
    let Some(node) = node_named(&script.plan, asked.name) else {
        return report(alloc, out, 12, unnamed_record(alloc, asked.name));
    };
    let run = match read_plan_run(alloc, inputs, script, asked.feed) {
        Ok(run) => run,
        Err(stop) => return report_stop(alloc, out, &stop),
    };
    let watch = Watch {
        node,
        first: asked.first,
        count: asked.count,
        every: asked.every,
    };
    watch_to_end(rt, alloc, &run, &watch, workers, out, gate)
}
