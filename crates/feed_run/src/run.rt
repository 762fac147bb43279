//! The run: put together from its files, brought to its end, and reported.

ghost use Rattle.std.specs.Prelude.{◌≡◌, ◌≤◌, ◌<◌, ◌^◌, ◌∷◌, [], ℕ, List, Ok, IfOk, length};
ghost use Rattle.feed_reader.specs.Assembled.{AreTablesOf, plain_run};
ghost use Rattle.script_reader.specs.Plain.{plain_script};
ghost use Rattle.tick_io.specs.Asked.{AsksFor};
ghost use Rattle.tick_io.specs.Counts.{Rose};
ghost use Rattle.tick_model.specs.LawfulRuns.{IsLawfulRun, sources_of};
ghost use Rattle.feed_run.specs.Answers.{EndsByRun};
ghost use Rattle.feed_run.specs.Headline.{IsOneOf, IsWritten, LoadFailed, NoLoadFailed};
ghost use Rattle.feed_run.specs.Readings.{feed_found, files_read, plan_found, plan_read, run_found, script_in};
ghost use Rattle.feed_run.specs.Stops.{Asks, OnFound, Reads};

use crate::fault_records::{
    batch_record, done_record, kept_record, node_record, publication_record,
};
use crate::readings::{load_feed, load_script};
use crate::refusal::LoadStop;
use crate::reports::report;
use crate::tables::load_tables;
use feed_reader::{RawTable, assemble};
use replay::{Knobs, Outcome, run_feed};
use script_reader::script::Script;
use std::alloc::Global;
use std::sync::Wait;
use std::thread::Threads;
use tick_io::{Gate, Inputs, Sink};
use tick_model::feed::Run;
use tick_model::items::Items;

/// The texts of a run are no more than a slice can have.
fn texts_are_few(run: &Run)
    ensures { length run.now.texts < 2 ^ 63 }
{
    let count = run.texts.as_slice().len();
    prove!(count < 1 << 63);
}

/// The run of a script, of the tables that its sources open with, and of the feed of a file.
fn read_feed_run<I: Inputs>(
    alloc: Global,
    inputs: &mut I,
    script: Script,
    tables: Items<RawTable>,
    feed_name: &str,
) -> Result<Run, LoadStop>
    requires script { (bytes : List ℕ) × (script_in bytes ≡ Ok (plain_script script)) }
    requires tables { AreTablesOf (sources_of script.plan.nodes) tables }
    ensures reads { Reads I.told (LoadFailed I.failures inputs.old inputs.new) (IsOneOf (feed_name.now ∷ []))
        (feed_found (I.content inputs.old) (plain_script script) tables feed_name.now) plain_run result }
    ensures lawful { IfOk result IsLawfulRun }
    ensures nodes { IfOk result (λ run. length run.plan.nodes ≡ length script.plan.nodes) }
    ensures never_falls { (other : List ℕ) → I.failures inputs.old other ≤ I.failures inputs.new other }
    ensures kept { I.content inputs.new ≡ I.content inputs.old }
    ensures asks { AsksFor (I.asked inputs.old) (I.asked inputs.new) (feed_name.now ∷ []) }
    ensures steady { OnFound result (NoLoadFailed I.failures inputs.old inputs.new) }
{
    let feed = load_feed(alloc, inputs, &script.plan, feed_name)?;
    let assembled = assemble(alloc, script, tables, feed)?;
    texts_are_few(&assembled);
    Ok(assembled)
}

/// The run of a script, of the table files that it names, and of the feed of a file.
pub(crate) fn read_plan_run<I: Inputs>(
    alloc: Global,
    inputs: &mut I,
    script: Script,
    feed_name: &str,
) -> Result<Run, LoadStop>
    requires { (bytes : List ℕ) × (script_in bytes ≡ Ok (plain_script script)) }
    ensures reads { Reads I.told (LoadFailed I.failures inputs.old inputs.new)
        (IsOneOf (plan_read (I.content inputs.old) (plain_script script) feed_name.now))
        (plan_found (I.content inputs.old) (plain_script script) feed_name.now) plain_run result }
    ensures lawful { IfOk result IsLawfulRun }
    ensures nodes { IfOk result (λ run. length run.plan.nodes ≡ length script.plan.nodes) }
    ensures never_falls { (other : List ℕ) → I.failures inputs.old other ≤ I.failures inputs.new other }
    ensures kept { I.content inputs.new ≡ I.content inputs.old }
    ensures asks { Asks I.told (I.asked inputs.old) (I.asked inputs.new)
        (plan_read (I.content inputs.old) (plain_script script) feed_name.now) result }
    ensures steady { OnFound result (NoLoadFailed I.failures inputs.old inputs.new) }
{
    let tables = load_tables(
        alloc,
        inputs,
        script.plan.nodes.as_slice(),
        script.files.as_slice(),
    )?;
    read_feed_run(alloc, inputs, script, tables, feed_name)
}

/// The run of the script of a file over the feed of another, with the table files that the script names. It is lawful, so that a graph may be
/// started on it.
pub fn read_run<I: Inputs>(
    alloc: Global,
    inputs: &mut I,
    script_name: &str,
    feed_name: &str,
) -> Result<Run, LoadStop>
    ensures reads { Reads I.told (LoadFailed I.failures inputs.old inputs.new)
        (IsOneOf (files_read (I.content inputs.old) script_name.now feed_name.now))
        (run_found (I.content inputs.old) script_name.now feed_name.now) plain_run result }
    ensures lawful { IfOk result IsLawfulRun }
    ensures asks { Asks I.told (I.asked inputs.old) (I.asked inputs.new)
        (files_read (I.content inputs.old) script_name.now feed_name.now) result }
    ensures steady { OnFound result (NoLoadFailed I.failures inputs.old inputs.new) }
{
    let script = load_script(alloc, inputs, script_name)?;
    read_plan_run(alloc, inputs, script, feed_name)
}

/// Brings a run to its end, and reports how it ended.
pub(crate) fn run_to_end<R: Threads + Wait + Sync, S: Sink, G: Gate>(
    rt: &R,
    alloc: Global,
    run: &Run,
    knobs: &Knobs,
    out: &mut S,
    gate: &G,
) -> u8
    requires lawful { IsLawfulRun run.now }
    requires some_workers { 1 ≤ knobs.now.workers }
    requires few_workers { knobs.now.workers ≤ 64 }
    requires few_callers { knobs.now.callers ≤ 16 }
    requires few_snaps { knobs.now.snaps ≤ 64 }
    ensures ends { EndsByRun run.now knobs.now (Rose (S.failures out.old) (S.failures out.new)) (S.bytes out.old) (S.bytes out.new) result }
    ensures steady { IsWritten result → S.failures out.new ≡ S.failures out.old }
{
    match run_feed(rt, alloc, run, knobs, out, gate) {
        Outcome::Done { step, .. } => report(alloc, out, 0, done_record(alloc, step)),
        Outcome::Kept { words } => report(alloc, out, 2, kept_record(alloc, words)),
        Outcome::Feed {
            step,
            number,
            fault,
        } => report(alloc, out, 7, batch_record(alloc, run, step, number, fault)),
        Outcome::Node { step, node, kind } => {
            report(alloc, out, 8, node_record(alloc, run, step, node, kind))
        }
        Outcome::Publish {
            step,
            number,
            rows,
            limit,
        } => report(
            alloc,
            out,
            9,
            publication_record(alloc, run, step, number, rows, limit),
        ),
        Outcome::Memory => 1,
        Outcome::Write => 10,
    }
}
