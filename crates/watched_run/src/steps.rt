//! The steps of a watched run, one after the other, to its end.

ghost use Rattle.std.specs.Io.KnownBytes.{append_known};
ghost use Rattle.std.specs.Prelude.{◌≡◌, ◌+◌, ◌<◌, ◌≤◌, ◌^◌, None, IfErr, IfOk, IsErrOf, MatchOption, OnErr, OnOk, length};
ghost use Rattle.tick_io.specs.Counts.{Rose};
ghost use Rattle.tick_io.specs.Written.{AppendsPrefix};
ghost use Rattle.tick_laws.specs.Reached.{IsReached};
ghost use Rattle.tick_model.specs.Evaluation.{table_at};
ghost use Rattle.tick_model.specs.LawfulRuns.{IsLawfulRun};
ghost use Rattle.tick_model.specs.Spoiled.{first_spoiled, good};
ghost use Rattle.tick_model.specs.States.{state, tick};
ghost use Rattle.tick_table.specs.Exact.{ticking};
ghost use Rattle.replay.specs.Causes.{IsCause};
ghost use Rattle.replay.specs.Outcomes.{IsTold, OnTold};
ghost use Rattle.replay.specs.Standing.{IsGood};
ghost use Rattle.watched_run.specs.Messages.{IsWatch};
ghost use Rattle.watched_run.specs.Standing.{GoesOn, IsTeller, IsWatchedAt};
ghost use Rattle.watched_run.specs.Stopped.{IsStopped};
ghost use Rattle.watched_run.specs.ToCome.{rest_text, text_from, watch_until};

use crate::teller::Teller;
use crate::watch::Watch;
use new_counts::new_copy;
use replay::{Hands, Outcome, check_limits};
use std::alloc::{AllocError, Global};
use std::marker::Brand;
use std::sync::ledger::Blank;
use std::thread::Threads;
use tick_io::{Gate, Sink};
use tick_model::feed::Run;
use tick_table::TickTable;
use update_graph::Graph;

/// A watched run whose messages up to a step are told, but for one that is not due yet.
#[derive(Drop)]
pub(crate) struct Watching {
    graph: Graph,
    teller: Teller,
}

/// The graph at the opening, where no published table has too many rows.
fn opened(alloc: Global, run: &Run) -> Result<Graph, Outcome>
    requires { IsLawfulRun run.now }
    ensures run { IfOk result (λ graph. graph.run ≡ run.now) }
    ensures step { IfOk result (λ graph. graph.step ≡ 0) }
    ensures good { OnOk result (IsGood run.now 0) }
    ensures cause { IfErr result (λ outcome. IsTold outcome → IsCause run.now 0 outcome) }
    ensures no_write { IsErrOf result Outcome.Write → ⊥ }
{
    let graph = Graph::start(alloc, run)?;
    check_limits(&graph, run.plan.published.as_slice())?;
    Ok(graph)
}

/// The graph at the next step, where no published table has too many rows.
fn cycled<R: Threads + Sync, G: Gate>(
    rt: &R,
    alloc: Global,
    run: &Run,
    hands: &mut Hands,
    gate: &G,
    graph: Graph,
) -> Result<Graph, Outcome>
    requires run { graph.run ≡ run.now }
    requires next { graph.step < length run.now.batches }
    requires good { IsGood run.now graph.step }
    ensures run { IfOk result (λ next. next.run ≡ run.now) }
    ensures step { IfOk result (λ next. next.step ≡ graph.step + 1) }
    ensures good { OnOk result (IsGood run.now (graph.step + 1)) }
    ensures cause { IfErr result (λ outcome. IsTold outcome → IsCause run.now (graph.step + 1) outcome) }
    ensures no_write { IsErrOf result Outcome.Write → ⊥ }
{
    let graph = hands.cycle(rt, alloc, run, graph, gate)?;
    check_limits(&graph, run.plan.published.as_slice())?;
    Ok(graph)
}

/// The last message, unless the one before told this step too.
fn rest_told<S: Sink>(
    alloc: Global,
    out: &mut S,
    run: &Run,
    watch: &Watch,
    teller: Teller,
    table: &TickTable,
) -> Result<(), Outcome>
    requires lawful { IsLawfulRun run.now }
    requires watch { IsWatch run.now watch.now }
    requires stands { IsTeller run.now watch.now teller }
    requires reached { IsReached run.now (teller.last + teller.since) }
    requires few { teller.last + teller.since < 2 ^ 64 }
    requires table { table.now.new ≡ table_at (state run.now (teller.last + teller.since)) watch.now.node }
    ensures whole { OnOk result (S.bytes out.new ≡ append_known (S.bytes out.old) (rest_text run.now watch.now teller.last teller.since)) }
    ensures prefix { OnErr result (AppendsPrefix (S.bytes out.old) (S.bytes out.new) (rest_text run.now watch.now teller.last teller.since)) }
    ensures no_cause { IfErr result (λ outcome. IsTold outcome → ⊥) }
    ensures failed { IsErrOf result Outcome.Write → Rose (S.failures out.old) (S.failures out.new) }
    ensures never_falls { S.failures out.old ≤ S.failures out.new }
    ensures steady { OnTold result (S.failures out.new ≡ S.failures out.old) }
{
    if teller.since == 0 {
        drop(teller);
        return Ok(());
    }
    let blank = Blank::new(1);
    let _last = teller.message::<S, Brand>(alloc, out, run, watch, table, blank)?;
    Ok(())
}

/// The table of a node, kept for a last message where steps were taken in since the one before. Where none was, nothing is left to tell, and
/// no table is copied.
fn held_table(graph: &Graph, node: u32, since: u32) -> Result<Option<TickTable>, AllocError>
    requires { node < length graph.now.run.plan.nodes }
    ensures { IfOk result (λ held. MatchOption held (since ≡ 0) (λ table. table ≡ ticking (tick graph.now.run graph.now.step node))) }
{
    if since == 0 {
        return Ok(None);
    }
    let held = graph.table(node).copy(new_copy())?;
    Ok(Some(held))
}

/// What a run ends with at a step that is not good. Its last message is told before, unless memory ran out.
fn ended<S: Sink>(
    alloc: Global,
    out: &mut S,
    run: &Run,
    watch: &Watch,
    teller: Teller,
    table: &TickTable,
    outcome: Outcome,
) -> Outcome
    requires lawful { IsLawfulRun run.now }
    requires watch { IsWatch run.now watch.now }
    requires stands { IsTeller run.now watch.now teller }
    requires reached { IsReached run.now (teller.last + teller.since) }
    requires few { teller.last + teller.since < 2 ^ 64 }
    requires table { table.now.new ≡ table_at (state run.now (teller.last + teller.since)) watch.now.node }
    requires no_write { outcome ≡ Outcome.Write → ⊥ }
    ensures same { IsTold result → result ≡ outcome }
    ensures whole { IsTold result → S.bytes out.new ≡ append_known (S.bytes out.old) (rest_text run.now watch.now teller.last teller.since) }
    ensures told { IsTold outcome → AppendsPrefix (S.bytes out.old) (S.bytes out.new) (rest_text run.now watch.now teller.last teller.since) }
    ensures untold { (IsTold outcome → ⊥) → S.bytes out.new ≡ S.bytes out.old }
    ensures failed { result ≡ Outcome.Write → Rose (S.failures out.old) (S.failures out.new) }
    ensures never_falls { S.failures out.old ≤ S.failures out.new }
    ensures steady { IsTold result → S.failures out.new ≡ S.failures out.old }
{
    if let Outcome::Memory = outcome {
        drop(teller);
        return Outcome::Memory;
    }
    match rest_told(alloc, out, run, watch, teller, table) {
        Ok(()) => outcome,
        Err(fault) => fault,
    }
}

impl Watching {
    /// Opens a run, and tells its watched rows.
    fn open<S: Sink>(
        alloc: Global,
        run: &Run,
        watch: &Watch,
        out: &mut S,
    ) -> Result<Watching, Outcome>
        requires lawful { IsLawfulRun run.now }
        requires watch { IsWatch run.now watch.now }
        ensures stands { IfOk result (IsWatchedAt run.now watch.now 0) }
        ensures told { IfOk result (GoesOn run.now watch.now (watch_until run.now watch.now (good run.now)) (S.bytes out.old) (S.bytes out.new)) }
        ensures cause { IfErr result (λ outcome. IsTold outcome → IsCause run.now 0 outcome) }
        ensures ended { IfErr result (λ outcome. IsTold outcome → S.bytes out.new ≡ S.bytes out.old) }
        ensures prefix { OnErr result (AppendsPrefix (S.bytes out.old) (S.bytes out.new) (watch_until run.now watch.now (good run.now))) }
        ensures failed { IsErrOf result Outcome.Write → Rose (S.failures out.old) (S.failures out.new) }
        ensures never_falls { S.failures out.old ≤ S.failures out.new }
        ensures steady { OnTold result (S.failures out.new ≡ S.failures out.old) }
    {
        let graph = opened(alloc, run)?;
        let table = graph.table(watch.node);
        let blank = Blank::new(1);
        let teller = Teller::start::<S, Brand>(alloc, out, run, watch, table, blank)?;
        Ok(Watching { graph, teller })
    }

    /// Brings the run on by a step, and tells a message where one is due.
    fn advance<R: Threads + Sync, S: Sink, G: Gate>(
        self,
        rt: &R,
        alloc: Global,
        run: &Run,
        watch: &Watch,
        hands: &mut Hands,
        gate: &G,
        out: &mut S,
    ) -> Result<Watching, Outcome>
        requires lawful { IsLawfulRun run.now }
        requires watch { IsWatch run.now watch.now }
        requires stands { IsWatchedAt run.now watch.now self.graph.step self }
        requires next { self.graph.step < length run.now.batches }
        ensures stands { IfOk result (IsWatchedAt run.now watch.now (self.graph.step + 1)) }
        ensures told { IfOk result (GoesOn run.now watch.now (text_from run.now watch.now self.teller.last self.teller.since) (S.bytes out.old) (S.bytes out.new)) }
        ensures cause { IfErr result (λ outcome. IsTold outcome → IsCause run.now (self.graph.step + 1) outcome) }
        ensures ended { IfErr result (λ outcome. IsTold outcome → S.bytes out.new ≡ append_known (S.bytes out.old) (text_from run.now watch.now self.teller.last self.teller.since)) }
        ensures prefix { OnErr result (AppendsPrefix (S.bytes out.old) (S.bytes out.new) (text_from run.now watch.now self.teller.last self.teller.since)) }
        ensures failed { IsErrOf result Outcome.Write → Rose (S.failures out.old) (S.failures out.new) }
        ensures never_falls { S.failures out.old ≤ S.failures out.new }
        ensures steady { OnTold result (S.failures out.new ≡ S.failures out.old) }
    {
        let Watching { graph, teller } = self;
        let held = held_table(&graph, watch.node, teller.since)?;
        let outcome = match cycled(rt, alloc, run, hands, gate, graph) {
            Ok(graph) => return next_told(alloc, out, run, watch, graph, teller),
            Err(outcome) => outcome,
        };
        let Some(table) = held else {
            drop(teller);
            return Err(outcome);
        };
        Err(ended(alloc, out, run, watch, teller, &table, outcome))
    }
}

/// Takes a step in, and tells a message where one is due.
fn next_told<S: Sink>(
    alloc: Global,
    out: &mut S,
    run: &Run,
    watch: &Watch,
    graph: Graph,
    teller: Teller,
) -> Result<Watching, Outcome>
    requires lawful { IsLawfulRun run.now }
    requires watch { IsWatch run.now watch.now }
    requires run { graph.run ≡ run.now }
    requires good { IsGood run.now graph.step }
    requires stands { IsTeller run.now watch.now teller }
    requires next { graph.step ≡ teller.last + teller.since + 1 }
    requires within { graph.step ≤ length run.now.batches }
    requires not_due { teller.since < watch.now.every }
    ensures stands { IfOk result (IsWatchedAt run.now watch.now graph.step) }
    ensures told { IfOk result (GoesOn run.now watch.now (text_from run.now watch.now teller.last teller.since) (S.bytes out.old) (S.bytes out.new)) }
    ensures no_cause { IfErr result (λ outcome. IsTold outcome → ⊥) }
    ensures prefix { OnErr result (AppendsPrefix (S.bytes out.old) (S.bytes out.new) (text_from run.now watch.now teller.last teller.since)) }
    ensures failed { IsErrOf result Outcome.Write → Rose (S.failures out.old) (S.failures out.new) }
    ensures never_falls { S.failures out.old ≤ S.failures out.new }
    ensures steady { OnTold result (S.failures out.new ≡ S.failures out.old) }
{
    let table = graph.table(watch.node);
    let passed = teller.pass(run, watch, table)?;
    if passed.since < watch.every {
        return Ok(Watching {
            graph,
            teller: passed,
        });
    }
    let blank = Blank::new(1);
    let told = passed.message::<S, Brand>(alloc, out, run, watch, table, blank)?;
    Ok(Watching {
        graph,
        teller: told,
    })
}

/// Runs a run from its opening to its last step, or to the first step that is spoiled, and tells its watched rows: at the opening, after
/// each so many steps, and at the last good step. It gives the last step, or why the run ended before.
///
/// Where step 0 is spoiled, nothing is written. Where memory runs out or the sink fails, a prefix of the text was written.
pub fn watch_feed<R: Threads + Sync, S: Sink, G: Gate>(
    rt: &R,
    alloc: Global,
    run: &Run,
    watch: &Watch,
    workers: u32,
    out: &mut S,
    gate: &G,
) -> Result<u64, Outcome>
    requires lawful { IsLawfulRun run.now }
    requires watch { IsWatch run.now watch.now }
    requires some_workers { 1 ≤ workers }
    requires few_workers { workers ≤ 64 }
    ensures done { IfOk result (λ step. step ≡ length run.now.batches) }
    ensures unspoiled { OnOk result (first_spoiled run.now ≡ None) }
    ensures end { IfErr result (λ outcome. IsTold outcome → IsStopped run.now outcome) }
    ensures ok { OnOk result (S.bytes out.new ≡ append_known (S.bytes out.old) (watch_until run.now watch.now (good run.now))) }
    ensures told { IfErr result (λ outcome. IsTold outcome → S.bytes out.new ≡ append_known (S.bytes out.old) (watch_until run.now watch.now (good run.now))) }
    ensures prefix { OnErr result (AppendsPrefix (S.bytes out.old) (S.bytes out.new) (watch_until run.now watch.now (good run.now))) }
    ensures failed { IsErrOf result Outcome.Write → Rose (S.failures out.old) (S.failures out.new) }
    ensures never_falls { S.failures out.old ≤ S.failures out.new }
    ensures steady { OnTold result (S.failures out.new ≡ S.failures out.old) }
{
    let mut hands = Hands::new(alloc, workers)?;
    let opening = Watching::open(alloc, run, watch, out)?;
    let mut watching = opening;
    for _step in 0..run.batches.len() {
        watching = watching.advance(rt, alloc, run, watch, &mut hands, gate, out)?;
    }
    let Watching { graph, teller } = watching;
    rest_told(alloc, out, run, watch, teller, graph.table(watch.node))?;
    Ok(graph.step())
}
