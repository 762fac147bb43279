//! A step as the callers see it: begun, and then either completed with all its published tables, or abandoned.
ghost use Rattle.std.specs.Prelude.{◌≡◌, ◌≢◌, ◌+◌, ◌<◌, ◌≤◌, None, IfErr, IfOk, IsErrOf, OnErr, OnOk, length};
ghost use Rattle.snapshot_store.specs.Lines.{count};
ghost use Rattle.snapshot_store.specs.Models.{IsOf};
ghost use Rattle.tick_model.specs.Sources.{batch_fault};
ghost use Rattle.tick_model.specs.Spoiled.{node_fault};
ghost use Rattle.tick_model.specs.States.{state};
ghost use Rattle.replay.specs.Causes.{IsCause};
ghost use Rattle.replay.specs.Outcomes.{IsTold};
ghost use Rattle.replay.specs.Standing.{IsGood, IsWriterAt};

use crate::Outcome;
use crate::hands::Hands;
use crate::limits::put_tables;
use snapshot_store::{Phase, Store, Writer};
use std::alloc::Global;
use std::sync::Wait;
use std::thread::Threads;
use tick_io::Gate;
use tick_model::feed::Run;
use update_graph::Graph;

/// Brings the graph to the step that was begun, and puts its published tables.
fn next_put<R: Threads + Sync, G: Gate>(
    rt: &R,
    alloc: Global,
    run: &Run,
    hands: &mut Hands,
    graph: Graph,
    gate: &G,
    store: &Store,
    writer: &mut Writer,
) -> Result<Graph, Outcome>
    requires run { graph.run ≡ run.now }
    requires next { graph.step < length run.now.batches }
    requires good { IsGood run.now graph.step }
    requires store { store.now.run ≡ run.now }
    requires own { IsOf store.now writer.old.table writer.old.run }
    requires step { writer.old.step ≡ graph.step }
    requires begun { writer.old.phase ≡ Phase.Begun 0 }
    ensures run { IfOk result (λ next. next.run ≡ run.now) }
    ensures step { IfOk result (λ next. next.step ≡ graph.step + 1) }
    ensures good { OnOk result (IsGood run.now (graph.step + 1)) }
    ensures own { IsOf store.now writer.new.table writer.new.run }
    ensures writer { writer.new.step ≡ writer.old.step }
    ensures put { OnOk result (writer.new.phase ≡ Phase.Begun (count run.now)) }
    ensures begun { OnErr result ((writer.new.phase ≢ Phase.Idle) × (writer.new.phase ≢ Phase.Left)) }
    ensures cause { IfErr result (λ outcome. IsTold outcome → IsCause run.now (graph.step + 1) outcome) }
    ensures no_write { IsErrOf result Outcome.Write → ⊥ }
{
    let graph = hands.cycle(rt, alloc, run, graph, gate)?;
    put_tables(store, &graph, run.plan.published.as_slice(), writer)?;
    Ok(graph)
}

/// Brings the graph to the next step, and publishes it.
pub(crate) fn next_published<R: Threads + Wait + Sync, G: Gate>(
    rt: &R,
    alloc: Global,
    run: &Run,
    hands: &mut Hands,
    graph: Graph,
    gate: &G,
    store: &Store,
    writer: &mut Writer,
) -> Result<Graph, Outcome>
    requires run { graph.run ≡ run.now }
    requires next { graph.step < length run.now.batches }
    requires few { length run.now.batches ≤ 100000 }
    requires good { IsGood run.now graph.step }
    requires store { store.now.run ≡ run.now }
    requires writer { IsWriterAt store.now graph.step writer.old }
    ensures run { IfOk result (λ next. next.run ≡ run.now) }
    ensures step { IfOk result (λ next. next.step ≡ graph.step + 1) }
    ensures good { OnOk result (IsGood run.now (graph.step + 1)) }
    ensures writer { OnOk result (IsWriterAt store.now (graph.step + 1) writer.new) }
    ensures own { IsOf store.now writer.new.table writer.new.run }
    ensures stays { OnErr result (writer.new.step ≡ graph.step) }
    ensures cause { IfErr result (λ outcome. IsTold outcome → IsCause run.now (graph.step + 1) outcome) }
    ensures no_write { IsErrOf result Outcome.Write → ⊥ }
{
    store.begin(rt, writer);
    match next_put(rt, alloc, run, hands, graph, gate, store, writer) {
        Ok(next) => {
            store.finish(writer);
            Ok(next)
        }
        Err(outcome) => {
            store.abandon(writer);
            Err(outcome)
        }
    }
}
