//! The first steps of the made run, worked by crews.

ghost use Rattle.std.specs.Prelude.{◌≡◌, ◌<◌, ◌≤◌, IfOk, length};
ghost use Rattle.tick_model.specs.LawfulRuns.{IsLawfulRun};

use made_run::laws::made_runs_are_lawful;
use made_run::run::made_run;
use std::alloc::{AllocError, Global};
use std::sync::atomic::{AtomicU64, Ordering};
use std::test::Fail;
use std::thread::Threads;
use steal_workers::Crew;
use tick_io::{Gate, OpenGate};
use tick_model::feed::Run;
use update_graph::{Graph, Stop};

/// What a gate has seen once each node with an operator, 2 to 8, has entered and left.
const ALL_LEFT: u64 = 0x2_2222_2200;

/// Counts the calls of each node in one step, with four bits for a node.
#[derive(Drop)]
struct CountingGate {
    calls: AtomicU64,
    /// How many calls came out of turn.
    wrong: AtomicU64,
}

impl CountingGate {
    fn new() -> CountingGate {
        CountingGate {
            calls: AtomicU64::new(0),
            wrong: AtomicU64::new(0),
        }
    }

    /// One more call of a node that has made so many, when these have left.
    fn count(&self, node: u32, made: u64, left: u64) {
        if node >= 16 {
            self.wrong.fetch_add(1, Ordering::SeqCst);
            return;
        }
        let place = node * 4;
        let calls = self.calls.fetch_add(1 << place, Ordering::SeqCst);
        if (calls >> place) % 16 != made || calls & left != left {
            self.wrong.fetch_add(1, Ordering::SeqCst);
        }
    }

    /// The calls, and how many came out of turn.
    fn seen(&self) -> (u64, u64) {
        (
            self.calls.load(Ordering::SeqCst),
            self.wrong.load(Ordering::SeqCst),
        )
    }
}

/// What a gate has seen once the inputs of a node of the made run, but its sources, have left.
fn inputs_left(node: u32) -> u64 {
    match node {
        3 | 8 => 2 << 8,
        4 => 2 << 12,
        5 | 6 => 2 << 16,
        7 => 2 << 24,
        _ => 0,
    }
}

impl Gate for CountingGate {
    fn enter(&self, node: u32) {
        self.count(node, 0, inputs_left(node));
    }

    fn leave(&self, node: u32) {
        self.count(node, 1, 0);
    }
}

/// The made run of two steps.
fn two_steps(alloc: Global) -> Result<Run, AllocError>
    ensures { IfOk result IsLawfulRun }
{
    made_runs_are_lawful();
    made_run(alloc, 2)
}

/// The size of a crew, and what it came to: the step, and how many nodes were worked for it. None where there is no step.
fn cycled<T: Threads + Sync>(
    rt: &T,
    alloc: Global,
    run: &Run,
    workers: u32,
    gate: &CountingGate,
) -> Result<Option<(u32, u64, usize)>, Stop>
    requires lawful { IsLawfulRun run.now }
    requires workers { (1 ≤ workers) × (workers ≤ 64) }
{
    let mut crew = Crew::new(alloc, workers)?;
    let graph = Graph::start(alloc, run)?;
    if run.batches.is_empty() {
        return Ok(None);
    }
    let graph = graph.cycle_by(rt, alloc, run, &mut crew, gate)?;
    Ok(Some((crew.size(), graph.step(), graph.ran().len())))
}

#[test]
fn each_node_is_worked_once_whatever_the_crew(rt: HostRuntime) -> Result<(), Fail> {
    for workers in [1, 2, 8] {
        let run = two_steps(rt.alloc())?;
        let gate = CountingGate::new();
        match cycled(&rt, rt.alloc(), &run, workers, &gate) {
            Ok(answer) => assert!(rt; answer == Some((workers, 1, 7)), "{workers} workers"),
            Err(_) => panic!(rt; "{workers} workers"),
        }
        assert!(rt; gate.seen() == (ALL_LEFT, 0), "{workers} workers");
    }
    Ok(())
}

/// Whether some table of the graph was ever copied whole.
fn some_copied(graph: &Graph, run: &Run) -> bool
    requires { graph.now.run ≡ run.now }
{
    for place in 0..run.plan.nodes.len() {
        if let Ok(node) = u32::try_from(place) {
            if graph.table(node).copies() > 0 {
                return true;
            }
        }
    }
    false
}

/// Whether tables were copied in a step before which nobody holds one, and in a step before which one is held. None where there are
/// no two steps.
fn copied<T: Threads + Sync>(
    rt: &T,
    alloc: Global,
    run: &Run,
    workers: u32,
) -> Result<Option<[bool; 2]>, Stop>
    requires lawful { IsLawfulRun run.now }
    requires workers { (1 ≤ workers) × (workers ≤ 64) }
{
    let graph = Graph::start(alloc, run)?;
    if run.batches.len() < 2 || run.plan.nodes.is_empty() {
        return Ok(None);
    }
    let graph = graph.cycle(rt, alloc, run, workers, &OpenGate)?;
    let alone = some_copied(&graph, run);
    let held = graph.shared(0).clone()?;
    let graph = graph.cycle(rt, alloc, run, workers, &OpenGate)?;
    drop(held);
    Ok(Some([alone, some_copied(&graph, run)]))
}

#[test]
fn a_table_that_nobody_holds_is_not_copied(rt: HostRuntime) -> Result<(), Fail> {
    for workers in [1, 2] {
        let run = two_steps(rt.alloc())?;
        match copied(&rt, rt.alloc(), &run, workers) {
            Ok(answer) => assert!(rt; answer == Some([false, true]), "{workers} workers"),
            Err(_) => panic!(rt; "{workers} workers"),
        }
    }
    Ok(())
}
