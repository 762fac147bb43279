//! Who works the nodes of a run's steps.

ghost use Rattle.std.specs.Prelude.{◌≡◌, ◌+◌, ◌<◌, ◌≤◌, None, IfErr, IfOk, OnOk, length};
ghost use Rattle.tick_model.specs.Sources.{batch_fault};
ghost use Rattle.tick_model.specs.Spoiled.{node_fault};
ghost use Rattle.tick_model.specs.States.{state};
ghost use Rattle.replay.specs.Working.{workers_of};
ghost use Rattle.update_graph.specs.Stops.{IsStop};

use crate::light::seems_light;
use std::alloc::{AllocError, Global};
use std::thread::Threads;
use steal_workers::Crew;
use tick_io::Gate;
use tick_model::feed::Run;
use update_graph::{Graph, Stop};

/// Who works the nodes of a run's steps: this thread alone, or a crew that is kept through the steps, which is left out of light
/// ones.
#[derive(Drop)]
pub enum Hands {
    /// This thread alone.
    One,
    /// A crew of two hands or more.
    Crew(Crew),
}

impl Hands {
    /// So many hands: a crew where they are two or more.
    pub fn new(alloc: Global, workers: u32) -> Result<Hands, AllocError>
        requires some { 1 ≤ workers }
        requires few { workers ≤ 64 }
        ensures { IfOk result (λ hands. workers_of hands ≡ workers) }
    {
        if workers == 1 {
            return Ok(Hands::One);
        }
        let crew = Crew::new(alloc, workers)?;
        Ok(Hands::Crew(crew))
    }

    /// The graph at the next step of its run, as `Graph::cycle` has it.
    pub fn cycle<R: Threads + Sync, G: Gate>(
        &mut self,
        rt: &R,
        alloc: Global,
        run: &Run,
        graph: Graph,
        gate: &G,
    ) -> Result<Graph, Stop>
        requires run { graph.run ≡ run.now }
        requires next { graph.step < length run.now.batches }
        ensures run { IfOk result (λ next. next.run ≡ run.now) }
        ensures step { IfOk result (λ next. next.step ≡ graph.step + 1) }
        ensures batch { OnOk result (batch_fault run.now (graph.step + 1) ≡ None) }
        ensures nodes { OnOk result (node_fault 0 (state run.now (graph.step + 1)) ≡ None) }
        ensures cause { IfErr result (IsStop run.now (graph.step + 1)) }
    {
        match self {
            Hands::One => graph.cycle(rt, alloc, run, 1, gate),
            Hands::Crew(crew) => {
                if seems_light(run, &graph) {
                    graph.cycle(rt, alloc, run, 1, gate)
                } else {
                    graph.cycle_by(rt, alloc, run, crew, gate)
                }
            }
        }
    }
}
