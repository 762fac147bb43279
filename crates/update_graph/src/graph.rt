//! The graph itself: its start, its cycle and what it answers.

ghost use Rattle.std.specs.Prelude.{◌≡◌, ◌+◌, ◌-◌, ◌<◌, ◌≤◌, None, Some, [], ℕ, IfErr, IfOk, OnOk, length, map, option_map, true};
ghost use Rattle.std.specs.Arc.{arc_value};
ghost use Rattle.table_operator.specs.Inputs.{tables};
ghost use Rattle.tick_laws.specs.Reached.{IsReached};
ghost use Rattle.tick_model.specs.Changes.{change_of};
ghost use Rattle.tick_model.specs.LawfulRuns.{IsLawfulRun};
ghost use Rattle.tick_model.specs.Sources.{batch_fault, source_ticks, sources as sources_at};
ghost use Rattle.tick_model.specs.Spoiled.{ByNode, node_fault};
ghost use Rattle.tick_model.specs.States.{state, tick};
ghost use Rattle.tick_model.specs.Tables.{keys as keys_of};
ghost use Rattle.tick_model.specs.declared.feed.Run.{Run};
ghost use Rattle.tick_table.specs.Exact.{ticking};
ghost use Rattle.tick_table.specs.Ticking.{Ticking};
ghost use Rattle.update_graph.specs.Entered.{IsEntered};
ghost use Rattle.update_graph.specs.Graphs.{HasReached, HaveStepped, IsBase, RanInOrder, RanOnce, SteppedOnce, most_in, read_in, reads_at, sources_shown};
ghost use Rattle.update_graph.specs.Stands.{HasStepped, is_defined};
ghost use Rattle.update_graph.specs.Stops.{IsStop};
ghost use Rattle.update_graph.specs.Tags.{all_reads, is_operator, named, op_at, tag, tags};

use crate::context::{CycleContext, StepContext};
use crate::crew_step::crew_step;
use crate::edges::Edges;
use crate::in_order::advance_all;
use crate::opening::open_all;
use crate::sources::{changed_sources, opened_sources, referred};
use crate::stop::{Stop, refused};
use crate::work::Work;
use new_counts::new_count;
use operators::Operator;
use source_changes::SourceKeys;
use std::alloc::{AllocError, Global};
use std::marker::{Brand, Model};
use std::snapshot::Snapshot;
use std::sync::ledger::{Blank, Ledger};
use std::thread::Threads;
use steal_workers::Crew;
use tick_io::Gate;
use tick_model::feed::Run;
use tick_model::table::NodeFault;
use tick_table::{Change, Shared, Steps, TickTable};

/// What a graph keeps beside its nodes.
#[derive(Drop)]
pub(crate) struct Base {
    /// The edges of the plan.
    edges: Edges,
    /// The keys of the sources.
    keys: SourceKeys,
    /// The tables of the sources, in order of the nodes.
    sources: Vec<Shared>,
}

/// The nodes of a lawful run, all of which stand at one step of it. A contract sees the run, the step, the nodes with an operator
/// that were worked for the step, and what the operator of each node has read in each of its steps.
pub struct Graph {
    run: Snapshot<Run>,
    step: u64,
    base: Base,
    /// What each node keeps.
    works: Vec<Work>,
    ran: Vec<u32>,
}

impl Model for Graph {
    ghost use Rattle.std.specs.Coded.{codes};
    ghost use Rattle.tick_model.specs.contracts.plan.Expr as expr_type;
    ghost use Rattle.tick_model.specs.contracts.plan.Pred as pred_type;
    ghost use Rattle.update_graph.specs.Graphs.{GraphView, IsGraph};
    ghost use Rattle.update_graph.specs.Tags.{all_reads};

    ghost Value = { GraphView };

    ghost coded = { Prim.hlevel (codes, expr_type.the_row.coded, pred_type.the_row.coded) };

    ghost view = { λ graph. record { run = graph.run.value; step = graph.step; ran = graph.ran.items; reads = all_reads graph.works.items } };

    ghost invariant = { λ graph. IsGraph graph.run.value graph.step graph.base graph.works.items };
}

// Written out, so that a crate which lets a graph go does not prove anew how each part of it is let go.
impl Drop for Graph {
    fn drop(self) {
        let Self {
            run: _,
            step: _,
            base: _,
            works: _,
            ran: _,
        } = self;
    }
}

/// The changes of the sources from a step to the next, by the batch of that, with reads that are counted from a blank.
fn changes_of<L: Ledger>(
    context: &StepContext<'_>,
    step: u64,
    keys: &mut SourceKeys,
    sources: &[Shared],
    blank: Blank,
) -> Result<Vec<Change>, Stop>
    requires name { blank.name ≡ L.name }
    requires parts { blank.parts ≡ L.parts }
    requires some { 0 < blank.parts }
    requires lawful { IsLawfulRun context.now.run.now }
    requires reached { IsReached context.now.run.now step }
    requires step { context.now.step ≡ step + 1 }
    requires next { step < length context.now.run.now.batches }
    requires keys { keys.old ≡ map (λ table. keys_of table.rows) (sources_at context.now.run.now step) }
    requires sources { tables sources.now ≡ sources_shown context.now.run.now step }
    ensures entered { OnOk result (IsEntered context.now.run.now context.now.step) }
    ensures changes { IfOk result (λ changes. changes.items ≡ map change_of (source_ticks context.now.run.now context.now.step)) }
    ensures keys { OnOk result (keys.new ≡ map (λ table. keys_of table.rows) (sources_at context.now.run.now context.now.step)) }
    ensures cause { IfErr result (IsStop context.now.run.now context.now.step) }
{
    let run = context.run;
    let batch = &run.batches.as_slice()[step as usize];
    let known = referred(context.alloc, sources)?;
    let mut reads = Steps::<L>::new(blank, new_count());
    match keys.changes(context.alloc, &run.plan, batch, &known, &mut reads) {
        Ok(changes) => Ok(changes),
        Err(fault) => Err(refused(context.step, fault)),
    }
}

/// The least node that has no table although its inputs have theirs, and its fault. Where there is none, the operators of all nodes
/// have taken their steps.
fn least_fault(works: &[Work]) -> Option<(u32, NodeFault)>
    requires { length works.now ≤ 256 }
    ensures fault { (run : Run) (step : ℕ) → map named works.now ≡ tags run step (length run.plan.nodes)
        → option_map (λ found. ByNode found.0 found.1) result ≡ node_fault 0 (state run step) }
    ensures stepped { (run : Run) (step : ℕ) → map named works.now ≡ tags run step (length run.plan.nodes) → result ≡ None
        → (node : ℕ) → node < length run.plan.nodes → is_operator run node ≡ true → is_defined run step node ≡ true
        → HasStepped run (step + 1) node (reads_at (all_reads works.now) node) }
{
    for (node, work) in works.iter().enumerate() {
        match work.fault() {
            Some(kind) => return Some((node as u32, kind)),
            None => {}
        }
    }
    None
}

/// The graph at a step that all nodes have reached, unless one has failed.
fn finished(
    context: &StepContext<'_>,
    base: Base,
    works: Vec<Work>,
    ran: Vec<u32>,
) -> Result<Graph, Stop>
    requires entered { IsEntered context.now.run.now context.now.step }
    requires base { IsBase context.now.run.now context.now.step base }
    requires works { map named works.items ≡ tags context.now.run.now context.now.step (length context.now.run.now.plan.nodes) }
    requires once { RanOnce context.now.run.now.plan ran.items }
    requires order { RanInOrder context.now.run.now.plan ran.items }
    ensures reached { IfOk result (HasReached context.now.run.now context.now.step) }
    ensures reads { IfOk result (λ graph. graph.reads ≡ all_reads works.items) }
    ensures cause { IfErr result (IsStop context.now.run.now context.now.step) }
{
    match least_fault(&works) {
        Some((node, kind)) => Err(Stop::Node {
            step: context.step,
            node,
            kind,
        }),
        None => Ok(Graph {
            run: Snapshot::of(context.run),
            step: context.step,
            base,
            works,
            ran,
        }),
    }
}

impl Graph {
    /// The graph at step 0 of a lawful run. Each operator takes its first step, and they read no more than their bounds allow.
    pub fn start(alloc: Global, run: &Run) -> Result<Graph, Stop>
        requires { IsLawfulRun run.now }
        ensures run { IfOk result (λ graph. graph.run ≡ run.now) }
        ensures step { IfOk result (λ graph. graph.step ≡ 0) }
        ensures nodes { OnOk result (node_fault 0 (state run.now 0) ≡ None) }
        ensures steps { IfOk result (λ graph. SteppedOnce run.now [] graph.reads) }
        ensures reads { IfOk result (λ graph. read_in run.now 0 graph.reads ≤ most_in run.now 0) }
        ensures cause { IfErr result (IsStop run.now 0) }
    {
        let base = Base {
            edges: Edges::of(alloc, run)?,
            keys: SourceKeys::new(alloc, &run.opening)?,
            sources: opened_sources(alloc, run)?,
        };
        let sweep = open_all::<Brand>(alloc, run, &base.sources, Blank::new(1))?;
        let context = StepContext {
            alloc,
            run,
            step: 0,
        };
        let graph = finished(&context, base, sweep.works, sweep.ran)?;
        Ok(graph)
    }

    /// Takes the batch of the next step, which changes the sources: what the graph keeps beside its nodes then, and what the nodes still
    /// keep of the step before.
    fn take_batch(self, context: &StepContext<'_>) -> Result<(Base, Vec<Work>), Stop>
        requires run { self.run ≡ context.now.run.now }
        requires step { context.now.step ≡ self.step + 1 }
        requires next { self.step < length context.now.run.now.batches }
        ensures entered { OnOk result (IsEntered context.now.run.now context.now.step) }
        ensures base { IfOk result (λ out. IsBase context.now.run.now context.now.step out.0) }
        ensures works { IfOk result (λ out. map named out.1.items ≡ tags context.now.run.now (context.now.step - 1) (length context.now.run.now.plan.nodes)) }
        ensures reads { IfOk result (λ out. all_reads out.1.items ≡ self.reads) }
        ensures cause { IfErr result (IsStop context.now.run.now context.now.step) }
    {
        let Graph {
            run: _,
            step,
            base,
            works,
            ran: _,
        } = self;
        let mut base = base;
        let blank = Blank::new(1);
        let changes = changes_of::<Brand>(context, step, &mut base.keys, &base.sources, blank)?;
        base.sources = changed_sources(context, base.sources, changes)?;
        Ok((base, works))
    }

    /// The graph at the next step of its run, by the batch of that step. The gate is called round the work of each node with an
    /// operator. Each operator takes one step, in which it adds to what it read before, and they read no more than their bounds allow.
    /// After a refusal the graph is given up.
    pub fn cycle<R: Threads + Sync, G: Gate>(
        self,
        rt: &R,
        alloc: Global,
        run: &Run,
        workers: u32,
        gate: &G,
    ) -> Result<Graph, Stop>
        requires run { self.run ≡ run.now }
        requires next { self.step < length run.now.batches }
        requires some { 1 ≤ workers }
        requires few { workers ≤ 64 }
        ensures run { IfOk result (λ graph. graph.run ≡ run.now) }
        ensures step { IfOk result (λ graph. graph.step ≡ self.step + 1) }
        ensures batch { OnOk result (batch_fault run.now (self.step + 1) ≡ None) }
        ensures nodes { OnOk result (node_fault 0 (state run.now (self.step + 1)) ≡ None) }
        ensures ran { IfOk result (λ graph. RanOnce run.now.plan graph.ran) }
        ensures order { IfOk result (λ graph. RanInOrder run.now.plan graph.ran) }
        ensures steps { IfOk result (λ graph. SteppedOnce run.now self.reads graph.reads) }
        ensures reads { IfOk result (λ graph. read_in run.now (self.step + 1) graph.reads ≤ most_in run.now (self.step + 1)) }
        ensures cause { IfErr result (IsStop run.now (self.step + 1)) }
    {
        if workers > 1 {
            let mut crew = Crew::new(alloc, workers)?;
            return self.cycle_by(rt, alloc, run, &mut crew, gate);
        }
        let context = CycleContext {
            at: StepContext {
                alloc,
                run,
                step: self.step + 1,
            },
            rt,
            gate,
        };
        let (base, works) = self.take_batch(&context.at)?;
        let sweep = advance_all::<R, G, Brand>(&context, works, &base.sources, Blank::new(1))?;
        let graph = finished(&context.at, base, sweep.works, sweep.ran)?;
        Ok(graph)
    }

    /// The same, worked by a crew, which is kept from step to step. No more threads are started than the crew has hands.
    pub fn cycle_by<R: Threads + Sync, G: Gate>(
        self,
        rt: &R,
        alloc: Global,
        run: &Run,
        crew: &mut Crew,
        gate: &G,
    ) -> Result<Graph, Stop>
        requires run { self.run ≡ run.now }
        requires next { self.step < length run.now.batches }
        ensures run { IfOk result (λ graph. graph.run ≡ run.now) }
        ensures step { IfOk result (λ graph. graph.step ≡ self.step + 1) }
        ensures batch { OnOk result (batch_fault run.now (self.step + 1) ≡ None) }
        ensures nodes { OnOk result (node_fault 0 (state run.now (self.step + 1)) ≡ None) }
        ensures ran { IfOk result (λ graph. RanOnce run.now.plan graph.ran) }
        ensures order { IfOk result (λ graph. RanInOrder run.now.plan graph.ran) }
        ensures steps { IfOk result (λ graph. SteppedOnce run.now self.reads graph.reads) }
        ensures reads { IfOk result (λ graph. read_in run.now (self.step + 1) graph.reads ≤ most_in run.now (self.step + 1)) }
        ensures cause { IfErr result (IsStop run.now (self.step + 1)) }
        ensures size { crew.new.size ≡ crew.old.size }
    {
        let context = CycleContext {
            at: StepContext {
                alloc,
                run,
                step: self.step + 1,
            },
            rt,
            gate,
        };
        let (base, works) = self.take_batch(&context.at)?;
        let (works, ran) = crew_step(&context, works, &base.edges, &base.sources, crew)?;
        let graph = finished(&context.at, base, works, ran)?;
        Ok(graph)
    }

    /// The step at which all nodes stand. The run has reached it.
    pub fn step(&self) -> u64
        ensures step { result ≡ self.now.step }
        ensures lawful { IsLawfulRun self.now.run }
        ensures reached { IsReached self.now.run self.now.step }
    {
        self.step
    }

    /// What is kept of a node.
    fn work(&self, node: u32) -> &Work
        requires { node < length self.now.run.plan.nodes }
        ensures work { named result.now ≡ tag self.now.run self.now.step node }
        ensures reads { result.now.reads ≡ reads_at self.now.reads node }
        ensures defined { is_defined self.now.run self.now.step node ≡ true }
    {
        let works = self.works.as_slice();
        &works[node as usize]
    }

    /// The table of a node, as it is and as it was before the step.
    pub fn table(&self, node: u32) -> &TickTable
        requires { node < length self.now.run.plan.nodes }
        ensures { result.now ≡ ticking (tick self.now.run self.now.step node) }
    {
        self.shared(node)
    }

    /// The same, for another holder.
    pub fn shared(&self, node: u32) -> &Shared
        requires { node < length self.now.run.plan.nodes }
        ensures { arc_value {X = Ticking} result.now ≡ ticking (tick self.now.run self.now.step node) }
    {
        self.work(node).table(&self.base.sources)
    }

    /// The operator of a node. It has taken one step for each step of the run, from the opening to now, and no step read more
    /// cells than the rows allow that it touches.
    pub fn operator(&self, node: u32) -> &Operator
        requires node { node < length self.now.run.plan.nodes }
        requires operator { is_operator self.now.run node ≡ true }
        ensures op { result.now.op ≡ op_at self.now.run node }
        ensures reads { result.now.reads ≡ reads_at self.now.reads node }
        ensures stepped { HasStepped self.now.run (self.now.step + 1) node result.now.reads }
    {
        self.work(node).operator()
    }

    /// The nodes with an operator that were worked for the step, in the order in which they were worked.
    pub fn ran(&self) -> &[u32]
        ensures { result.now ≡ self.now.ran }
    {
        &self.ran
    }
}
