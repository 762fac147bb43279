//! A step of all nodes, worked by a crew: claims are made on them, the first seat hands on the sources' tables, and the hands of
//! the crew work the rest.

ghost use Rattle.std.specs.Prelude.{◌≡◌, ◌+◌, ◌-◌, ◌<◌, ◌≤◌, ◌++◌, ◌∷◌, [], ℕ, IfOk, OnOk, filter, if◌then◌else◌, length, map};
ghost use mathlib.Core.Option.{some};
ghost use lib.ListN.{get_elem?};
ghost use Rattle.graph_words.specs.Seats.{IsSeatOf};
ghost use Rattle.graph_words.specs.Views.{first_view};
ghost use Rattle.steal_workers.specs.Holdings.{AllBack, AllLate};
ghost use Rattle.update_graph.specs.Edges.{edges_of};
ghost use Rattle.update_graph.specs.Entered.{IsEntered};
ghost use Rattle.update_graph.specs.Graphs.{AreSources, RanInOrder, RanOnce};
ghost use Rattle.update_graph.specs.Holdings.{IsClaimed};
ghost use Rattle.update_graph.specs.Stands.{Follows, ForEach};
ghost use Rattle.update_graph.specs.Tags.{is_operator, named, tags};

use crate::context::{CycleContext, StepContext};
use crate::edges::Edges;
use crate::first_seat::open_sources;
use crate::step_work::StepWork;
use crate::work::Work;
use crate::worker::{StepClaims, StepSeat};
use std::alloc::{AllocError, Global};
use std::thread::Threads;
use steal_workers::Crew;
use tick_io::Gate;
use tick_model::feed::Run;
use tick_model::sources::is_source;
use tick_table::Shared;

/// The claims on all nodes for a step, and the first seat.
fn begin_step(
    context: &StepContext<'_>,
    works: Vec<Work>,
    edges: &Edges,
) -> Result<(StepClaims, StepSeat), AllocError>
    requires entered { IsEntered context.now.run.now context.now.step }
    requires later { 1 ≤ context.now.step }
    requires works { map named works.items ≡ tags context.now.run.now (context.now.step - 1) (length context.now.run.now.plan.nodes) }
    requires some { 0 < length works.items }
    requires edges { edges.now ≡ edges_of context.now.run.now.plan }
    ensures claimed { IfOk result (λ begun. IsClaimed context.now.run.now begun.0.plan) }
    ensures works { IfOk result (λ begun. begun.0.plan.works.value.items ≡ works.items) }
    ensures step { IfOk result (λ begun. context.now.step ≡ begun.0.plan.first.value.step + 1) }
    ensures edges { IfOk result (λ begun. edges.now ≡ begun.0.plan.edges.items) }
    ensures of { IfOk result (λ begun. IsSeatOf begun.0 begun.1) }
    ensures first { IfOk result (λ begun. begun.1.view ≡ first_view begun.0.plan) }
{
    let nodes = works.len() as u32;
    let own = edges.copied(context.alloc)?;
    let (claims, seat) = StepClaims::start(context.alloc, nodes, own, works)?;
    Ok((claims, seat))
}

/// One more node of those that were worked, where it has an operator.
fn put_operator(run: &Run, node: u32, ran: &mut Vec<u32>) -> Result<(), AllocError>
    requires { node < length run.now.plan.nodes }
    ensures { OnOk result (ran.new.items ≡ ran.old.items ++ (if is_operator run.now node then node ∷ [] else [])) }
{
    if is_source(&run.plan.nodes.as_slice()[node as usize]) {
        return Ok(());
    }
    ran.push(node)?;
    Ok(())
}

/// Those of these nodes that have an operator, in the same order.
fn operators_in(alloc: Global, run: &Run, nodes: &[u32]) -> Result<Vec<u32>, AllocError>
    requires { (i k : ℕ) → get_elem? nodes.now i ≡ some k → k < length run.now.plan.nodes }
    ensures { IfOk result (λ ran. ran.items ≡ filter (is_operator run.now) nodes.now) }
{
    let mut ran = Vec::new(alloc);
    for node in nodes {
        put_operator(run, *node, &mut ran)?;
    }
    Ok(ran)
}

/// What all nodes keep at the step of their claims, and the nodes with an operator, in the order in which they were worked. The
/// seat has put all of it back.
fn end_step(
    context: &StepContext<'_>,
    claims: StepClaims,
    seat: StepSeat,
) -> Result<(Vec<Work>, Vec<u32>), AllocError>
    requires claimed { IsClaimed context.now.run.now claims.plan }
    requires of { IsSeatOf claims seat }
    requires all { AllBack claims.plan seat.view }
    requires late { AllLate claims.plan seat.view }
    ensures works { IfOk result (λ ended. map named ended.0.items ≡ tags context.now.run.now (claims.plan.first.value.step + 1) (length context.now.run.now.plan.nodes)) }
    ensures follows { IfOk result (λ ended. ForEach Follows claims.plan.works.value.items ended.0.items) }
    ensures ran { IfOk result (λ ended. RanOnce context.now.run.now.plan ended.1.items) }
    ensures order { IfOk result (λ ended. RanInOrder context.now.run.now.plan ended.1.items) }
{
    let (works, order) = claims.finish_in_order(seat)?;
    let ran = operators_in(context.alloc, context.run, order.as_slice())?;
    Ok((works, ran))
}

/// Works all nodes that are claimed.
fn work_claimed<R: Threads + Sync, G: Gate>(
    context: &CycleContext<'_, R, G>,
    claims: &StepClaims,
    seat: StepSeat,
    edges: &Edges,
    sources: &[Shared],
    crew: &mut Crew,
) -> Result<StepSeat, AllocError>
    requires claimed { IsClaimed context.now.at.run.now claims.now.plan }
    requires step { context.now.at.step ≡ claims.now.plan.first.value.step + 1 }
    requires of { IsSeatOf claims.now seat }
    requires edges { edges.now ≡ claims.now.plan.edges.items }
    requires sources { AreSources context.now.at.run.now context.now.at.step sources.now }
    requires first { seat.view ≡ first_view claims.now.plan }
    ensures size { crew.new.size ≡ crew.old.size }
    ensures of { IfOk result (λ worked. IsSeatOf claims.now worked) }
    ensures all { IfOk result (λ worked. AllBack claims.now.plan worked.view) }
    ensures late { IfOk result (λ worked. AllLate claims.now.plan worked.view) }
{
    let mut seat = seat;
    let at = &context.at;
    let ready = open_sources(at, claims, &mut seat, edges, sources)?;
    let work = StepWork::new(at, edges, context.gate);
    crew.run(context.rt, claims, seat, ready, &work)
}

/// What all nodes keep at the next step, from what they keep at this one, and the nodes with an operator, in the order in which
/// they were worked. The tables are those of the sources at the next step.
pub(crate) fn crew_step<R: Threads + Sync, G: Gate>(
    context: &CycleContext<'_, R, G>,
    works: Vec<Work>,
    edges: &Edges,
    sources: &[Shared],
    crew: &mut Crew,
) -> Result<(Vec<Work>, Vec<u32>), AllocError>
    requires entered { IsEntered context.now.at.run.now context.now.at.step }
    requires later { 1 ≤ context.now.at.step }
    requires works { map named works.items ≡ tags context.now.at.run.now (context.now.at.step - 1) (length context.now.at.run.now.plan.nodes) }
    requires edges { edges.now ≡ edges_of context.now.at.run.now.plan }
    requires sources { AreSources context.now.at.run.now context.now.at.step sources.now }
    ensures size { crew.new.size ≡ crew.old.size }
    ensures works { IfOk result (λ ended. map named ended.0.items ≡ tags context.now.at.run.now context.now.at.step (length context.now.at.run.now.plan.nodes)) }
    ensures follows { IfOk result (λ ended. ForEach Follows works.items ended.0.items) }
    ensures ran { IfOk result (λ ended. RanOnce context.now.at.run.now.plan ended.1.items) }
    ensures order { IfOk result (λ ended. RanInOrder context.now.at.run.now.plan ended.1.items) }
{
    let at = &context.at;
    if works.is_empty() {
        return Ok((works, Vec::new(at.alloc)));
    }
    let (claims, seat) = begin_step(at, works, edges)?;
    let seat = work_claimed(context, &claims, seat, edges, sources, crew)?;
    let (works, ran) = end_step(at, claims, seat)?;
    Ok((works, ran))
}
