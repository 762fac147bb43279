//! What a crew's hand does to a node of a step.

ghost use Rattle.std.specs.Prelude.{◌≡◌, ◌+◌, ◌<◌, ◌^◌, ℕ, IfOk, OnOk, length, map, true};
ghost use mathlib.Core.Option.{some};
ghost use lib.ListN.{get_elem?};
ghost use Rattle.graph_words.specs.declared.graph.Edge.{Edge};
ghost use Rattle.graph_words.specs.declared.table.Mark.TheVariants.{Unmarked, PutBack};
ghost use Rattle.graph_words.specs.Marks.{at};
ghost use Rattle.graph_words.specs.Seats.{AtEdge, Has, IsSeatOf};
ghost use Rattle.steal_workers.specs.Lists.{IsListed};
ghost use Rattle.tick_model.specs.Operators.{inputs_of};
ghost use Rattle.update_graph.specs.Edges.{edges_of};
ghost use Rattle.update_graph.specs.Entered.{IsEntered};
ghost use Rattle.update_graph.specs.Stands.{Follows};
ghost use Rattle.update_graph.specs.Steps.{IsHandedOver, IsHanding};
ghost use Rattle.update_graph.specs.Tags.{is_operator, named, op_at, tag};

use crate::context::StepContext;
use crate::edges::Edges;
use crate::shares::{Share, Shares};
use crate::work::Work;
use crate::worker::{StepClaims, StepSeat, begin_node};
use new_counts::new_count;
use std::alloc::{AllocError, Global};
use std::marker::{Brand, Model};
use std::sync::ledger::{Blank, Ledger};
use steal_workers::{NodeWork, Ready};
use tick_io::{Gate, Inside};
use tick_model::feed::Run;
use tick_table::Steps;

/// Hands a share on along an edge, whose `from` node is put back. A node that this makes ready is added to the list.
fn hand_over(
    claims: &StepClaims,
    seat: &mut StepSeat,
    edge: u32,
    to: u32,
    share: Share,
    ready: &mut Ready,
)
    requires of { IsSeatOf claims.now seat.old }
    requires edge { edge < length claims.now.plan.edges.items }
    requires to { AtEdge claims.now.plan edge (λ x. (x.to ≡ to) × (x.from < x.to) × (x.to < claims.now.plan.nodes)) }
    requires from { AtEdge claims.now.plan edge (λ x. at seat.old.view.nodes x.from ≡ PutBack) }
    requires fresh { at seat.old.view.outs edge ≡ Unmarked }
    requires share { AtEdge claims.now.plan edge (λ x. share ≡ tag claims.now.plan.first.value.run (claims.now.plan.first.value.step + 1) x.from) }
    requires below { to < 256 }
    requires listed { (m : ℕ) → IsListed ready.old.nodes.items m → Has seat.old.view m }
    ensures of { IsSeatOf claims.now seat.new }
    ensures over { IsHandedOver claims.now.plan seat.old.view seat.new.view edge to ready.old.nodes.items ready.new.nodes.items }
{
    if claims.hand_on(seat, edge, share) {
        ready.add(to);
    }
}

/// Hands on what a node that is put back hands on along each of its edges. All nodes that this makes ready are added to the list.
pub(crate) fn hand_all(
    claims: &StepClaims,
    seat: &mut StepSeat,
    run: &Run,
    edges: &Edges,
    node: u32,
    share: &Share,
    ready: &mut Ready,
) -> Result<(), AllocError>
    requires of { IsSeatOf claims.now seat.old }
    requires edges { edges.now ≡ claims.now.plan.edges.items }
    requires few { length edges.now < 2 ^ 32 }
    requires ends { (e : ℕ) (x : Edge) → get_elem? edges.now e ≡ some x → (x.from < x.to) × (x.to < claims.now.plan.nodes) }
    requires below { (e : ℕ) (x : Edge) → get_elem? edges.now e ≡ some x → x.to < 256 }
    requires back { at seat.old.view.nodes node ≡ PutBack }
    requires untouched { (e : ℕ) (x : Edge) → get_elem? edges.now e ≡ some x → x.from ≡ node → at seat.old.view.outs e ≡ Unmarked }
    requires run { run.now ≡ claims.now.plan.first.value.run }
    requires share { share.now ≡ tag run.now (claims.now.plan.first.value.step + 1) node }
    requires listed { (m : ℕ) → IsListed ready.old.nodes.items m → Has seat.old.view m }
    ensures parts { seat.new.view.parts ≡ seat.old.view.parts }
    ensures of { OnOk result (IsSeatOf claims.now seat.new) }
    ensures handed { OnOk result (IsHanding claims.now.plan seat.old.view seat.new.view node (length edges.now) ready.old.nodes.items ready.new.nodes.items) }
{
    let numbers = edges.outputs(node);
    for number in numbers {
        let copy = share.copy(run)?;
        let to = edges.to(*number);
        hand_over(claims, seat, *number, to, copy, ready);
    }
    Ok(())
}

/// What is kept of a node at the step, and what it hands on, with this counter of the cells that are read.
fn advanced<L: Ledger>(
    context: &StepContext<'_>,
    node: u32,
    work: Work,
    shares: Shares,
    inside: &Inside,
    blank: Blank,
) -> Result<(Work, Share), AllocError>
    requires name { blank.name ≡ L.name }
    requires parts { blank.parts ≡ L.parts }
    requires some { 0 < blank.parts }
    requires inside { inside.now.node ≡ node }
    requires work { named work ≡ tag context.now.run.now work.step node }
    requires next { work.step + 1 ≡ context.now.step }
    requires entered { IsEntered context.now.run.now context.now.step }
    requires node { node < length context.now.run.now.plan.nodes }
    requires operator { is_operator context.now.run.now node ≡ true }
    requires shares { shares ≡ map (tag context.now.run.now context.now.step) (inputs_of (op_at context.now.run.now node)) }
    ensures work { IfOk result (λ out. named out.0 ≡ tag context.now.run.now context.now.step node) }
    ensures follows { IfOk result (λ out. Follows work out.0) }
    ensures share { IfOk result (λ out. out.1 ≡ tag context.now.run.now context.now.step node) }
{
    let mut reads = Steps::<L>::new(blank, new_count());
    work.take_step(context, node, shares, &mut reads, inside)
}

/// What the hands of a crew work the nodes of a step by. A contract sees the run, the step and the edges.
#[derive(Drop)]
pub(crate) struct StepWork<'s, G: Gate> {
    context: &'s StepContext<'s>,
    edges: &'s Edges,
    gate: &'s G,
}

impl<'s, G: Gate> Model for StepWork<'s, G> {
    ghost use Rattle.std.specs.Coded.{codes};
    ghost use Rattle.std.specs.Prelude.{◌≡◌};
    ghost use Rattle.tick_model.specs.contracts.plan.Expr as expr_type;
    ghost use Rattle.tick_model.specs.contracts.plan.Pred as pred_type;
    ghost use Rattle.update_graph.specs.Crews.{StepView};
    ghost use Rattle.update_graph.specs.Edges.{edges_of};
    ghost use Rattle.update_graph.specs.Entered.{IsEntered};

    ghost Value = { StepView };

    ghost coded = { Prim.hlevel (codes, expr_type.the_row.coded, pred_type.the_row.coded) };

    ghost view = { λ work. record { run = work.context.now.run.now; step = work.context.now.step; edges = work.edges.now } };

    ghost invariant = { λ work. IsEntered work.context.now.run.now work.context.now.step × (work.edges.now ≡ edges_of work.context.now.run.now.plan) };
}

impl<'s, G: Gate> StepWork<'s, G> {
    /// The work of the nodes for a step that the run enters.
    pub(crate) fn new(
        context: &'s StepContext<'s>,
        edges: &'s Edges,
        gate: &'s G,
    ) -> StepWork<'s, G>
        requires entered { IsEntered context.now.run.now context.now.step }
        requires edges { edges.now ≡ edges_of context.now.run.now.plan }
        ensures { result ≡ record { run = context.now.run.now; step = context.now.step; edges = edges.now } }
    {
        StepWork {
            context,
            edges,
            gate,
        }
    }
}

impl<'s, G: Gate> NodeWork<Work, Share> for StepWork<'s, G> {
    ghost run = { λ work. work.run };

    ghost step = { λ work. work.step };

    ghost edges = { λ work. work.edges };

    fn work(
        &self,
        claims: &StepClaims,
        seat: &mut StepSeat,
        node: u32,
        ready: &mut Ready,
    ) -> Result<(), AllocError> {
        let context = self.context;
        let run = context.run;
        claims.look(seat);
        let (work, shares) = begin_node(context.alloc, run, claims, seat, self.edges, node)?;
        let inside = self.gate.admit(node);
        let worked = advanced::<Brand>(context, node, work, shares, &inside, Blank::new(1));
        self.gate.dismiss(inside);
        let (next, share) = worked?;
        claims.put_back(seat, node, next);
        hand_all(claims, seat, run, self.edges, node, &share, ready)?;
        Ok(())
    }
}
