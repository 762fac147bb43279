//! One node of a step: from its work and what its inputs hand to it, to what it hands on.

ghost use Rattle.std.specs.Prelude.{◌≡◌, ◌+◌, ◌<◌, ◌^◌, ℕ, IfOk, OnOk, length, map};
ghost use mathlib.Core.Option.{some};
ghost use lib.ListN.{get_elem?};
ghost use Rattle.graph_words.specs.declared.graph.Edge.{Edge};
ghost use Rattle.graph_words.specs.declared.table.Mark.TheVariants.{Unmarked};
ghost use Rattle.graph_words.specs.Marks.{at};
ghost use Rattle.graph_words.specs.Rule.{IsGiven};
ghost use Rattle.graph_words.specs.Seats.{Has, IsSeatOf};
ghost use Rattle.steal_workers.specs.Holdings.{IsNew};
ghost use Rattle.tick_model.specs.Operators.{inputs_of};
ghost use Rattle.update_graph.specs.Edges.{froms_to};
ghost use Rattle.update_graph.specs.Holdings.{IsForStep};
ghost use Rattle.update_graph.specs.Steps.{IsBegun, IsTaking};
ghost use Rattle.update_graph.specs.Tags.{named, op_at, tag};

use crate::edges::Edges;
use crate::shares::{Share, Shares};
use crate::work::Work;
use graph_words::{ClaimSeat, Claims};
use std::alloc::{AllocError, Global};
use tick_model::feed::Run;

/// The claims on the nodes of a step.
pub(crate) type StepClaims = Claims<Work, Share>;

/// The seat of a worker of a step.
pub(crate) type StepSeat = ClaimSeat<Work, Share>;

/// Takes what the inputs of a node hand to it, in order.
fn take_shares(
    alloc: Global,
    claims: &StepClaims,
    seat: &mut StepSeat,
    edges: &Edges,
    node: u32,
) -> Result<Shares, AllocError>
    requires of { IsSeatOf claims.now seat.old }
    requires edges { edges.now ≡ claims.now.plan.edges.items }
    requires few { length edges.now < 2 ^ 32 }
    requires has { Has seat.old.view node }
    requires untouched { (e : ℕ) (x : Edge) → get_elem? edges.now e ≡ some x → x.to ≡ node → at seat.old.view.ins e ≡ Unmarked }
    ensures of { OnOk result (IsSeatOf claims.now seat.new) }
    ensures parts { seat.new.view.parts ≡ seat.old.view.parts }
    ensures taken { OnOk result (IsTaking edges.now seat.old.view seat.new.view node (length edges.now)) }
    ensures shares { IfOk result (λ shares. shares ≡ map (tag claims.now.plan.first.value.run (claims.now.plan.first.value.step + 1)) (froms_to node edges.now)) }
{
    let mut shares = Shares::new(alloc);
    let numbers = edges.inputs(node);
    for number in numbers {
        let share = claims.take_share(seat, *number);
        shares.push(share)?;
    }
    Ok(shares)
}

/// Takes the work of a node that the seat has, and what its inputs hand to it.
pub(crate) fn begin_node(
    alloc: Global,
    run: &Run,
    claims: &StepClaims,
    seat: &mut StepSeat,
    edges: &Edges,
    node: u32,
) -> Result<(Work, Shares), AllocError>
    requires claims { IsForStep run.now claims.now.plan }
    requires of { IsSeatOf claims.now seat.old }
    requires edges { edges.now ≡ claims.now.plan.edges.items }
    requires node { (node < claims.now.plan.nodes) × (node < length run.now.plan.nodes) }
    requires new { IsNew claims.now.plan seat.old.view node }
    ensures parts { seat.new.view.parts ≡ seat.old.view.parts }
    ensures of { OnOk result (IsSeatOf claims.now seat.new) }
    ensures begun { OnOk result (IsBegun claims.now.plan seat.old.view seat.new.view node) }
    ensures work { IfOk result (λ begun. named begun.0 ≡ tag run.now claims.now.plan.first.value.step node) }
    ensures given { IfOk result (λ begun. IsGiven claims.now.plan node begun.0) }
    ensures shares { IfOk result (λ begun. begun.1 ≡ map (tag run.now (claims.now.plan.first.value.step + 1)) (inputs_of (op_at run.now node))) }
{
    let _ = run;
    let shares = take_shares(alloc, claims, seat, edges, node)?;
    let work = claims.take_work(seat, node);
    Ok((work, shares))
}
