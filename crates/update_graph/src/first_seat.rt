//! The sources of a step, whose tables the first seat hands on before the crew begins.

ghost use Rattle.std.specs.Prelude.{◌≡◌, ◌+◌, ◌<◌, IfOk, OnOk, false};
ghost use Rattle.graph_words.specs.Seats.{IsSeatOf};
ghost use Rattle.graph_words.specs.Views.{first_view};
ghost use Rattle.steal_workers.specs.Holdings.{IsHeld, SourcesBack};
ghost use Rattle.steal_workers.specs.Lists.{IsListed};
ghost use Rattle.update_graph.specs.Graphs.{AreSources};
ghost use Rattle.update_graph.specs.Holdings.{IsClaimed, IsOpened};
ghost use Rattle.update_graph.specs.Tags.{is_operator, named, tag};

use crate::context::StepContext;
use crate::edges::Edges;
use crate::shares::Share;
use crate::step_work::hand_all;
use crate::sweep::source_at;
use crate::work::Work;
use crate::worker::{StepClaims, StepSeat};
use std::alloc::AllocError;
use steal_workers::Ready;
use tick_model::feed::Run;
use tick_model::sources::is_source;
use tick_table::Shared;

/// Puts the work of a source back, and hands on its table. The nodes that this makes ready are added to the list.
fn open_source(
    run: &Run,
    claims: &StepClaims,
    seat: &mut StepSeat,
    edges: &Edges,
    node: u32,
    work: Work,
    share: &Share,
    ready: &mut Ready,
) -> Result<(), AllocError>
    requires claimed { IsClaimed run.now claims.now.plan }
    requires of { IsSeatOf claims.now seat.old }
    requires edges { edges.now ≡ claims.now.plan.edges.items }
    requires node { node < claims.now.plan.nodes }
    requires source { is_operator run.now node ≡ false }
    requires work { named work ≡ tag run.now (claims.now.plan.first.value.step + 1) node }
    requires share { share.now ≡ tag run.now (claims.now.plan.first.value.step + 1) node }
    requires opened { IsOpened run.now claims.now.plan seat.old.view node ready.old.nodes.items }
    ensures of { OnOk result (IsSeatOf claims.now seat.new) }
    ensures opened { OnOk result (IsOpened run.now claims.now.plan seat.new.view (node + 1) ready.new.nodes.items) }
{
    drop(claims.take_work(seat, node));
    claims.put_back(seat, node, work);
    hand_all(claims, seat, run, edges, node, share, ready)?;
    Ok(())
}

/// Hands on the tables of all sources. The nodes that this makes ready.
pub(crate) fn open_sources(
    context: &StepContext<'_>,
    claims: &StepClaims,
    seat: &mut StepSeat,
    edges: &Edges,
    sources: &[Shared],
) -> Result<Ready, AllocError>
    requires claimed { IsClaimed context.now.run.now claims.now.plan }
    requires step { context.now.step ≡ claims.now.plan.first.value.step + 1 }
    requires of { IsSeatOf claims.now seat.old }
    requires edges { edges.now ≡ claims.now.plan.edges.items }
    requires sources { AreSources context.now.run.now context.now.step sources.now }
    requires first { seat.old.view ≡ first_view claims.now.plan }
    ensures of { OnOk result (IsSeatOf claims.now seat.new) }
    ensures held { IfOk result (λ ready. IsHeld claims.now.plan seat.new.view (IsListed ready.nodes.items)) }
    ensures sources { OnOk result (SourcesBack claims.now.plan seat.new.view) }
    ensures parts { OnOk result (seat.new.view.parts ≡ 1024) }
{
    let run = context.run;
    let mut place = 0;
    let mut ready = Ready::new();
    let nodes = run.plan.nodes.as_slice();
    for node in 0..claims.nodes() {
        if is_source(&nodes[node as usize]) {
            let (work, share) = source_at(run, context.step, node, sources, place)?;
            open_source(run, claims, seat, edges, node, work, &share, &mut ready)?;
            place += 1;
        }
    }
    Ok(ready)
}
