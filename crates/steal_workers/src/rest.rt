//! The end of a step: the one seat that has all parts works what is left.

ghost use Rattle.std.specs.Prelude.{◌≡◌, ◌+◌, ◌<◌, ℕ, OnOk};
ghost use Rattle.graph_words.specs.declared.table.Mark.TheVariants.{PutBack};
ghost use Rattle.graph_words.specs.Marks.{at};
ghost use Rattle.graph_words.specs.Rule.{tags};
ghost use Rattle.graph_words.specs.Seats.{IsSeatOf};
ghost use Rattle.steal_workers.specs.Holdings.{AllBack, AllLate, IsFor, IsGoneOn, IsHeld, NoNode, OnlyNode, SourcesBack};

use crate::hand::{accept_node, offer_all, work_node};
use crate::ready::Ready;
use crate::work::NodeWork;
use graph_words::{ClaimSeat, Claims, Tagged};
use std::alloc::AllocError;

/// Works a node that the seat has, and puts those that this makes ready on offer.
fn work_alone<W: Tagged, H: Tagged, N: NodeWork<W, H>>(
    claims: &Claims<W, H>,
    seat: &mut ClaimSeat<W, H>,
    work: &N,
    node: u32,
) -> Result<(), AllocError>
    requires meant { IsFor (tags W.run W.node W.step W.follows) (N.run work.now) (N.step work.now) (N.edges work.now) claims.now.plan }
    requires of { IsSeatOf claims.now seat.old }
    requires held { IsHeld claims.now.plan seat.old.view (OnlyNode node) }
    ensures of { OnOk result (IsSeatOf claims.now seat.new) }
    ensures held { OnOk result (IsHeld claims.now.plan seat.new.view NoNode) }
    ensures on { OnOk result (IsGoneOn seat.old.view seat.new.view) }
    ensures back { OnOk result (at seat.new.view.nodes node ≡ PutBack) }
{
    let kept = Ready::new();
    let mut found = Ready::new();
    work_node(claims, seat, work, node, &kept, &mut found)?;
    offer_all(claims, seat, &mut found);
    Ok(())
}

/// Works each node that is on offer, in order of their numbers, with a seat that has all parts.
pub(crate) fn work_rest<W: Tagged, H: Tagged, N: NodeWork<W, H>>(
    claims: &Claims<W, H>,
    seat: &mut ClaimSeat<W, H>,
    work: &N,
) -> Result<(), AllocError>
    requires meant { IsFor (tags W.run W.node W.step W.follows) (N.run work.now) (N.step work.now) (N.edges work.now) claims.now.plan }
    requires of { IsSeatOf claims.now seat.old }
    requires alone { seat.old.view.parts ≡ 1024 }
    requires held { IsHeld claims.now.plan seat.old.view NoNode }
    requires sources { SourcesBack claims.now.plan seat.old.view }
    ensures of { OnOk result (IsSeatOf claims.now seat.new) }
    ensures all { OnOk result (AllBack claims.now.plan seat.new.view) }
    ensures late { OnOk result (AllLate claims.now.plan seat.new.view) }
{
    claims.look(seat);
    for node in 0..claims.nodes() {
        match accept_node(claims, seat, node) {
            Some(found) => {
                work_alone(claims, seat, work, found)?;
            }
            None => {}
        }
    }
    Ok(())
}
