//! The edges of the nodes that a seat has: shares are delivered and taken.

ghost use Rattle.std.specs.Prelude.{◌≡◌, ◌<◌, ◌+◌, IsTrue, length};
ghost use Rattle.graph_words.specs.declared.table.Mark.TheVariants.{Unmarked, Taken, PutBack, Delivered};
ghost use Rattle.graph_words.specs.Marks.{at};
ghost use Rattle.graph_words.specs.Rule.{IsTagged, tags};
ghost use Rattle.graph_words.specs.Views.{mark_out, mark_late, mark_in, gets, InputsDelivered, IsUntouched};
ghost use Rattle.graph_words.specs.Seats.{IsSeatOf, AtEdge, Has};

use crate::claims::{ClaimSeat, Claims};
use crate::graph::Tagged;
use crate::plays::{Deliver, HandOn, LayIn, LiftIn, LiftOut};
use crate::table::Slot;

impl<W: Tagged, H: Tagged> Claims<W, H> {
    /// Delivers the share of an edge whose `from` node the seat has and that is not delivered yet. The share is of that node
    /// and of the step of the claims.
    ///
    /// True exactly where it was the last input edge of the node `to` that was not delivered. Then the seat has that node,
    /// and has touched nothing of it. So it is true for a seat that has delivered each input edge of that node.
    pub fn deliver(&self, seat: &mut ClaimSeat<W, H>, edge: u32, share: H) -> bool
        requires of { IsSeatOf self.now seat.old }
        requires edge { edge < length self.now.plan.edges.items }
        requires from { AtEdge self.now.plan edge (λ x. Has seat.old.view x.from) }
        requires fresh { at seat.old.view.outs edge ≡ Unmarked }
        requires tag { AtEdge self.now.plan edge (λ x. IsTagged (tags H.run H.node H.step H.follows) (W.run self.now.plan.first.value) x.from (W.step self.now.plan.first.value + 1) share) }
        ensures of { IsSeatOf self.now seat.new }
        ensures view { AtEdge self.now.plan edge (λ x. seat.new.view ≡ gets result x.to (mark_out seat.old.view edge Delivered)) }
        ensures fresh { AtEdge self.now.plan edge (λ x. (at seat.old.view.nodes x.to ≡ Unmarked) × IsUntouched self.now.plan seat.old.view x.to) }
        ensures last { AtEdge self.now.plan edge (λ x. InputsDelivered self.now.plan seat.new.view x.to → IsTrue result) }
    {
        let table = &self.table.shared;
        let to = self.edges[edge as usize].to as usize;
        let slot = self.nodes as usize + edge as usize;
        // A plain read: the word that it is of says which edge's slot is lifted.
        table.load::<LiftOut>(&mut seat.seat, slot);
        let empty = table.exchange(&mut seat.seat, slot, Slot::Share(share));
        let found = table.fetch_sub::<Deliver>(&mut seat.seat, to, 1);
        let Slot::Empty = empty else { unreachable!() };
        found == 1
    }

    /// Delivers the share of an edge as `deliver` does, where the seat has put the work of the `from` node back. So the ticket
    /// of `from` is less than the one that is drawn for `to`, and `finish_in_order` gives `from` before `to`.
    pub fn hand_on(&self, seat: &mut ClaimSeat<W, H>, edge: u32, share: H) -> bool
        requires of { IsSeatOf self.now seat.old }
        requires edge { edge < length self.now.plan.edges.items }
        requires from { AtEdge self.now.plan edge (λ x. at seat.old.view.nodes x.from ≡ PutBack) }
        requires fresh { at seat.old.view.outs edge ≡ Unmarked }
        requires tag { AtEdge self.now.plan edge (λ x. IsTagged (tags H.run H.node H.step H.follows) (W.run self.now.plan.first.value) x.from (W.step self.now.plan.first.value + 1) share) }
        ensures of { IsSeatOf self.now seat.new }
        ensures view { AtEdge self.now.plan edge (λ x. seat.new.view ≡ gets result x.to (mark_out (mark_late seat.old.view edge Delivered) edge Delivered)) }
        ensures fresh { AtEdge self.now.plan edge (λ x. (at seat.old.view.nodes x.to ≡ Unmarked) × IsUntouched self.now.plan seat.old.view x.to) }
        ensures last { AtEdge self.now.plan edge (λ x. InputsDelivered self.now.plan seat.new.view x.to → IsTrue result) }
    {
        // Before the delivery, since until then no seat has `to`, which so has no ticket.
        let slot = self.nodes as usize + edge as usize;
        self.table.shared.load::<HandOn>(&mut seat.seat, slot);
        self.deliver(seat, edge, share)
    }

    /// Takes the share of an input edge of a node that the seat has, which is not taken yet. It is of the edge's `from` node
    /// and of the step of the claims.
    pub fn take_share(&self, seat: &mut ClaimSeat<W, H>, edge: u32) -> H
        requires of { IsSeatOf self.now seat.old }
        requires edge { edge < length self.now.plan.edges.items }
        requires to { AtEdge self.now.plan edge (λ x. Has seat.old.view x.to) }
        requires fresh { at seat.old.view.ins edge ≡ Unmarked }
        ensures of { IsSeatOf self.now seat.new }
        ensures view { seat.new.view ≡ mark_in seat.old.view edge Taken }
        ensures tag { AtEdge self.now.plan edge (λ x. IsTagged (tags H.run H.node H.step H.follows) (W.run self.now.plan.first.value) x.from (W.step self.now.plan.first.value + 1) result) }
    {
        let table = &self.table.shared;
        let slot = self.nodes as usize + edge as usize;
        // A plain read: the word that it is of says which edge's slot is lifted.
        table.load::<LiftIn>(&mut seat.seat, slot);
        let found = table.exchange(&mut seat.seat, slot, Slot::Empty);
        table.load::<LayIn>(&mut seat.seat, 0);
        let Slot::Share(share) = found else {
            unreachable!()
        };
        share
    }
}
