//! The nodes that a seat has: their works, and offers.

ghost use Rattle.std.specs.Prelude.{◌≡◌, ◌<◌, ◌≤◌, ◌+◌, ℕ, IsTrue};
ghost use Rattle.graph_words.specs.declared.table.Mark.TheVariants.{Unmarked, Untaken, Taken, PutBack};
ghost use Rattle.graph_words.specs.Marks.{at, inputs};
ghost use Rattle.graph_words.specs.Rule.{FollowsGiven, IsGiven, IsTagged, tags};
ghost use Rattle.graph_words.specs.Views.{mark_node, mark_ticket, gets, tells, InputsDelivered, IsUntouched};
ghost use Rattle.graph_words.specs.Seats.{IsSeatOf, Has};

use crate::claims::{ClaimSeat, Claims};
use crate::graph::Tagged;
use crate::plays::{
    Accept, Draw, LayBack, LayTaken, LiftEmpty, LiftWork, Offer, Peek, Telling, Told, Untold,
};
use crate::table::Slot;

// The word of a node on offer.
const OFFERED: u64 = u64::MAX;

impl<W: Tagged, H: Tagged> Claims<W, H> {
    /// The number of nodes.
    pub fn nodes(&self) -> u32
        ensures { result ≡ self.now.plan.nodes }
    {
        self.nodes
    }

    /// Tells that there are at most 256 nodes. It does nothing.
    pub fn bound_nodes(&self)
        ensures { self.now.plan.nodes ≤ 256 }
    {
        let _nodes = self.nodes;
    }

    /// Takes the work of a node that the seat has, whose work is not taken yet. It is the one that was given for the node, of the
    /// step before that of the claims.
    pub fn take_work(&self, seat: &mut ClaimSeat<W, H>, node: u32) -> W
        requires of { IsSeatOf self.now seat.old }
        requires node { node < self.now.plan.nodes }
        requires whole { at seat.old.view.nodes node ≡ Untaken }
        ensures of { IsSeatOf self.now seat.new }
        ensures view { seat.new.view ≡ mark_node seat.old.view node Taken }
        ensures tag { IsTagged (tags W.run W.node W.step W.follows) (W.run self.now.plan.first.value) node (W.step self.now.plan.first.value) result }
        ensures given { IsGiven self.now.plan node result }
    {
        let table = &self.table.shared;
        table.load::<LiftWork>(&mut seat.seat, node as usize);
        let found = table.exchange(&mut seat.seat, node as usize, Slot::Empty);
        table.load::<LayTaken>(&mut seat.seat, node as usize);
        let Slot::Work(work) = found else {
            unreachable!()
        };
        work
    }

    /// Puts the work of a node back, with the ticket that it draws, which the answer is.
    fn draw_back<T: Telling>(&self, seat: &mut ClaimSeat<W, H>, node: u32, work: W) -> u64
        requires of { IsSeatOf self.now seat.old }
        requires node { node < self.now.plan.nodes }
        requires taken { at seat.old.view.nodes node ≡ Taken }
        requires tag { IsTagged (tags W.run W.node W.step W.follows) (W.run self.now.plan.first.value) node (W.step self.now.plan.first.value + 1) work }
        requires follows { FollowsGiven W.follows self.now.plan node work }
        ensures of { IsSeatOf self.now seat.new }
        ensures view { seat.new.view ≡ tells T.told node result (mark_node seat.old.view node PutBack) }
    {
        let table = &self.table.shared;
        let tickets = self.nodes as usize + self.edges.len();
        table.load::<LiftEmpty>(&mut seat.seat, node as usize);
        let ticket = table.fetch_add::<Draw<T>>(&mut seat.seat, tickets, 1);
        let found = table.exchange(&mut seat.seat, node as usize, Slot::Done(work, ticket));
        table.load::<LayBack>(&mut seat.seat, node as usize);
        let Slot::Empty = found else { unreachable!() };
        ticket
    }

    /// Puts the work of a node back for the next step, with a ticket that no other node has: tickets rise from 0 by one, in the
    /// order in which they are drawn. The seat has taken the node's work and not put it back, and the work is of the step of
    /// the claims and follows the one that was given for the node.
    pub fn put_back(&self, seat: &mut ClaimSeat<W, H>, node: u32, work: W)
        requires of { IsSeatOf self.now seat.old }
        requires node { node < self.now.plan.nodes }
        requires taken { at seat.old.view.nodes node ≡ Taken }
        requires tag { IsTagged (tags W.run W.node W.step W.follows) (W.run self.now.plan.first.value) node (W.step self.now.plan.first.value + 1) work }
        requires follows { FollowsGiven W.follows self.now.plan node work }
        ensures of { IsSeatOf self.now seat.new }
        ensures view { seat.new.view ≡ mark_node seat.old.view node PutBack }
    {
        self.draw_back::<Untold>(seat, node, work);
    }

    /// Puts the work of a node back as `put_back` does, and tells its ticket, which is the node's place in the list that
    /// `finish_in_order` gives.
    pub fn settle(&self, seat: &mut ClaimSeat<W, H>, node: u32, work: W) -> u64
        requires of { IsSeatOf self.now seat.old }
        requires node { node < self.now.plan.nodes }
        requires taken { at seat.old.view.nodes node ≡ Taken }
        requires tag { IsTagged (tags W.run W.node W.step W.follows) (W.run self.now.plan.first.value) node (W.step self.now.plan.first.value + 1) work }
        requires follows { FollowsGiven W.follows self.now.plan node work }
        ensures of { IsSeatOf self.now seat.new }
        ensures view { seat.new.view ≡ mark_ticket (mark_node seat.old.view node PutBack) node result }
    {
        self.draw_back::<Told>(seat, node, work)
    }

    /// Puts a node on offer, which any seat may then accept. The seat has the node, which has input edges, and has touched
    /// nothing of it: it has taken neither its work nor a share and has delivered no output edge.
    pub fn offer(&self, seat: &mut ClaimSeat<W, H>, node: u32)
        requires of { IsSeatOf self.now seat.old }
        requires node { (node < self.now.plan.nodes) × (0 < inputs node self.now.plan.edges.items) }
        requires whole { at seat.old.view.nodes node ≡ Untaken }
        requires untouched { IsUntouched self.now.plan seat.old.view node }
        ensures of { IsSeatOf self.now seat.new }
        ensures view { seat.new.view ≡ mark_node seat.old.view node Unmarked }
    {
        self.table
            .shared
            .store::<Offer>(&mut seat.seat, node as usize, OFFERED);
    }

    /// Takes a node that is on offer. True exactly where it was, and then the seat has the node, with nothing of it touched.
    ///
    /// A seat that has all parts and has delivered all input edges of the node has it after this call, whatever the answer.
    pub fn accept(&self, seat: &mut ClaimSeat<W, H>, node: u32) -> bool
        requires of { IsSeatOf self.now seat.old }
        requires node { node < self.now.plan.nodes }
        ensures of { IsSeatOf self.now seat.new }
        ensures view { seat.new.view ≡ gets result node seat.old.view }
        ensures fresh { IsTrue result → (at seat.old.view.nodes node ≡ Unmarked) × IsUntouched self.now.plan seat.old.view node }
        ensures alone { seat.old.view.parts ≡ 1024 → InputsDelivered self.now.plan seat.old.view node → Has seat.new.view node }
    {
        let table = &self.table.shared;
        let node = node as usize;
        // Most nodes that are asked for are not on offer, and a read takes no other processor's copy of the word away.
        if table.load::<Peek>(&mut seat.seat, node) != OFFERED {
            return false;
        }
        let found = table.compare_exchange::<Accept>(&mut seat.seat, node, OFFERED, 0);
        found == OFFERED
    }
}
