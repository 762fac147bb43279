//! The rule of the claims, and what each step on a word tells. These types have no values: they are for proofs alone.

ghost use Rattle.std.specs.Prelude.{Bool};

use crate::graph::{ClaimPlan, Tagged};
use crate::table::{SeatView, Slot};
use atomic_table::{Join, Play, Split, TableRule};
use std::marker::PhantomData;

/// The rule that the table keeps.
pub struct ClaimRule;

impl<W: Tagged, H: Tagged> TableRule<Slot<W, H>, SeatView<W>, ClaimPlan<W>> for ClaimRule {
    ghost use Rattle.graph_words.specs.Rule.{KeepsRule, tags};
    ghost use Rattle.graph_words.specs.Views.{first_view};

    ghost holds = { λ k s. KeepsRule (tags W.run W.node W.step W.follows) (tags H.run H.node H.step H.follows) k s };

    ghost first = { λ k. first_view k };
}

/// Lays the slot of a node down, whose work was taken.
pub struct LayTaken;

impl<W, H> Play<Slot<W, H>, SeatView<W>> for LayTaken {
    ghost use Rattle.graph_words.specs.Plays.{lays_work};
    ghost use Rattle.graph_words.specs.declared.table.Mark.TheVariants.{Taken};

    ghost then = { lays_work Taken };
}

/// Lays the slot of a node down, whose work was put back.
pub struct LayBack;

impl<W, H> Play<Slot<W, H>, SeatView<W>> for LayBack {
    ghost use Rattle.graph_words.specs.Plays.{lays_work};
    ghost use Rattle.graph_words.specs.declared.table.Mark.TheVariants.{PutBack};

    ghost then = { lays_work PutBack };
}

/// Whether the ticket that is drawn for a node is told.
pub trait Telling {
    ghost told: { Bool };
}

/// It is told.
pub struct Told;

impl Telling for Told {
    ghost use Rattle.std.specs.Prelude.{true};

    ghost told = { true };
}

/// It is not told.
pub struct Untold;

impl Telling for Untold {
    ghost use Rattle.std.specs.Prelude.{false};

    ghost told = { false };
}

/// Draws a ticket for the node whose slot the seat has.
pub struct Draw<T> {
    marker: PhantomData<T>,
}

impl<W, H, T: Telling> Play<Slot<W, H>, SeatView<W>> for Draw<T> {
    ghost use Rattle.graph_words.specs.Plays.{draws};

    ghost then = { draws T.told };
}

/// Lifts the empty slot of a node.
pub struct LiftEmpty;

impl<W, H> Play<Slot<W, H>, SeatView<W>> for LiftEmpty {
    ghost use Rattle.graph_words.specs.Plays.{lifts_empty};

    ghost then = { lifts_empty };
}

/// Lifts the slot of an edge, to be delivered.
pub struct LiftOut;

impl<W, H> Play<Slot<W, H>, SeatView<W>> for LiftOut {
    ghost use Rattle.graph_words.specs.Plays.{lifts_out};

    ghost then = { lifts_out };
}

/// Marks an edge as one that is handed on after its `from` node had its ticket.
pub struct HandOn;

impl<W, H> Play<Slot<W, H>, SeatView<W>> for HandOn {
    ghost use Rattle.graph_words.specs.Plays.{hands_on};

    ghost then = { hands_on };
}

/// Lays the slot of an edge down, delivered.
pub struct Deliver;

impl<W, H> Play<Slot<W, H>, SeatView<W>> for Deliver {
    ghost use Rattle.graph_words.specs.Plays.{delivers};

    ghost then = { delivers };
}

/// Lays the slot of an edge down, whose share was taken.
pub struct LayIn;

impl<W, H> Play<Slot<W, H>, SeatView<W>> for LayIn {
    ghost use Rattle.graph_words.specs.Plays.{lays_in};

    ghost then = { lays_in };
}

/// Puts a node on offer.
pub struct Offer;

impl<W, H> Play<Slot<W, H>, SeatView<W>> for Offer {
    ghost use Rattle.graph_words.specs.Plays.{offers};

    ghost then = { offers };
}

/// Reads whether a node is on offer.
pub struct Peek;

impl<W, H> Play<Slot<W, H>, SeatView<W>> for Peek {
    ghost use Rattle.graph_words.specs.Plays.{peeks};

    ghost then = { peeks };
}

/// Takes a node that is on offer.
pub struct Accept;

impl<W, H> Play<Slot<W, H>, SeatView<W>> for Accept {
    ghost use Rattle.graph_words.specs.Plays.{accepts};

    ghost then = { accepts };
}

/// Lifts the slot of a node with its work.
pub struct LiftWork;

impl<W: Tagged, H: Tagged> Play<Slot<W, H>, SeatView<W>> for LiftWork {
    ghost use Rattle.graph_words.specs.Rule.{tags};
    ghost use Rattle.graph_words.specs.Plays.{lifts_work};

    ghost then = { lifts_work (tags W.run W.node W.step W.follows) (tags H.run H.node H.step H.follows) };
}

/// Lifts the slot of an edge with its share.
pub struct LiftIn;

impl<W: Tagged, H: Tagged> Play<Slot<W, H>, SeatView<W>> for LiftIn {
    ghost use Rattle.graph_words.specs.Rule.{tags};
    ghost use Rattle.graph_words.specs.Plays.{lifts_in};

    ghost then = { lifts_in (tags W.run W.node W.step W.follows) (tags H.run H.node H.step H.follows) };
}

/// Tells how a seat's marks stand to the edges, and that the rule holds.
pub struct Look;

impl<W: Tagged, H: Tagged> Play<Slot<W, H>, SeatView<W>> for Look {
    ghost use Rattle.graph_words.specs.Rule.{tags};
    ghost use Rattle.graph_words.specs.Plays.{looks};

    ghost then = { looks (tags W.run W.node W.step W.follows) (tags H.run H.node H.step H.follows) };
}

/// How a view is split, and how two are joined.
pub struct GraphSplit;

impl<W> Split<SeatView<W>> for GraphSplit {
    ghost use Rattle.graph_words.specs.Views.{less_one, one_part};

    ghost left = { λ v. less_one v };

    ghost right = { λ v. one_part v };
}

impl<W> Join<SeatView<W>> for GraphSplit {
    ghost use Rattle.graph_words.specs.Views.{both_views, spent_view};

    ghost both = { λ v w. both_views v w };

    ghost spent = { spent_view };
}
