//! What the table behind the claims has: its slots, and what each seat knows.

use crate::graph::ClaimPlan;
use std::collections::LinkedList;

/// What a slot has.
#[derive(Drop)]
pub enum Slot<W, H> {
    Empty,
    /// The work that was given for the node.
    Work(W),
    /// The work of this step, which follows the one that was given, and the ticket that was drawn for its node.
    Done(W, u64),
    Share(H),
}

/// What a seat knows of a node or of an edge.
pub enum Mark {
    /// The seat does not have the node, has not delivered the edge, or has not taken its share.
    Unmarked,
    /// The slot is out with the seat, between two steps of one call.
    InHand,
    /// It is out with the seat, which has drawn this ticket for the node.
    Drawn(u64),
    /// The seat has the node, and has not taken its work.
    Untaken,
    /// The seat has the node and has taken its work, or has taken the edge's share.
    Taken,
    /// The seat has the node, and has put its work back.
    PutBack,
    /// The seat has delivered the edge.
    Delivered,
}

/// What a seat knows: the plan, its parts, and its marks of the nodes, of the edges as output edges, of those that it handed
/// on after it had put the node's work back, and of the edges as input edges, and the tickets that it was told. No value of it
/// is made.
pub struct SeatView<W> {
    pub plan: Option<ClaimPlan<W>>,
    pub parts: u64,
    pub nodes: LinkedList<Mark>,
    pub outs: LinkedList<Mark>,
    pub late: LinkedList<Mark>,
    pub ins: LinkedList<Mark>,
    pub tickets: LinkedList<Mark>,
}
