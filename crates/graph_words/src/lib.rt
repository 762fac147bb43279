//! Claims on the nodes of a graph: who may work which node when, for workers that share nothing but these claims.
//!
//! Claims live through one step of a run. Each node has a word, which counts its input edges that are not delivered, and
//! a slot with its work. Each edge has a slot for the share that `from` hands to `to`, and a word that is read to name it.
//! A worker steps with a seat. A seat has the nodes that it may work, and no node is had by two seats. `start` gives the
//! first seat the nodes without input edges. The delivery of a node's last input edge gives that node to the seat that
//! delivers it. A seat may put a node that it has not touched on offer, and any seat may then accept it.
//!
//! One more word counts the tickets, of which each work that is put back gets one. `hand_on` is a delivery after that: then the
//! ticket of the edge's `from` is less than that of its `to`. `finish_in_order` gives the nodes in order of their tickets.
//!
//! A slot belongs to the seat that has the node, or to the one that has the edge's `from` until the delivery and its `to`
//! after that. It lies in the table except between two steps of one call.
//!
//! No call but `start`, `finish` and `finish_in_order` takes memory, none waits, and none takes a lock.
#![tactic(auto)]

mod claims;
mod edges;
mod finish;
mod graph;
mod laws;
mod nodes;
mod plays;
mod seats;
mod start;
mod table;

pub use claims::{ClaimSeat, Claims};
pub use graph::{Edge, Tagged};
pub use laws::{
    all_parts_are_alone, deliveries_stand_once, marks_go_with_nodes, nodes_are_had_after_inputs,
    nodes_are_had_once, nodes_wait_or_are_ready, parts_stay_together, shares_lie_in_slots,
    tickets_are_drawn_once, tickets_follow_late_edges, told_tickets_are_drawn, works_lie_in_slots,
};
