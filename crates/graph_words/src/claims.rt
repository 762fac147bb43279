//! The claims of one step, and the seats that workers step with.

use crate::graph::{ClaimPlan, Edge, Tagged};
use crate::plays::ClaimRule;
use crate::table::{SeatView, Slot};
use atomic_table::{Seat, Table};
use std::alloc::Global;
use std::marker::Model;

/// The claims of one step. Contracts see the table behind them and the plan, which is the table's key.
#[derive(Drop)]
pub struct Claims<W: Tagged, H: Tagged> {
    pub(crate) nodes: u32,
    pub(crate) edges: Vec<Edge>,
    /// The table's words at the start: for each node how many of the edges go to it, then 0 for each edge
    /// and for the tickets.
    pub(crate) inputs: Vec<u64>,
    pub(crate) alloc: Global,
    pub(crate) table: Table<Slot<W, H>, SeatView<W>, ClaimPlan<W>, ClaimRule, Global>,
}

impl<W: Tagged, H: Tagged> Model for Claims<W, H> {
    ghost use Rattle.graph_words.specs.Models.{ClaimsModel, IsSound};

    ghost Value = { ClaimsModel W };

    ghost view = { λ c. record { table = c.table.shared.table_id; plan = c.table.shared.key } };

    ghost invariant = { λ c. IsSound c.nodes c.edges.items c.inputs.items c.table.shared.table_id c.table.shared.key };
}

/// A seat: a worker's token, which has no bytes. It may work the nodes that it has. Contracts see what it knows.
#[derive(Drop)]
pub struct ClaimSeat<W, H> {
    pub(crate) seat: Seat<Slot<W, H>, SeatView<W>>,
}

impl<W, H> Model for ClaimSeat<W, H> {
    ghost use Rattle.std.specs.Prelude.{◌≡◌, []};
    ghost use Rattle.graph_words.specs.Models.{SeatModel};

    ghost Value = { SeatModel W };

    ghost view = { λ s. record { table = s.seat.table_id; view = s.seat.me.0 } };

    ghost invariant = { λ s. s.seat.me.1 ≡ [] };
}
