//! What working a node means to a crew.

ghost use Rattle.std.specs.Prelude.{◌≡◌, [], ℕ, List, OnOk};
ghost use Rattle.graph_words.specs.declared.graph.Edge.{Edge};
ghost use Rattle.graph_words.specs.declared.table.Mark.TheVariants.{Unmarked};
ghost use Rattle.graph_words.specs.Marks.{at};
ghost use Rattle.graph_words.specs.Rule.{tags};
ghost use Rattle.graph_words.specs.Seats.{IsSeatOf};
ghost use Rattle.tick_model.specs.declared.feed.Run.{Run};
ghost use Rattle.steal_workers.specs.Lists.{IsListed};
ghost use Rattle.steal_workers.specs.Holdings.{IsFor, IsReady, IsSettled, KeepsOthers};

use crate::ready::Ready;
use graph_words::{ClaimSeat, Claims, Tagged};
use std::alloc::AllocError;

/// The work of the nodes of a step, for one run, one step and one list of edges.
pub trait NodeWork<W: Tagged, H: Tagged>: Sync {
    ghost run: { Self → Run };

    ghost step: { Self → ℕ };

    ghost edges: { Self → List Edge };

    /// Works a node that the seat has and has not begun: its work is put back for the next step, and then its output edges are
    /// handed on. The nodes that this makes ready are added to the list, which is empty before.
    ///
    /// The seat keeps its other nodes as they were. After an error, which is that memory ran out, the claims are given up.
    fn work(
        &self,
        claims: &Claims<W, H>,
        seat: &mut ClaimSeat<W, H>,
        node: u32,
        ready: &mut Ready,
    ) -> Result<(), AllocError>
        requires meant { IsFor (tags W.run W.node W.step W.follows) (run self.now) (step self.now) (edges self.now) claims.now.plan }
        requires of { IsSeatOf claims.now seat.old }
        requires node { IsReady claims.now.plan seat.old.view node }
        requires empty { ready.old.nodes.items ≡ [] }
        ensures parts { seat.new.view.parts ≡ seat.old.view.parts }
        ensures of { OnOk result (IsSeatOf claims.now seat.new) }
        ensures settled { OnOk result (IsSettled claims.now.plan seat.new.view node) }
        ensures ready { OnOk result ((m : ℕ) → IsListed ready.new.nodes.items m → IsReady claims.now.plan seat.new.view m) }
        ensures came { OnOk result ((m : ℕ) → IsListed ready.new.nodes.items m → at seat.old.view.nodes m ≡ Unmarked) }
        ensures others { OnOk result (KeepsOthers claims.now.plan seat.old.view seat.new.view node ready.new.nodes.items) };
}
