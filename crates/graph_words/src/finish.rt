//! The end of the claims: the works come back.

ghost use Rattle.std.specs.Prelude.{◌≡◌, ◌<◌, ◌+◌, ℕ, IfOk, vec_len};
ghost use mathlib.Core.Option.{some};
ghost use lib.ListN.{get_elem?};
ghost use Rattle.graph_words.specs.declared.table.Mark.TheVariants.{Drawn, PutBack};
ghost use Rattle.graph_words.specs.Marks.{at};
ghost use Rattle.graph_words.specs.Rule.{FollowsGiven, IsTagged, tags};
ghost use Rattle.graph_words.specs.Seats.{HasEachOnce, IsAfterInputs, IsSeatOf};

use crate::claims::{ClaimSeat, Claims};
use crate::graph::Tagged;
use crate::table::Slot;
use std::alloc::AllocError;

impl<W: Tagged, H: Tagged> Claims<W, H> {
    /// Gives the works back, in order of the nodes. Each names the run, its node and the step of the claims, and follows the one
    /// that was given for the node. The seat is one that has every node, with each work put back.
    pub fn finish(self, seat: ClaimSeat<W, H>) -> Result<Vec<W>, AllocError>
        requires of { IsSeatOf self seat }
        requires all { (n : ℕ) → n < self.plan.nodes → at seat.view.nodes n ≡ PutBack }
        ensures len { IfOk result (λ works. vec_len works ≡ self.plan.nodes) }
        ensures tags { IfOk result (λ works. (n : ℕ) (w : _) → get_elem? works.items n ≡ some w → IsTagged (tags W.run W.node W.step W.follows) (W.run self.plan.first.value) n (W.step self.plan.first.value + 1) w) }
        ensures follows { IfOk result (λ works. (n : ℕ) (w : _) → get_elem? works.items n ≡ some w → FollowsGiven W.follows self.plan n w) }
    {
        let (works, order) = self.finish_in_order(seat)?;
        drop(order);
        Ok(works)
    }

    /// Gives the works back as `finish` does, and the nodes in order of their tickets, which is the order in which the tickets
    /// were drawn: a node whose ticket was told has it as its place in the list. Where an edge was handed on after its `from` node was put back, `from` stands before `to`.
    pub fn finish_in_order(self, seat: ClaimSeat<W, H>) -> Result<(Vec<W>, Vec<u32>), AllocError>
        requires of { IsSeatOf self seat }
        requires all { (n : ℕ) → n < self.plan.nodes → at seat.view.nodes n ≡ PutBack }
        ensures len { IfOk result (λ t. vec_len t.0 ≡ self.plan.nodes) }
        ensures tags { IfOk result (λ t. (n : ℕ) (w : _) → get_elem? t.0.items n ≡ some w → IsTagged (tags W.run W.node W.step W.follows) (W.run self.plan.first.value) n (W.step self.plan.first.value + 1) w) }
        ensures follows { IfOk result (λ t. (n : ℕ) (w : _) → get_elem? t.0.items n ≡ some w → FollowsGiven W.follows self.plan n w) }
        ensures tickets { IfOk result (λ t. (n q : ℕ) → n < self.plan.nodes → at seat.view.tickets n ≡ Drawn q → get_elem? t.1.items q ≡ some n) }
        ensures once { IfOk result (λ t. HasEachOnce self.plan.nodes t.1.items) }
        ensures inputs { IfOk result (λ t. IsAfterInputs self.plan seat.view t.1.items) }
    {
        let Claims {
            nodes,
            edges: _,
            inputs: _,
            alloc,
            table,
        } = self;
        let ClaimSeat { seat } = seat;
        let nodes = nodes as usize;
        let mut works = Vec::with_capacity(alloc, nodes)?;
        let mut order = vec![in alloc; 0u32; nodes]?;
        let mut closed = table.close_with(seat);
        let mut i = 0;
        'works: while i < nodes {
            let Slot::Done(work, ticket) = closed.take(i) else {
                unreachable!()
            };
            works.push_reserved(work);
            order[ticket as usize] = i as u32;
            i += 1;
        }
        'shares: while i < closed.slot_count() {
            drop(closed.take(i));
            i += 1;
        }
        closed.free();
        Ok((works, order))
    }
}
