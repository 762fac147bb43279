//! What the rule of the claims' table says of the words, the slots and the seats' views, whatever steps the seats have made.

ghost use Rattle.std.specs.Prelude.{◌≡◌};
ghost use Rattle.atomic_table.specs.Table.{State};
ghost use Rattle.graph_words.specs.declared.graph.ClaimPlan.{ClaimPlan};
ghost use Rattle.graph_words.specs.declared.table.Slot.{Slot};
ghost use Rattle.graph_words.specs.declared.table.SeatView.{SeatView};
ghost use Rattle.graph_words.specs.Rule.{all_parts, tags};
ghost use Rattle.graph_words.specs.Seats.{IsLateByFrom, IsMarkedByFrom, IsMarkedByTo};
ghost use Rattle.graph_words.specs.Sentences.{IsAloneWithAllParts, IsDeliveredByFrom, IsDeliveredOnce, IsHadAfterInputs, IsHadOnce, IsInOneState, IsSharedInParts, IsTicketedInOrder, IsTicketedOnce, IsToldTruly, OfEach, SharesLie, WorksLie};

use crate::graph::{ClaimPlan, Tagged};
use crate::plays::ClaimRule;
use crate::table::{SeatView, Slot};
use atomic_table::TableRule;

/// A node waits while one of its input edges is not delivered. After that it is on offer or had by a seat, and one without
/// input edges is had. The word of a node on offer is `OFFERED`, and every other word is the number of the node's input edges
/// that are not delivered.
pub fn nodes_wait_or_are_ready<W: Tagged, H: Tagged>()
    ensures { (plan : ClaimPlan W) (s : State (Slot W H) (SeatView W)) → ⟦<ClaimRule as TableRule<Slot<W, H>, SeatView<W>, ClaimPlan<W>>>⟧.holds plan s → IsInOneState plan s }
{}

/// No node is had by two seats.
pub fn nodes_are_had_once<W: Tagged, H: Tagged>()
    ensures { (plan : ClaimPlan W) (s : State (Slot W H) (SeatView W)) → ⟦<ClaimRule as TableRule<Slot<W, H>, SeatView<W>, ClaimPlan<W>>>⟧.holds plan s → IsHadOnce plan s.views }
{}

/// A node that a seat has, has all its input edges delivered.
pub fn nodes_are_had_after_inputs<W: Tagged, H: Tagged>()
    ensures { (plan : ClaimPlan W) (s : State (Slot W H) (SeatView W)) → ⟦<ClaimRule as TableRule<Slot<W, H>, SeatView<W>, ClaimPlan<W>>>⟧.holds plan s → IsHadAfterInputs plan s.views }
{}

/// A delivered edge stands in one view, and that is the view of the seat that has its `from` node.
pub fn deliveries_stand_once<W: Tagged, H: Tagged>()
    ensures once { (plan : ClaimPlan W) (s : State (Slot W H) (SeatView W)) → ⟦<ClaimRule as TableRule<Slot<W, H>, SeatView<W>, ClaimPlan<W>>>⟧.holds plan s → IsDeliveredOnce plan s.views }
    ensures from { (plan : ClaimPlan W) (s : State (Slot W H) (SeatView W)) → ⟦<ClaimRule as TableRule<Slot<W, H>, SeatView<W>, ClaimPlan<W>>>⟧.holds plan s → IsDeliveredByFrom plan s.views }
{}

/// A seat has a mark of an edge, as an output edge, as one that was handed on late or as an input edge, only where it has that
/// edge's node.
pub fn marks_go_with_nodes<W: Tagged, H: Tagged>()
    ensures from { (plan : ClaimPlan W) (s : State (Slot W H) (SeatView W)) → ⟦<ClaimRule as TableRule<Slot<W, H>, SeatView<W>, ClaimPlan<W>>>⟧.holds plan s → OfEach s.views (IsMarkedByFrom plan) }
    ensures late { (plan : ClaimPlan W) (s : State (Slot W H) (SeatView W)) → ⟦<ClaimRule as TableRule<Slot<W, H>, SeatView<W>, ClaimPlan<W>>>⟧.holds plan s → OfEach s.views (IsLateByFrom plan) }
    ensures to { (plan : ClaimPlan W) (s : State (Slot W H) (SeatView W)) → ⟦<ClaimRule as TableRule<Slot<W, H>, SeatView<W>, ClaimPlan<W>>>⟧.holds plan s → OfEach s.views (IsMarkedByTo plan) }
{}

/// The slot of a node has the work that was given for it, of the step before, until a seat that has the node takes it, nothing
/// until that seat puts it back, and then the work of this step, which follows the one that was given, and the ticket that was
/// drawn for the node.
pub fn works_lie_in_slots<W: Tagged, H: Tagged>()
    ensures { (plan : ClaimPlan W) (s : State (Slot W H) (SeatView W)) → ⟦<ClaimRule as TableRule<Slot<W, H>, SeatView<W>, ClaimPlan<W>>>⟧.holds plan s → WorksLie (tags W.run W.node W.step W.follows) (tags H.run H.node H.step H.follows) plan s }
{}

/// The slot of an edge is empty until the edge is delivered, has a share of this step from `from` then, and is empty once the
/// share is taken. It is out only where a seat has it in hand.
pub fn shares_lie_in_slots<W: Tagged, H: Tagged>()
    ensures { (plan : ClaimPlan W) (s : State (Slot W H) (SeatView W)) → ⟦<ClaimRule as TableRule<Slot<W, H>, SeatView<W>, ClaimPlan<W>>>⟧.holds plan s → SharesLie (tags W.run W.node W.step W.follows) (tags H.run H.node H.step H.follows) plan s }
{}

/// The parts of all seats are 1,024 together. A seat that has a node has a part, and it has the plan exactly where it has a
/// part.
pub fn parts_stay_together<W: Tagged, H: Tagged>()
    ensures all { (plan : ClaimPlan W) (s : State (Slot W H) (SeatView W)) → ⟦<ClaimRule as TableRule<Slot<W, H>, SeatView<W>, ClaimPlan<W>>>⟧.holds plan s → all_parts s.views ≡ 1024 }
    ensures each { (plan : ClaimPlan W) (s : State (Slot W H) (SeatView W)) → ⟦<ClaimRule as TableRule<Slot<W, H>, SeatView<W>, ClaimPlan<W>>>⟧.holds plan s → IsSharedInParts plan s.views }
{}

/// Where a seat has all parts, no other seat has a node.
pub fn all_parts_are_alone<W: Tagged, H: Tagged>()
    ensures { (plan : ClaimPlan W) (s : State (Slot W H) (SeatView W)) → ⟦<ClaimRule as TableRule<Slot<W, H>, SeatView<W>, ClaimPlan<W>>>⟧.holds plan s → IsAloneWithAllParts plan s.views }
{}

/// No two nodes have one ticket, and each ticket is below the word of the tickets.
pub fn tickets_are_drawn_once<W: Tagged, H: Tagged>()
    ensures { (plan : ClaimPlan W) (s : State (Slot W H) (SeatView W)) → ⟦<ClaimRule as TableRule<Slot<W, H>, SeatView<W>, ClaimPlan<W>>>⟧.holds plan s → IsTicketedOnce plan s }
{}

/// Where an edge was handed on after its `from` node was put back, a ticket was drawn for `from`, which is less than that of
/// `to` once `to` has one.
pub fn tickets_follow_late_edges<W: Tagged, H: Tagged>()
    ensures { (plan : ClaimPlan W) (s : State (Slot W H) (SeatView W)) → ⟦<ClaimRule as TableRule<Slot<W, H>, SeatView<W>, ClaimPlan<W>>>⟧.holds plan s → IsTicketedInOrder plan s }
{}

/// The ticket of a node that a seat was told is that of the node's slot.
pub fn told_tickets_are_drawn<W: Tagged, H: Tagged>()
    ensures { (plan : ClaimPlan W) (s : State (Slot W H) (SeatView W)) → ⟦<ClaimRule as TableRule<Slot<W, H>, SeatView<W>, ClaimPlan<W>>>⟧.holds plan s → IsToldTruly plan s }
{}
