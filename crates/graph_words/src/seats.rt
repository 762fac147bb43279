//! Seats are split and joined, and looked at.

ghost use Rattle.std.specs.Prelude.{◌≡◌, ◌<◌, ℕ};
ghost use Rattle.atomic_table.specs.Table.{Seen, State};
ghost use Rattle.graph_words.specs.declared.table.Slot.{Slot};
ghost use Rattle.graph_words.specs.declared.table.SeatView.{SeatView};
ghost use Rattle.graph_words.specs.Views.{less_one, one_part, both_views};
ghost use Rattle.graph_words.specs.Seats.{IsLateByFrom, IsMarkedByFrom, IsSeatOf, IsUpward};

use crate::claims::{ClaimSeat, Claims};
use crate::graph::{ClaimPlan, Tagged};
use crate::plays::{ClaimRule, GraphSplit, Look};
use crate::table::{SeatView, Slot};
use atomic_table::TableRule;

impl<W: Tagged, H: Tagged> Claims<W, H> {
    /// Tells how a seat's marks stand to the edges, whatever steps were made, and that the rule of the claims' table holds of
    /// a state in which the seat has its view. So the laws do. It changes nothing.
    pub fn look(&self, seat: &mut ClaimSeat<W, H>)
        requires of { IsSeatOf self.now seat.old }
        ensures same { seat.new ≡ seat.old }
        ensures upward { IsUpward self.now.plan }
        ensures marks { IsMarkedByFrom self.now.plan seat.old.view }
        ensures late { IsLateByFrom self.now.plan seat.old.view }
        ensures met { (id : ℕ) × (s : State (Slot W H) (SeatView W)) × Seen (⟦<ClaimRule as TableRule<Slot<W, H>, SeatView<W>, ClaimPlan<W>>>⟧.holds self.now.plan) id seat.old.view s }
    {
        self.table.shared.load::<Look>(&mut seat.seat, 0);
    }

    /// A new seat with one part of this one, and no node. The seat has more than one part.
    pub fn split(&self, seat: &mut ClaimSeat<W, H>) -> ClaimSeat<W, H>
        requires of { IsSeatOf self.now seat.old }
        requires parts { 1 < seat.old.view.parts }
        ensures old { IsSeatOf self.now seat.new × (seat.new.view ≡ less_one seat.old.view) }
        ensures new { IsSeatOf self.now result × (result.view ≡ one_part seat.old.view) }
    {
        let other = self.table.shared.split_seat::<GraphSplit>(&mut seat.seat);
        ClaimSeat { seat: other }
    }

    /// Gives the seat all that the other has: parts, nodes and what it has delivered and taken.
    pub fn join(&self, seat: &mut ClaimSeat<W, H>, other: ClaimSeat<W, H>)
        requires of { IsSeatOf self.now seat.old }
        requires other { IsSeatOf self.now other }
        ensures of { IsSeatOf self.now seat.new }
        ensures view { seat.new.view ≡ both_views seat.old.view other.view }
    {
        let ClaimSeat { seat: other } = other;
        self.table
            .shared
            .join_seat::<GraphSplit>(&mut seat.seat, other);
    }
}
