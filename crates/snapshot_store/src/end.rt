//! The end of a store.

ghost use Rattle.std.specs.Prelude.{◌≡◌, ◌≤◌, All, Some};
ghost use Rattle.snapshot_store.specs.Looks.{last_or, latest};
ghost use Rattle.snapshot_store.specs.Models.{IsOf, IsSamePlace};

use crate::answers::Ended;
use crate::board::BoardSeat;
use crate::callers::Caller;
use crate::plays::StoreSplit;
use crate::store::Store;
use crate::writers::Writer;
use tick_model::items::Items;

impl Store {
    // Takes in what the callers have seen.
    fn gather(&self, place: &mut BoardSeat, callers: Items<Caller>)
        requires own { place.old.table_id ≡ self.now.table }
        requires callers { All (λ caller. IsOf self.now caller.table caller.run) callers }
        ensures place { IsSamePlace place.old place.new × (place.new.me.0.doing ≡ place.old.me.0.doing) }
        ensures floor { All (λ caller. last_or 1 caller.looks ≤ place.new.me.0.floor) callers }
    {
        let mut callers = callers.into_vec();
        while let Some(caller) = callers.pop() {
            let Caller {
                place: other,
                words: _,
                seen: _,
            } = caller;
            self.board.shared.join_seat::<StoreSplit>(place, other);
        }
    }

    /// The last completed step. No caller has seen a later one.
    pub fn end(self, writer: Writer, callers: Items<Caller>) -> Ended
        requires own { IsOf self writer.table writer.run }
        requires callers { All (λ caller. IsOf self caller.table caller.run) callers }
        ensures step { result.step ≡ writer.step }
        ensures callers { All (λ caller. latest caller.looks ≤ result.step) callers }
    {
        let Writer {
            mut place,
            step,
            phase: _,
            words: _,
        } = writer;
        self.gather(&mut place, callers);
        let Store {
            board,
            layout: _,
            sleepers: _,
        } = self;
        board.close_with(place).free();
        Ended { step }
    }
}
