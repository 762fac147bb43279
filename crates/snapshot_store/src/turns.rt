//! The turn, which is the update lock, and how callers wait for it.

ghost use Rattle.std.specs.Prelude.{◌≡◌, ◌+◌, IsFalse, IsTrue, true, false};
ghost use Rattle.snapshot_store.specs.Models.{IsSamePlace};
ghost use Rattle.snapshot_store.specs.Views.{IsQuiet, IsSameBut};

use crate::board::BoardSeat;
use crate::plays::{GiveTurn, TakeTurn};
use crate::store::Store;
use std::hint::spin_loop;
use std::sync::Wait;
use std::sync::atomic::Ordering;

// The word of the turn, and what it is where the turn is free or held.
const TURN: usize = 1;

const FREE: u64 = 0;

const HELD: u64 = 1;

// How often a caller looks at the turn before it sleeps. A reading of a small table takes no longer.
const LOOKS: u32 = 100;

impl Store {
    /// Takes the turn where it is free, and answers whether it was.
    pub(crate) fn try_turn(&self, place: &mut BoardSeat) -> bool
        requires own { place.old.table_id ≡ self.now.table }
        requires quiet { IsQuiet place.old.me.0.doing }
        ensures place { IsSamePlace place.old place.new × IsSameBut place.old.me.0 place.new.me.0 }
        ensures taken { IsTrue result → place.new.me.0.turn ≡ true }
        ensures refused { IsFalse result → (place.new.me.0.turn ≡ place.old.me.0.turn) × (place.new.me.0.refusals ≡ place.old.me.0.refusals + 1) }
    {
        let found = self
            .board
            .shared
            .compare_exchange::<TakeTurn>(place, TURN, FREE, HELD);
        found == FREE
    }

    /// Lets a caller wait while another has the turn. It looks at the turn for a while, and then sleeps until it is given back. It
    /// may return while another has it.
    pub(crate) fn await_turn<R: Wait>(&self, rt: &R) {
        for _ in 0..LOOKS {
            if self.board.shared.peek(TURN) == FREE {
                return;
            }
            spin_loop();
        }
        self.sleepers.fetch_add(1, Ordering::SeqCst);
        self.board.shared.park(rt, TURN, HELD as u32);
        self.sleepers.fetch_sub(1, Ordering::SeqCst);
    }

    /// Gives the turn back, and wakes a caller that sleeps, where one does. It is counted before it looks at the turn for the last
    /// time, so that none sleeps on beside a free turn.
    pub(crate) fn give_turn(&self, place: &mut BoardSeat)
        requires own { place.old.table_id ≡ self.now.table }
        requires quiet { IsQuiet place.old.me.0.doing }
        requires turn { place.old.me.0.turn ≡ true }
        ensures place { IsSamePlace place.old place.new × IsSameBut place.old.me.0 place.new.me.0 }
        ensures turn { place.new.me.0.turn ≡ false }
    {
        self.board.shared.store::<GiveTurn>(place, TURN, FREE);
        if self.sleepers.load(Ordering::SeqCst) > 0 {
            self.board.shared.wake_one(TURN);
        }
    }
}
