//! Callers, which read whole tables.

ghost use Rattle.std.specs.Prelude.{◌≡◌, ℕ, ◌+◌, ◌*◌, ◌<◌, ◌≤◌, ◌++◌, [], ◌∷◌, length, slice_index, vec_capacity, IfNone, IfSome, Some};
ghost use Rattle.tick_model.specs.Clock.{completed};
ghost use Rattle.tick_model.specs.Words.{line};
ghost use Rattle.snapshot_store.specs.Answers.{IsAttempt, IsReading, IsRefused, IsSnapshot};
ghost use Rattle.snapshot_store.specs.Lines.{count, size, width};
ghost use Rattle.snapshot_store.specs.Looks.{NeverFalls, latest};
ghost use Rattle.snapshot_store.specs.Models.{IsOf, IsSamePlace};
ghost use Rattle.snapshot_store.specs.Views.{IsSameSight};
ghost use Rattle.snapshot_store.specs.declared.board.Doing.TheVariants.{Reading};

use crate::answers::{Attempt, Taken};
use crate::board::BoardSeat;
use crate::plays::{CountRows, LookFirst, LookLast, ReadWord};
use crate::store::Store;
use logical_clock::ClockValue;
use std::marker::Model;
use std::sync::Wait;

// How far the clock may go past the step completed at the first look: from its idle value until the next step is completed.
// A later step is stored over its words.
const NEAR: u64 = 4;

/// A caller reads whole tables. Contracts see the clock values that it has looked at, the words that it read last, and how
/// often it has asked for the turn while another had it.
#[derive(Drop)]
pub struct Caller {
    pub(crate) place: BoardSeat,
    pub(crate) words: Vec<u64>,
    /// The last look, or 1 before the first.
    pub(crate) seen: u64,
}

impl Model for Caller {
    ghost use Rattle.std.specs.Prelude.{vec_capacity};
    ghost use Rattle.snapshot_store.specs.Models.{CallerModel, IsCalling};
    ghost use Rattle.std.specs.Coded.{codes};
    ghost use Rattle.tick_model.specs.contracts.plan.Expr as expr;
    ghost use Rattle.tick_model.specs.contracts.plan.Pred as pred;

    ghost Value = { CallerModel };

    ghost coded = { Prim.hlevel (codes, expr.the_row.coded, pred.the_row.coded) };

    ghost view = { λ c. record { table = c.place.table_id; run = c.place.me.0.run; looks = c.place.me.0.looks; words = c.words.items; refusals = c.place.me.0.refusals } };

    ghost invariant = { λ c. IsCalling c.place c.seen (vec_capacity c.words) };
}

impl Caller {
    /// The words that were taken last: the number of rows and, for each row, its key and its cells, a cell as the 64 bits
    /// of its two's complement. After an attempt that answers `Moved` they are any words.
    pub fn words(&self) -> &[u64]
        ensures { result.now ≡ self.now.words }
    {
        self.words.as_slice()
    }

    /// The step that was completed at the last look, and 0 before the first.
    pub fn latest(&self) -> u64
        ensures latest { result ≡ latest self.now.looks }
        ensures rises { NeverFalls 1 self.now.looks }
    {
        ClockValue(self.seen).completed()
    }
}

impl Store {
    // Reads the words of a table from the second one on, until there are `end`.
    fn read_rows(
        &self,
        place: &mut BoardSeat,
        words: &mut Vec<u64>,
        number: u32,
        first: u64,
        end: usize,
    )
        requires own { place.old.table_id ≡ self.now.table }
        requires number { number < count self.now.run }
        requires first { 0 < first }
        requires reading { place.old.me.0.doing ≡ Reading number first words.old.items }
        requires begun { length words.old.items ≡ 1 }
        requires size { (end ≡ 1 + slice_index words.old.items 0 * (1 + width self.now.run number)) × (end ≤ size self.now.run number) }
        requires room { end ≤ vec_capacity words.old }
        ensures place { IsSamePlace place.old place.new × IsSameSight place.old.me.0 place.new.me.0 }
        ensures reading { place.new.me.0.doing ≡ Reading number first words.new.items }
        ensures words { (length words.new.items ≡ end) × (slice_index words.new.items 0 ≡ slice_index words.old.items 0) }
        ensures room { vec_capacity words.new ≡ vec_capacity words.old }
    {
        let start = self.first_word(ClockValue(first).completed(), number);
        for i in 1..end {
            let word = self.board.shared.load::<ReadWord>(place, start + i);
            words.push_reserved(word);
        }
    }

    // Reads a table in the bank of the step that is completed at the first look. The first look and the last.
    fn read(&self, place: &mut BoardSeat, words: &mut Vec<u64>, number: u32) -> (u64, u64)
        requires own { IsOf self.now place.old.table_id place.old.me.0.run }
        requires number { number < count self.now.run }
        requires room { size self.now.run number ≤ vec_capacity words.old }
        ensures reading { IsReading self.now.run number place.old place.new words.new.items result.0 result.1 }
        ensures room { vec_capacity words.new ≡ vec_capacity words.old }
    {
        let first = self.board.shared.load::<LookFirst>(place, 0);
        let start = self.first_word(ClockValue(first).completed(), number);
        let rows = self.board.shared.load::<CountRows>(place, start);
        let end = 1 + rows as usize * (1 + self.layout.width(number));
        words.clear();
        words.push_reserved(rows);
        self.read_rows(place, words, number, first, end);
        let last = self.board.shared.load::<LookLast>(place, 0);
        (first, last)
    }

    /// Reads a table in the bank of the step that is completed at the first of two looks at the clock. It takes no lock and
    /// no memory.
    ///
    /// It answers `Taken` of that step exactly where the last look is below `2 * step + 4`, and the words are then the
    /// table's at that step. Else it answers `Moved` of the two looks.
    pub fn attempt(&self, caller: &mut Caller, number: u32) -> Attempt
        requires own { IsOf self.now caller.old.table caller.old.run }
        requires number { number < count self.now.run }
        ensures own { IsOf self.now caller.new.table caller.new.run }
        ensures attempt { IsAttempt self.now.run number caller.old caller.new result }
        ensures refusals { caller.new.refusals ≡ caller.old.refusals }
        ensures rises { NeverFalls 1 caller.new.looks }
    {
        let (first, last) = self.read(&mut caller.place, &mut caller.words, number);
        caller.seen = last;
        let step = ClockValue(first).completed();
        if last - 2 * step < NEAR {
            Attempt::Taken { step }
        } else {
            Attempt::Moved { first, last }
        }
    }

    // With the turn, where it is free, the first reading is taken. The step whose words were taken.
    fn read_with_turn(&self, caller: &mut Caller, number: u32) -> Option<u64>
        requires own { IsOf self.now caller.old.table caller.old.run }
        requires number { number < count self.now.run }
        ensures own { IsOf self.now caller.new.table caller.new.run }
        ensures reading { IfSome result (λ step. (first : ℕ) × (caller.new.looks ≡ caller.old.looks ++ first ∷ first ∷ []) × (step ≡ completed first) × (latest caller.old.looks ≤ completed first) × (caller.new.words ≡ line self.now.run (completed first) number)) }
        ensures refused { IfNone result ((caller.new.looks ≡ caller.old.looks) × (caller.new.refusals ≡ caller.old.refusals + 1)) }
        ensures rises { NeverFalls 1 caller.new.looks }
    {
        if !self.try_turn(&mut caller.place) {
            return None;
        }
        let (first, last) = self.read(&mut caller.place, &mut caller.words, number);
        self.give_turn(&mut caller.place);
        caller.seen = last;
        Some(ClockValue(first).completed())
    }

    /// Takes a table by at most so many attempts, and then, where no other has it, with the turn, which it gives back. It never
    /// waits: where each attempt answers `Moved` and another has the turn, it answers `None`.
    pub fn try_snapshot(&self, caller: &mut Caller, number: u32, attempts: u32) -> Option<Taken>
        requires own { IsOf self.now caller.old.table caller.old.run }
        requires number { number < count self.now.run }
        ensures own { IsOf self.now caller.new.table caller.new.run }
        ensures snapshot { IfSome result (IsSnapshot self.now.run number attempts caller.old caller.new) }
        ensures refused { IfNone result (IsRefused attempts caller.old caller.new) }
        ensures rises { NeverFalls 1 caller.new.looks }
    {
        for tried in 0..attempts {
            if let Attempt::Taken { step } = self.attempt(caller, number) {
                return Some(Taken {
                    step,
                    tries: tried + 1,
                    locked: false,
                });
            }
        }
        let step = self.read_with_turn(caller, number)?;
        Some(Taken {
            step,
            tries: attempts,
            locked: true,
        })
    }

    /// Takes a table: by at most so many attempts, and then with the turn, for which it may wait and which it gives back.
    pub fn snapshot<R: Wait>(
        &self,
        rt: &R,
        caller: &mut Caller,
        number: u32,
        attempts: u32,
    ) -> Taken
        requires own { IsOf self.now caller.old.table caller.old.run }
        requires number { number < count self.now.run }
        ensures own { IsOf self.now caller.new.table caller.new.run }
        ensures snapshot { IsSnapshot self.now.run number attempts caller.old caller.new result }
        ensures rises { NeverFalls 1 caller.new.looks }
    {
        if let Some(taken) = self.try_snapshot(caller, number, attempts) {
            return taken;
        }
        for _ in rt.forever() {
            self.await_turn(rt);
            if let Some(taken) = self.try_snapshot(caller, number, 0) {
                return Taken {
                    tries: attempts,
                    ..taken
                };
            }
        }
        unreachable!()
    }
}
