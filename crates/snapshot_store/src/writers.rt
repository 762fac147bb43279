//! The writer, which publishes step after step.

ghost use Rattle.std.specs.Prelude.{◌≡◌, ◌≢◌, ◌+◌, ◌^◌, ◌<◌, ◌≤◌, ◌%◌, length, slice_index, IsFalse, IsTrue, MatchResult, Some};
ghost use Rattle.tick_model.specs.Clock.{updating};
ghost use Rattle.tick_laws.specs.Reached.{KeepsRules};
ghost use Rattle.snapshot_store.specs.Answers.{IsFull};
ghost use Rattle.snapshot_store.specs.Lines.{count, limit, size, line_of, published_table};
ghost use Rattle.snapshot_store.specs.Models.{IsOf, IsSamePlace, words_of};
ghost use Rattle.snapshot_store.specs.Views.{IsSameSight};
ghost use Rattle.snapshot_store.specs.declared.board.Doing.TheVariants.{Writing};

use crate::answers::Full;
use crate::board::BoardSeat;
use crate::plays::{FindWord, SetClock, StoreWord};
use crate::rows::copy_table;
use crate::store::Store;
use logical_clock::ClockValue;
use std::marker::Model;
use std::sync::Wait;
use std::thread;
use tick_table::TickTable;

/// What a writer may do next.
#[derive(Clone, Copy, Debug, PartialEq, Eq)]
pub enum Phase {
    /// Begin the next step.
    Idle,
    /// Put the next table of the step that was begun: so many were put. Or finish it, where that is all of them, or abandon
    /// it.
    Begun(u32),
    /// Abandon the step: a table had more rows than its limit.
    Stopped,
    /// Nothing: the step was abandoned.
    Left,
}

/// The writer publishes the tables of step after step. Contracts see the last completed step, what it may do next, and how
/// often it has asked for the turn while a caller had it.
#[derive(Drop)]
pub struct Writer {
    pub(crate) place: BoardSeat,
    pub(crate) step: u64,
    pub(crate) phase: Phase,
    /// Room for the words of the largest table.
    pub(crate) words: Vec<u64>,
}

impl Model for Writer {
    ghost use Rattle.std.specs.Prelude.{vec_capacity};
    ghost use Rattle.snapshot_store.specs.Models.{WriterModel, IsWriting};
    ghost use Rattle.std.specs.Coded.{codes};
    ghost use Rattle.tick_model.specs.contracts.plan.Expr as expr;
    ghost use Rattle.tick_model.specs.contracts.plan.Pred as pred;

    ghost Value = { WriterModel };

    ghost coded = { Prim.hlevel (codes, expr.the_row.coded, pred.the_row.coded) };

    ghost view = { λ w. record { table = w.place.table_id; run = w.place.me.0.run; step = w.step; phase = w.phase; refusals = w.place.me.0.refusals } };

    ghost invariant = { λ w. IsWriting w.place w.step w.phase (vec_capacity w.words) };
}

impl Store {
    /// Begins the next step where no caller has the turn: it takes the turn, and sets the clock to updating. It never waits:
    /// where a caller has the turn it answers false, and nothing is begun.
    pub fn try_begin(&self, writer: &mut Writer) -> bool
        requires own { IsOf self.now writer.old.table writer.old.run }
        requires idle { writer.old.phase ≡ Phase.Idle }
        requires room { writer.old.step + 1 < 2 ^ 62 }
        ensures own { IsOf self.now writer.new.table writer.new.run }
        ensures step { writer.new.step ≡ writer.old.step }
        ensures begun { IsTrue result → writer.new.phase ≡ Phase.Begun 0 }
        ensures refused { IsFalse result → (writer.new.phase ≡ Phase.Idle) × (writer.new.refusals ≡ writer.old.refusals + 1) }
    {
        if !self.try_turn(&mut writer.place) {
            return false;
        }
        let clock = ClockValue::updating(writer.step + 1);
        self.board
            .shared
            .store::<SetClock>(&mut writer.place, 0, clock.0);
        writer.phase = Phase::Begun(0);
        true
    }

    /// Begins the next step: it takes the turn, for which it waits while a caller has it, and sets the clock to updating. It does
    /// not sleep, and so comes before the callers that do: it waits for the reading of one.
    pub fn begin<R: Wait>(&self, rt: &R, writer: &mut Writer)
        requires own { IsOf self.now writer.old.table writer.old.run }
        requires idle { writer.old.phase ≡ Phase.Idle }
        requires room { writer.old.step + 1 < 2 ^ 62 }
        ensures own { IsOf self.now writer.new.table writer.new.run }
        ensures step { writer.new.step ≡ writer.old.step }
        ensures phase { writer.new.phase ≡ Phase.Begun 0 }
    {
        for _ in rt.forever() {
            if self.try_begin(writer) {
                return;
            }
            thread::yield_now();
        }
        unreachable!()
    }

    // Stores a table's words in the bank of the step that follows `step`. A word that the bank has already is not stored again:
    // a load is a plain read, and a store takes the word from the processors of the callers.
    fn store_words(&self, place: &mut BoardSeat, step: u64, number: u32, table: &[u64])
        requires own { IsOf self.now place.old.table_id place.old.me.0.run }
        requires number { number < count self.now.run }
        requires step { (step + 1 < 2 ^ 62) × (place.old.me.0.floor ≡ updating (step + 1)) }
        requires table { table.now ≡ line_of self.now.run (step + 1) number }
        requires size { (length table.now ≤ size self.now.run number) × (slice_index table.now 0 ≤ limit self.now.run number) }
        requires writing { place.old.me.0.doing ≡ Writing step (words_of self.now.run (step + 1) number) }
        ensures place { IsSamePlace place.old place.new × IsSameSight place.old.me.0 place.new.me.0 }
        ensures writing { place.new.me.0.doing ≡ Writing step (words_of self.now.run (step + 1) (number + 1)) }
    {
        let start = self.first_word(step + 1, number);
        for i in 0..table.len() {
            let word = start + i;
            let value = table[i];
            let found = self.board.shared.load::<FindWord>(place, word);
            if found != value {
                self.board.shared.store::<StoreWord>(place, word, value);
            }
        }
    }

    /// Puts the next table of the step that was begun, as it is after that step. It takes no memory.
    ///
    /// It answers `Full` exactly where the table has more rows than its limit, and then the step can only be abandoned.
    pub fn put(&self, writer: &mut Writer, number: u32, table: &TickTable) -> Result<(), Full>
        requires own { IsOf self.now writer.old.table writer.old.run }
        requires number { number < count self.now.run }
        requires next { writer.old.phase ≡ Phase.Begun number }
        requires rules { KeepsRules self.now.run (writer.old.step + 1) }
        requires table { table.now.new ≡ published_table self.now.run (writer.old.step + 1) number }
        ensures own { IsOf self.now writer.new.table writer.new.run }
        ensures step { writer.new.step ≡ writer.old.step }
        ensures phase { MatchResult result (λ _. writer.new.phase ≡ Phase.Begun (number + 1)) (λ _. writer.new.phase ≡ Phase.Stopped) }
        ensures full { MatchResult result (λ _. length table.now.new.rows ≤ limit self.now.run number) (IsFull (length table.now.new.rows) (limit self.now.run number)) }
    {
        let rows = table.rows().len();
        let limit = self.layout.limit(number);
        if rows > limit {
            writer.phase = Phase::Stopped;
            return Err(Full { rows, limit });
        }
        copy_table(table, &mut writer.words);
        self.store_words(
            &mut writer.place,
            writer.step,
            number,
            writer.words.as_slice(),
        );
        writer.phase = Phase::Begun(number + 1);
        Ok(())
    }

    /// Completes the step that was begun, of which every table was put: it sets the clock to idle and gives the turn back.
    pub fn finish(&self, writer: &mut Writer)
        requires own { IsOf self.now writer.old.table writer.old.run }
        requires all { writer.old.phase ≡ Phase.Begun (count self.now.run) }
        ensures own { IsOf self.now writer.new.table writer.new.run }
        ensures step { writer.new.step ≡ writer.old.step + 1 }
        ensures phase { writer.new.phase ≡ Phase.Idle }
    {
        let clock = ClockValue::idle(writer.step + 1);
        self.board
            .shared
            .store::<SetClock>(&mut writer.place, 0, clock.0);
        self.give_turn(&mut writer.place);
        writer.step += 1;
        writer.phase = Phase::Idle;
    }

    /// Leaves the step that was begun, and the clock, as they are, and gives the turn back. No other step begins.
    pub fn abandon(&self, writer: &mut Writer)
        requires own { IsOf self.now writer.old.table writer.old.run }
        requires begun { (writer.old.phase ≢ Phase.Idle) × (writer.old.phase ≢ Phase.Left) }
        ensures own { IsOf self.now writer.new.table writer.new.run }
        ensures step { writer.new.step ≡ writer.old.step }
        ensures phase { writer.new.phase ≡ Phase.Left }
    {
        self.give_turn(&mut writer.place);
        writer.phase = Phase::Left;
    }
}
