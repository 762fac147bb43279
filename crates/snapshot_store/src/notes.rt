//! Notes, which tell callers what the writer has completed.

ghost use Rattle.std.specs.Prelude.{◌≡◌, ℕ, ◌≤◌, ◌++◌, [], ◌∷◌};
ghost use Rattle.std.specs.declared.snapshot.Snapshot.{Snapshot};
ghost use Rattle.tick_model.specs.declared.feed.Run.{Run};
ghost use Rattle.snapshot_store.specs.Looks.{NeverFalls, last_or, latest};
ghost use Rattle.snapshot_store.specs.Models.{IsOf};
ghost use Rattle.snapshot_store.specs.Sentences.{Board, clock};

use crate::board::{BoardSeat, StoreView};
use crate::callers::Caller;
use crate::plays::{BankRule, LookOnce, StoreSplit};
use crate::store::Store;
use crate::writers::Writer;
use atomic_table::TableRule;
use std::marker::Model;
use std::snapshot::Snapshot;
use tick_model::feed::Run;

/// That a step is completed, to be told to a caller.
#[derive(Drop)]
pub struct Note {
    place: BoardSeat,
    step: u64,
}

impl Model for Note {
    ghost use Rattle.snapshot_store.specs.Models.{NoteModel, IsNoted};
    ghost use Rattle.std.specs.Coded.{codes};
    ghost use Rattle.tick_model.specs.contracts.plan.Expr as expr;
    ghost use Rattle.tick_model.specs.contracts.plan.Pred as pred;

    ghost Value = { NoteModel };

    ghost coded = { Prim.hlevel (codes, expr.the_row.coded, pred.the_row.coded) };

    ghost view = { λ n. record { table = n.place.table_id; run = n.place.me.0.run; step = n.step } };

    ghost invariant = { λ n. IsNoted n.place n.step };
}

impl Note {
    /// The last completed step when the note was made.
    pub fn step(&self) -> u64
        ensures { result ≡ self.now.step }
    {
        self.step
    }
}

impl Store {
    /// What the writer has completed, to be told to a caller.
    pub fn note(&self, writer: &mut Writer) -> Note
        requires own { IsOf self.now writer.old.table writer.old.run }
        ensures same { writer.new ≡ writer.old }
        ensures own { IsOf self.now result.table result.run }
        ensures step { result.step ≡ writer.old.step }
    {
        let place = self
            .board
            .shared
            .split_seat::<StoreSplit>(&mut writer.place);
        Note {
            place,
            step: writer.step,
        }
    }

    /// The caller looks at the clock, and has seen the step of the note from then on. The look is the clock of words that the
    /// rule of the store holds of, so that the laws do.
    pub fn learn(&self, caller: &mut Caller, note: Note)
        requires own { IsOf self.now caller.old.table caller.old.run }
        requires note { IsOf self.now note.table note.run }
        ensures own { IsOf self.now caller.new.table caller.new.run }
        ensures look { (found : ℕ) × (caller.new.looks ≡ caller.old.looks ++ found ∷ []) }
        ensures rises { NeverFalls 1 caller.new.looks }
        ensures told { note.step ≤ latest caller.new.looks }
        ensures met { (key : Snapshot Run) × (board : Board) × (key.value ≡ self.now.run) × ⟦<BankRule as TableRule<(), StoreView, Snapshot<Run>>>⟧.holds key board × (last_or 1 caller.new.looks ≡ clock board) }
    {
        let Note { place, step: _ } = note;
        self.board
            .shared
            .join_seat::<StoreSplit>(&mut caller.place, place);
        caller.seen = self.board.shared.load::<LookOnce>(&mut caller.place, 0);
    }
}
