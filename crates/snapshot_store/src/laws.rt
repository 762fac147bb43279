//! What the rule of the words says of them and of the seats' views, whatever steps the seats have made.

ghost use Rattle.std.specs.declared.snapshot.Snapshot.{Snapshot};
ghost use Rattle.tick_model.specs.declared.feed.Run.{Run};
ghost use Rattle.snapshot_store.specs.Sentences.{Board, HasOneTurn, HoldsBoth, HoldsOne, IsClockOfWriter, IsFloorOfWriter, IsPastLooks, IsStill, IsTrueToSteps, IsTurnOfWriter, IsWithinRows, KeepsLimits};

use crate::board::StoreView;
use crate::plays::BankRule;
use atomic_table::TableRule;
use std::snapshot::Snapshot;
use tick_model::feed::Run;

/// The clock is at least every look and every floor in every view. It is the floor of the writer, which knows the last
/// completed step: `2 * step + 1` while the writer is idle after a step, and one more from `begin` until `finish`.
pub fn the_clock_is_past_every_look()
    ensures looks { (key : Snapshot Run) (board : Board) → ⟦<BankRule as TableRule<(), StoreView, Snapshot<Run>>>⟧.holds key board → IsPastLooks board }
    ensures writer { (key : Snapshot Run) (board : Board) → ⟦<BankRule as TableRule<(), StoreView, Snapshot<Run>>>⟧.holds key board → IsFloorOfWriter board }
    ensures rises { (key : Snapshot Run) (board : Board) → ⟦<BankRule as TableRule<(), StoreView, Snapshot<Run>>>⟧.holds key board → IsClockOfWriter board }
{}

/// When idle, one bank holds the last completed step and the other the one before. While a step is updating, one bank holds
/// the step before, and the other has what is stored of this one.
pub fn banks_hold_steps()
    ensures idle { (key : Snapshot Run) (board : Board) → ⟦<BankRule as TableRule<(), StoreView, Snapshot<Run>>>⟧.holds key board → HoldsBoth key.value board }
    ensures updating { (key : Snapshot Run) (board : Board) → ⟦<BankRule as TableRule<(), StoreView, Snapshot<Run>>>⟧.holds key board → HoldsOne key.value board }
{}

/// A reading has no more words than its count of rows tells. They begin the table's words at the step that was completed at
/// its first look, while the clock is near.
pub fn readings_are_true_to_their_step()
    ensures rows { (key : Snapshot Run) (board : Board) → ⟦<BankRule as TableRule<(), StoreView, Snapshot<Run>>>⟧.holds key board → IsWithinRows key.value board }
    ensures words { (key : Snapshot Run) (board : Board) → ⟦<BankRule as TableRule<(), StoreView, Snapshot<Run>>>⟧.holds key board → IsTrueToSteps key.value board }
{}

/// A word that counts rows is within the limit of its table at every moment.
pub fn counts_stay_within_limits()
    ensures { (key : Snapshot Run) (board : Board) → ⟦<BankRule as TableRule<(), StoreView, Snapshot<Run>>>⟧.holds key board → KeepsLimits key.value board }
{}

/// The word of the turn is 1 exactly where a seat has the turn, and no two have it. The writer has it from `begin` until
/// `finish` or `abandon`. While a caller has it, the clock is what it has looked at.
pub fn the_turn_is_had_once()
    ensures once { (key : Snapshot Run) (board : Board) → ⟦<BankRule as TableRule<(), StoreView, Snapshot<Run>>>⟧.holds key board → HasOneTurn board }
    ensures writer { (key : Snapshot Run) (board : Board) → ⟦<BankRule as TableRule<(), StoreView, Snapshot<Run>>>⟧.holds key board → IsTurnOfWriter board }
    ensures still { (key : Snapshot Run) (board : Board) → ⟦<BankRule as TableRule<(), StoreView, Snapshot<Run>>>⟧.holds key board → IsStill board }
{}
