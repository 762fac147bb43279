//! The rule of the words, and what each step on a word tells. These types have no values: they are for proofs alone.

use crate::board::StoreView;
use atomic_table::{Join, Play, Split, TableRule};
use std::snapshot::Snapshot;
use tick_model::feed::Run;

/// The rule that the words keep.
pub struct BankRule;

impl TableRule<(), StoreView, Snapshot<Run>> for BankRule {
    ghost use Rattle.snapshot_store.specs.Rule.{KeepsRule};
    ghost use Rattle.snapshot_store.specs.Views.{first_view};

    ghost holds = { λ key. KeepsRule key.value };

    ghost first = { λ key. first_view key.value };
}

/// The first look of a reading.
pub struct LookFirst;

impl Play<(), StoreView> for LookFirst {
    ghost use Rattle.snapshot_store.specs.Plays.{looks_first};

    ghost then = { looks_first };
}

/// A look of its own.
pub struct LookOnce;

impl Play<(), StoreView> for LookOnce {
    ghost use Rattle.snapshot_store.specs.Plays.{looks_once};

    ghost then = { looks_once };
}

/// Reads the count of rows of a table.
pub struct CountRows;

impl Play<(), StoreView> for CountRows {
    ghost use Rattle.snapshot_store.specs.Plays.{counts_rows};

    ghost then = { counts_rows };
}

/// Reads the next word of a table.
pub struct ReadWord;

impl Play<(), StoreView> for ReadWord {
    ghost use Rattle.snapshot_store.specs.Plays.{reads_word};

    ghost then = { reads_word };
}

/// The last look of a reading.
pub struct LookLast;

impl Play<(), StoreView> for LookLast {
    ghost use Rattle.snapshot_store.specs.Plays.{looks_last};

    ghost then = { looks_last };
}

/// Sets the clock.
pub struct SetClock;

impl Play<(), StoreView> for SetClock {
    ghost use Rattle.snapshot_store.specs.Plays.{sets_clock};

    ghost then = { sets_clock };
}

/// Stores the next word of a table.
pub struct StoreWord;

impl Play<(), StoreView> for StoreWord {
    ghost use Rattle.snapshot_store.specs.Plays.{stores_word};

    ghost then = { stores_word };
}

/// Looks whether the next word of a table needs to be stored.
pub struct FindWord;

impl Play<(), StoreView> for FindWord {
    ghost use Rattle.snapshot_store.specs.Plays.{finds_word};

    ghost then = { finds_word };
}

/// Takes the turn where it is free.
pub struct TakeTurn;

impl Play<(), StoreView> for TakeTurn {
    ghost use Rattle.snapshot_store.specs.Plays.{takes_turn};

    ghost then = { takes_turn };
}

/// Gives the turn back.
pub struct GiveTurn;

impl Play<(), StoreView> for GiveTurn {
    ghost use Rattle.snapshot_store.specs.Plays.{gives_turn};

    ghost then = { gives_turn };
}

/// How a view is split, and how two are joined.
pub struct StoreSplit;

impl Split<StoreView> for StoreSplit {
    ghost use Rattle.snapshot_store.specs.Views.{informed};

    ghost left = { λ v. v };

    ghost right = { λ v. informed v.run v.floor };
}

impl Join<StoreView> for StoreSplit {
    ghost use Rattle.snapshot_store.specs.Views.{both_views, spent_view};

    ghost both = { λ v w. both_views v w };

    ghost spent = { spent_view };
}
