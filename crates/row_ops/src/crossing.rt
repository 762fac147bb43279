//! Which rows begin to pass a test in a step, and which cease to.
//!
//! The rows that are added or modified are read by their places in the update, along its keys.

ghost use Rattle.std.specs.Prelude.{◌≡◌, ◌+◌, ◌*◌, ◌≤◌, ◌&&◌, filter, length, not, IfOk};
ghost use Rattle.key_lists.specs.Keys.{is_among};
ghost use Rattle.shown_rows.specs.Shown.{through};
ghost use Rattle.tick_model.specs.Formulas.{IsTestWithin, truth};
ghost use Rattle.tick_model.specs.Tables.{cells_at, keys};
ghost use Rattle.tick_model.specs.Updates.{between, new_keys, old_keys, pairs as pairs_kept};
ghost use Rattle.tick_model.specs.Where.{where_table};
ghost use Rattle.tick_table.specs.Exact.{IsExact, tick_of};

use formula::passes;
use row_set::RowSet;
use shown_rows::{Crossing, Pairs, keys_among, put_last_if};
use std::alloc::{AllocError, Global};
use std::sync::ledger::Ledger;
use tick_model::plan::Pred;
use tick_table::{Steps, TickTable};

/// There is room for as many ranges of keys at once.
const FEW: u64 = 64;

/// The rows that cross a test in a step, where `shown` has the keys of those that passed before it. It reads the added and
/// the modified rows, each once; where it is refused, no more than these.
pub(crate) fn crossing_rows<L: Ledger>(
    alloc: Global,
    test: &Pred,
    input: &TickTable,
    shown: &RowSet,
    reads: &mut Steps<L>,
) -> Result<Crossing, AllocError>
    requires exact { IsExact input.now }
    requires within { IsTestWithin input.now.new.width test.now }
    requires shown { shown.now ≡ keys (where_table test.now input.now.old).rows }
    ensures leaving { IfOk result (λ crossing. crossing.leaving ≡ (between (through (where_table test.now) (tick_of input.now))).removed) }
    ensures coming { IfOk result (λ crossing. crossing.coming ≡ (between (through (where_table test.now) (tick_of input.now))).added) }
    ensures reads { reads.new ≤ reads.old + input.now.new.width * (length input.now.update.added + length input.now.update.modified) }
{
    let gone = keys_among(alloc, input.update().removed(), shown)?;
    let new = passing_added(alloc, test, input, reads)?;
    let changed = changed_rows(alloc, test, input, shown, reads)?;
    let leaving = gone.union(&changed.leaving)?;
    let coming = new.union(&changed.coming)?;
    Ok(Crossing { leaving, coming })
}

/// Those of the added rows that pass.
fn passing_added<L: Ledger>(
    alloc: Global,
    test: &Pred,
    input: &TickTable,
    reads: &mut Steps<L>,
) -> Result<RowSet, AllocError>
    requires within { IsTestWithin input.now.new.width test.now }
    ensures keys { IfOk result (λ found. found ≡ filter (λ key. truth test.now (cells_at key input.now.new.rows)) input.now.update.added) }
    ensures reads { reads.new ≤ reads.old + input.now.new.width * length input.now.update.added }
{
    let keys = input.update().added();
    let room = (keys.len() / 2 + 1).min(FEW);
    let mut found = RowSet::with_capacity(alloc, room as usize)?;
    let mut place = 0;
    for key in keys {
        let passing = passes(test, input.added_row(place, reads));
        put_last_if(passing, &mut found, key)?;
        place += 1;
    }
    Ok(found)
}

/// Those of the modified rows that cross the test.
fn changed_rows<L: Ledger>(
    alloc: Global,
    test: &Pred,
    input: &TickTable,
    shown: &RowSet,
    reads: &mut Steps<L>,
) -> Result<Crossing, AllocError>
    requires exact { IsExact input.now }
    requires within { IsTestWithin input.now.new.width test.now }
    ensures leaving { IfOk result (λ crossing. crossing.leaving
        ≡ old_keys (filter (λ pair. is_among pair.old shown.now && not (truth test.now (cells_at pair.new input.now.new.rows))) (filter (λ pair. is_among pair.new input.now.update.modified) (pairs_kept input.now.old input.now.update)))) }
    ensures coming { IfOk result (λ crossing. crossing.coming
        ≡ new_keys (filter (λ pair. not (is_among pair.old shown.now) && truth test.now (cells_at pair.new input.now.new.rows)) (filter (λ pair. is_among pair.new input.now.update.modified) (pairs_kept input.now.old input.now.update)))) }
    ensures reads { reads.new ≤ reads.old + input.now.new.width * length input.now.update.modified }
{
    let from = input.update().modified_before(input.prev_rows())?;
    let mut leaving = RowSet::new(alloc);
    let mut coming = RowSet::new(alloc);
    let mut place = 0;
    for pair in Pairs::modified(input, &from) {
        let before = shown.contains(pair.old);
        let now = passes(test, input.modified_row(place, reads));
        put_last_if(before && !now, &mut leaving, pair.old)?;
        put_last_if(!before && now, &mut coming, pair.new)?;
        place += 1;
    }
    Ok(Crossing { leaving, coming })
}
