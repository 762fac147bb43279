//! Laws of updates: what an update makes of a table, and which rows it keeps.

ghost use Rattle.std.specs.Prelude.{◌≡◌, List, true};
ghost use Rattle.key_lists.specs.Keys.{IsRising};
ghost use Rattle.tick_laws.specs.Replaced.{followed, no_update, replaced, whole_update};
ghost use Rattle.tick_model.specs.Changes.{change_of, changed, is_empty};
ghost use Rattle.tick_model.specs.Shifts.{composed};
ghost use Rattle.tick_model.specs.Sources.{unchanged};
ghost use Rattle.tick_model.specs.Updates.{Tick, IsTick, between, carry, old_keys, pairs, told};
ghost use Rattle.tick_model.specs.declared.table.PlainTable.{PlainTable};
ghost use Rattle.tick_model.specs.declared.update.KeyPair.{KeyPair};

/// The update between two tables, with the new rows that it tells, makes the new table of the old
/// one, and keeps the pairs that it was made of.
pub fn update_carries()
    ensures table { (tick : Tick) → IsTick tick
        → carry tick.old (between tick) (told tick) ≡ tick.new }
    ensures kept { (tick : Tick) → IsTick tick → pairs tick.old (between tick) ≡ tick.kept }
{}

/// The change of a tick, which tells the cells of the added and then of the modified rows one after the
/// other, makes the new table of the old one.
pub fn change_carries()
    ensures { (tick : Tick) → IsTick tick → changed tick.old (change_of tick) ≡ tick.new }
{}

/// Between tables that keep no row, all old rows are removed and all new ones added; nothing moves and
/// nothing is modified.
pub fn unkept_rows_are_replaced()
    ensures { (old new : PlainTable) → between (replaced old new) ≡ whole_update old new }
{}

/// Where each row stays as it is, the update is empty in all of its parts.
pub fn unchanged_tables_have_no_update()
    ensures { (table : PlainTable) → between (unchanged table) ≡ no_update }
{}

/// Where the update is empty, the new table is the old one.
pub fn empty_updates_change_nothing()
    ensures { (tick : Tick) → IsTick tick → is_empty (between tick) ≡ true → tick.new ≡ tick.old }
{}

/// Kept pairs of three changes may be composed from either end.
pub fn composing_is_associative()
    ensures { (first second third : List KeyPair) → IsRising (old_keys second)
        → composed (composed first second) third ≡ composed first (composed second third) }
{}

/// Two ticks, one after the other, are a tick.
pub fn ticks_compose()
    ensures { (first second : Tick) → IsTick first → IsTick second → first.new ≡ second.old
        → IsTick (followed first second) }
{}
