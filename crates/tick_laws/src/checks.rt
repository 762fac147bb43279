//! Laws of updates that are checked against the keys of a table: which keys they leave, and that they
//! make a table of a table.

ghost use Rattle.std.specs.List.{AllByRecursion};
ghost use Rattle.std.specs.Prelude.{◌≡◌, ℕ, ◌<◌, ◌≤◌, ◌^◌, ◌||◌, List};
ghost use Rattle.key_lists.specs.Keys.{IsRising, is_among, without};
ghost use Rattle.tick_laws.specs.Checked.{IsChecked, carried_tick, keys_after};
ghost use Rattle.tick_model.specs.Changes.{told_keys};
ghost use Rattle.tick_model.specs.Rules.{landed};
ghost use Rattle.tick_model.specs.Tables.{IsRow, IsTable, keys};
ghost use Rattle.tick_model.specs.Updates.{Update, IsTick, carry};
ghost use Rattle.tick_model.specs.declared.table.PlainRow.{PlainRow};
ghost use Rattle.tick_model.specs.declared.table.PlainTable.{PlainTable};

/// The keys that a checked update leaves are exactly those to which old keys move that are not removed,
/// and the added ones. They rise, and are below the limit of the check where the added ones are.
pub fn checked_keys_are_exact()
    ensures members { (old : List ℕ) (update : Update) (key : ℕ)
        → is_among key (keys_after old update)
        ≡ (is_among key update.added || is_among key (landed update.shifted (without update.removed old))) }
    ensures rise { (limit : ℕ) (old : List ℕ) (update : Update)
        → IsChecked limit old update → IsRising (keys_after old update) }
    ensures below { (limit : ℕ) (old : List ℕ) (update : Update)
        → IsChecked limit old update → AllByRecursion (λ key. key < limit) update.added
        → AllByRecursion (λ key. key < limit) (keys_after old update) }
{}

/// A checked update, with a row under each key that it tells, leaves these keys.
pub fn checked_updates_leave_their_keys()
    ensures { (limit : ℕ) (table : PlainTable) (update : Update) (cells : List PlainRow)
        → IsChecked limit (keys table.rows) update → keys cells ≡ told_keys update
        → keys (carry table update cells).rows ≡ keys_after (keys table.rows) update }
{}

/// With whole rows it makes a table of a table, and the pairs that it keeps are those of a tick.
pub fn checked_updates_are_ticks()
    ensures { (limit : ℕ) (table : PlainTable) (update : Update) (cells : List PlainRow)
        → IsChecked limit (keys table.rows) update → keys cells ≡ told_keys update
        → limit ≤ 2 ^ 62 → IsTable table → AllByRecursion (IsRow table.width) cells
        → IsTick (carried_tick table update cells) }
{}
