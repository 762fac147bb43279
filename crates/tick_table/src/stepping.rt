//! Rows that a change brings on.

ghost use Rattle.std.specs.Prelude.{◌≡◌, ◌*◌, ◌^◌, ◌≤◌, ◌++◌, [], IsTrue, None, length, map, drop, flat_map, IfOk, OnOk};
ghost use Rattle.std.specs.Bool.{OnTrue};
ghost use Rattle.std.specs.List.{AllByRecursion};
ghost use Rattle.key_lists.specs.Keys.{is_among, without};
ghost use Rattle.row_set.specs.Sets.{IsKeySet};
ghost use Rattle.table_update.specs.Coalesced.{Follow};
ghost use Rattle.tick_laws.specs.Checked.{keys_after};
ghost use Rattle.tick_model.specs.Changes.{rows_under, told_keys};
ghost use Rattle.tick_model.specs.Rules.{update_fault};
ghost use Rattle.tick_model.specs.Tables.{cells_at};
ghost use Rattle.tick_model.specs.Updates.{removing};
ghost use Rattle.tick_table.specs.Placed.{paired, put_rows, stayed, stepped};

use crate::placed::PlacedRows;
use crate::places::KeyCursor;
use row_set::RowSet;
use std::alloc::AllocError;
use table_update::Update;

/// As many ranges of keys are copied sooner than an update more is applied to them,
const FEW_RANGES: usize = 64;
/// and as many more for each range that an update adds or removes.
const RANGES_FOR_EACH_CHANGED: usize = 16;

/// The keys after an update of these, in the room of those of before. Where they have few ranges they are copied; else those of
/// before are brought on by both updates.
pub(crate) fn next_keys(
    rows: &RowSet,
    mut before: RowSet,
    last: &Update,
    update: &Update,
) -> Result<RowSet, AllocError>
    requires follow { Follow before last.now update.now }
    requires after { rows.now ≡ keys_after before last.now }
    ensures { IfOk result (λ after. after ≡ keys_after rows.now update.now) }
{
    if has_few_ranges(rows, last, update) {
        before.copy_from(rows)?;
        update.apply_to_keys(before)
    } else {
        last.apply_both_to_keys(update, before)
    }
}

/// Whether keys have so few ranges that a copy of them costs less than an update more.
fn has_few_ranges(rows: &RowSet, last: &Update, update: &Update) -> bool {
    let changed = count_changed(last).saturating_add(count_changed(update));
    let few = changed.saturating_mul(RANGES_FOR_EACH_CHANGED);
    rows.ranges().len() <= few.saturating_add(FEW_RANGES)
}

/// How many ranges of keys an update adds and removes.
fn count_changed(update: &Update) -> usize {
    let added = update.added().ranges();
    added.len().saturating_add(update.removed().ranges().len())
}

/// Brings rows under these keys on by a change, to those under the keys after it. What the change removes and replaces is kept
/// aside, so that the rows from before can be told.
pub(crate) fn bring_on(
    placed: &mut PlacedRows,
    rows: &RowSet,
    after: &RowSet,
    update: &Update,
    cells: &[i64],
) -> Result<(), AllocError>
    requires lawful { update_fault (2 ^ 62) rows.now update.now ≡ None }
    requires after { after.now ≡ keys_after rows.now update.now }
    requires count { length placed.old.rows ≡ length rows.now }
    requires whole { length cells.now ≡ length (told_keys update.now) * placed.old.width }
    ensures width { OnOk result (placed.new.width ≡ placed.old.width) }
    ensures count { OnOk result (length placed.new.rows ≡ length (keys_after rows.now update.now)) }
    ensures now { OnOk result (paired (keys_after rows.now update.now) placed.new.rows
        ≡ stepped update.now (rows_under placed.old.width (told_keys update.now) cells.now) (paired rows.now placed.old.rows)) }
    ensures left { OnOk result (placed.new.left ≡ map (λ key. cells_at key (paired rows.now placed.old.rows)) update.now.removed) }
    ensures saved { OnOk result (placed.new.saved
        ≡ flat_map (λ key. cells_at key (stayed update.now (paired rows.now placed.old.rows))) update.now.modified) }
    ensures removed { OnOk result (IsKeySet update.now.removed) }
    ensures added { OnOk result (IsKeySet update.now.added) }
    ensures modified { OnOk result (IsKeySet update.now.modified) }
{
    let removed = update.removed();
    let added = update.added();
    let modified = update.modified();
    placed.begin_step()?;
    remove_rows(placed, rows, removed)?;
    let rest = add_rows(placed, after, added, cells)?;
    modify_rows(placed, after, modified, rest)?;
    Ok(())
}

/// Takes the rows under some of the keys out: those that lie side by side together.
fn remove_rows(placed: &mut PlacedRows, rows: &RowSet, removed: &RowSet) -> Result<(), AllocError>
    requires own { AllByRecursion (λ key. IsTrue (is_among key rows.now)) removed.now }
    requires count { length placed.old.rows ≡ length rows.now }
    requires none_left { placed.old.left ≡ [] }
    ensures width { OnOk result (placed.new.width ≡ placed.old.width) }
    ensures count { OnOk result (length placed.new.rows ≡ length (without removed.now rows.now)) }
    ensures now { OnOk result (paired (without removed.now rows.now) placed.new.rows ≡ removing removed.now (paired rows.now placed.old.rows)) }
    ensures left { OnOk result (placed.new.left ≡ map (λ key. cells_at key (paired rows.now placed.old.rows)) removed.now) }
    ensures saved { OnOk result (placed.new.saved ≡ placed.old.saved) }
{
    let _ = rows.ranges();
    let mut places = KeyCursor::of(rows);
    let mut start = 0;
    let mut count = 0;
    for key in removed {
        let position = places.position_of(key) - (placed.count_left() + count);
        if position == start {
            count += 1;
        } else {
            placed.take_out(start, count)?;
            start = position;
            count = 1;
        }
    }
    placed.take_out(start, count)?;
    Ok(())
}

/// Puts rows, whose cells stand one after the other, in under those of the keys that have none. It gives the cells behind those
/// of the rows.
fn add_rows<'a>(
    placed: &mut PlacedRows,
    rows: &RowSet,
    added: &RowSet,
    cells: &'a [i64],
) -> Result<&'a [i64], AllocError>
    requires own { AllByRecursion (λ key. IsTrue (is_among key rows.now)) added.now }
    requires count { length placed.old.rows ≡ length (without added.now rows.now) }
    requires whole { length added.now * placed.old.width ≤ length cells.now }
    ensures width { OnOk result (placed.new.width ≡ placed.old.width) }
    ensures count { OnOk result (length placed.new.rows ≡ length rows.now) }
    ensures now { OnOk result (paired rows.now placed.new.rows
        ≡ put_rows (rows_under placed.old.width added.now cells.now) (paired (without added.now rows.now) placed.old.rows)) }
    ensures left { OnOk result (placed.new.left ≡ placed.old.left) }
    ensures saved { OnOk result (placed.new.saved ≡ placed.old.saved) }
    ensures rest { IfOk result (λ rest. rest.now ≡ drop (length added.now * placed.old.width) cells.now) }
{
    if come_behind(placed, rows, added) {
        return append_rows(placed, rows, added, cells);
    }
    let _ = rows.ranges();
    let mut rest = cells;
    let mut places = KeyCursor::of(rows);
    for key in added {
        let position = places.position_of(key);
        let (row, others) = rest.split_at(placed.width());
        placed.put_in(position, row)?;
        rest = others;
    }
    Ok(rest)
}

/// Whether the keys that have no row come behind all others.
fn come_behind(placed: &PlacedRows, rows: &RowSet, added: &RowSet) -> bool
    requires own { AllByRecursion (λ key. IsTrue (is_among key rows.now)) added.now }
    requires count { length placed.now.rows ≡ length (without added.now rows.now) }
    ensures { OnTrue result (rows.now ≡ without added.now rows.now ++ added.now) }
{
    match added.first() {
        Some(first) => rows.count_below(first) == placed.len() as u64,
        None => false,
    }
}

/// Puts rows, whose cells stand one after the other, in under those of the keys that have none, where these are the last. It
/// gives the cells behind those of the rows.
fn append_rows<'a>(
    placed: &mut PlacedRows,
    rows: &RowSet,
    added: &RowSet,
    cells: &'a [i64],
) -> Result<&'a [i64], AllocError>
    requires behind { rows.now ≡ without added.now rows.now ++ added.now }
    requires count { length placed.old.rows ≡ length (without added.now rows.now) }
    requires whole { length added.now * placed.old.width ≤ length cells.now }
    ensures width { OnOk result (placed.new.width ≡ placed.old.width) }
    ensures count { OnOk result (length placed.new.rows ≡ length rows.now) }
    ensures now { OnOk result (paired rows.now placed.new.rows
        ≡ put_rows (rows_under placed.old.width added.now cells.now) (paired (without added.now rows.now) placed.old.rows)) }
    ensures left { OnOk result (placed.new.left ≡ placed.old.left) }
    ensures saved { OnOk result (placed.new.saved ≡ placed.old.saved) }
    ensures rest { IfOk result (λ rest. rest.now ≡ drop (length added.now * placed.old.width) cells.now) }
{
    let _ = rows.ranges();
    let count = added.len();
    let (new, rest) = cells.split_at(count as usize * placed.width());
    placed.append(count as usize, new)?;
    Ok(rest)
}

/// Puts rows, whose cells stand first, one after the other, in place of those under some of the keys.
fn modify_rows(
    placed: &mut PlacedRows,
    rows: &RowSet,
    modified: &RowSet,
    cells: &[i64],
) -> Result<(), AllocError>
    requires own { AllByRecursion (λ key. IsTrue (is_among key rows.now)) modified.now }
    requires count { length placed.old.rows ≡ length rows.now }
    requires whole { length modified.now * placed.old.width ≤ length cells.now }
    ensures width { OnOk result (placed.new.width ≡ placed.old.width) }
    ensures count { OnOk result (length placed.new.rows ≡ length rows.now) }
    ensures now { OnOk result (paired rows.now placed.new.rows
        ≡ put_rows (rows_under placed.old.width modified.now cells.now) (paired rows.now placed.old.rows)) }
    ensures left { OnOk result (placed.new.left ≡ placed.old.left) }
    ensures saved { OnOk result (placed.new.saved
        ≡ placed.old.saved ++ flat_map (λ key. cells_at key (paired rows.now placed.old.rows)) modified.now) }
{
    let _ = rows.ranges();
    let mut rest = cells;
    let mut places = KeyCursor::of(rows);
    for key in modified {
        let position = places.position_of(key);
        let (row, others) = rest.split_at(placed.width());
        placed.replace(position, row)?;
        rest = others;
    }
    Ok(())
}
