//! The rows of an input by their key cells and times, and how a step brings them on.

ghost use Rattle.std.specs.Prelude.{◌≡◌, ℕ, ◌+◌, ◌*◌, ◌≤◌, ◌++◌, ◌||◌, false, drop, filter, length, vec_len, IfOk, IsTrue, OnOk};
ghost use Rattle.std.specs.List.{AllByRecursion};
ghost use Rattle.std.specs.Option.{option_map_or};
ghost use Rattle.key_lists.specs.Keys.{IsRising, is_among};
ghost use Rattle.lookup_join.specs.Taken.{rekeyed_pairs};
ghost use Rattle.lookup_join.specs.Keyed.{IsRowOf, column_of, indexed, key_cells, rekeys, same_spot, time_of};
ghost use Rattle.row_changes.specs.Parts.{AreThere};
ghost use Rattle.row_groups.specs.Members.{groups_of, keys_of, member_of, member_under};
ghost use Rattle.row_set.specs.Sets.{united};
ghost use Rattle.tick_model.specs.Tables.{keys};
ghost use Rattle.tick_model.specs.Updates.{new_keys};
ghost use Rattle.tick_table.specs.Exact.{IsExact};

use crate::pick::Pick;
use row_groups::NumberedGroups;
use row_set::RowSet;
use shown_rows::KeyPairs;
use std::alloc::{AllocError, Global};
use std::sync::ledger::Ledger;
use tick_model::cells::cell;
use tick_model::plan::OnPair;
use tick_table::{RowReader, Steps, TickTable, Version};

/// An input of a join.
#[derive(Clone, Copy, Debug, PartialEq, Eq)]
pub enum Side {
    Left,
    Right,
}

impl Side {
    /// The column that is compared with one of the other side.
    pub(crate) fn column(self, pair: OnPair) -> u32
        ensures { result ≡ column_of self pair }
    {
        match self {
            Side::Left => pair.left,
            Side::Right => pair.right,
        }
    }
}

/// Puts the key cells of the last row of the cells, which begins at `start`, behind it.
pub(crate) fn put_key_cells(
    side: Side,
    on: &[OnPair],
    start: usize,
    cells: &mut Vec<i64>,
) -> Result<(), AllocError>
    requires { start ≤ vec_len cells.old }
    ensures { OnOk result (cells.new.items ≡ cells.old.items ++ key_cells side on.now (drop start cells.old.items)) }
{
    let end = cells.len();
    for pair in on {
        let key_cell = cell(&cells[start..end], side.column(*pair));
        cells.push(key_cell)?;
    }
    Ok(())
}

/// The time of the last row of the cells, which begins at `start`.
pub(crate) fn time_from(side: Side, pick: Pick, start: usize, cells: &[i64]) -> i64
    requires { start ≤ length cells.now }
    ensures { result ≡ time_of side pick (drop start cells.now) }
{
    pick.time(side, &cells[start..])
}

/// Puts the key cells of a row into a buffer in place of what it held, and gives the row's time.
pub(crate) fn read_key(
    side: Side,
    on: &[OnPair],
    pick: Pick,
    row: &[i64],
    buffer: &mut Vec<i64>,
) -> Result<i64, AllocError>
    ensures cells { OnOk result (buffer.new.items ≡ key_cells side on.now row.now) }
    ensures time { IfOk result (λ time. time ≡ time_of side pick row.now) }
{
    buffer.clear();
    for pair in on {
        buffer.push(cell(row, side.column(*pair)))?;
    }
    Ok(pick.time(side, row))
}

/// Whether a row of the index has these key cells and this time.
fn stands_at(index: &NumberedGroups, key: u64, cells: &[i64], time: i64) -> bool
    ensures { result ≡ option_map_or (λ member. same_spot member (member_of key cells.now time)) (member_under key index.now.members) false }
{
    let same_cells = match index.cells_of(key) {
        Some(own) => own == cells,
        None => false,
    };
    same_cells && index.at_of(key) == Some(time)
}

/// Those of the pairs of rows that stay whose key cells or times change, where the index has the rows before the step.
pub(crate) fn rekeyed<L: Ledger>(
    alloc: Global,
    side: Side,
    on: &[OnPair],
    pick: Pick,
    index: &NumberedGroups,
    input: &TickTable,
    pairs: &KeyPairs,
    buffer: &mut Vec<i64>,
    reads: &mut Steps<L>,
) -> Result<KeyPairs, AllocError>
    requires index { groups_of index.now ≡ indexed side on.now pick input.now.old.rows }
    requires before { AllByRecursion (λ pair. IsTrue (is_among pair.old (keys input.now.old.rows))) pairs.now }
    requires now { AllByRecursion (λ pair. IsTrue (is_among pair.new (keys input.now.new.rows))) pairs.now }
    ensures pairs { IfOk result (λ changed. changed ≡ filter (rekeys side on.now pick input.now.old input.now.new) pairs.now) }
    ensures reads { reads.new ≤ reads.old + input.now.new.width * length pairs.now }
{
    let mut changed = KeyPairs::new(alloc);
    let mut rows = RowReader::of(input, Version::Now);
    for pair in pairs {
        let row = rows.row(pair.new, reads);
        let time = read_key(side, on, pick, row, buffer)?;
        let stands = stands_at(index, pair.old, buffer, time);
        changed = changed.with_last_if(!stands, pair)?;
    }
    Ok(changed)
}

/// Puts rows of now in the index, which has none of their keys.
fn add_rows<L: Ledger>(
    side: Side,
    on: &[OnPair],
    pick: Pick,
    index: &mut NumberedGroups,
    input: &TickTable,
    keys: &RowSet,
    buffer: &mut Vec<i64>,
    reads: &mut Steps<L>,
) -> Result<(), AllocError>
    requires there { AreThere input.now.new keys.now }
    requires absent { AllByRecursion (λ key. is_among key (keys_of index.old.members) ≡ false) keys.now }
    requires width { index.old.width ≡ length on.now }
    requires rows { AllByRecursion (IsRowOf side on.now pick input.now.new.rows) index.old.members }
    requires rising { IsRising (keys_of index.old.members) }
    ensures width { OnOk result (index.new.width ≡ length on.now) }
    ensures rising { OnOk result (IsRising (keys_of index.new.members)) }
    ensures rows { OnOk result (AllByRecursion (IsRowOf side on.now pick input.now.new.rows) index.new.members) }
    ensures keys { OnOk result ((key : ℕ) → is_among key (keys_of index.new.members) ≡ (is_among key keys.now || is_among key (keys_of index.old.members))) }
    ensures reads { reads.new ≤ reads.old + input.now.new.width * length keys.now }
{
    let mut rows = RowReader::of(input, Version::Now);
    for key in keys {
        let row = rows.row(key, reads);
        let time = read_key(side, on, pick, row, buffer)?;
        index.add(key, buffer, time)?;
    }
    Ok(())
}

/// Brings the index of an input on by a step, in which these pairs of rows change their key cells or their times. Gives the keys
/// of the rows that are new in their places.
pub(crate) fn bring_on<L: Ledger>(
    side: Side,
    on: &[OnPair],
    pick: Pick,
    index: &mut NumberedGroups,
    input: &TickTable,
    rekeyed: KeyPairs,
    buffer: &mut Vec<i64>,
    reads: &mut Steps<L>,
) -> Result<RowSet, AllocError>
    requires exact { IsExact input.now }
    requires index { groups_of index.old ≡ indexed side on.now pick input.now.old.rows }
    requires rekeyed { rekeyed ≡ rekeyed_pairs side on.now pick input.now }
    ensures index { OnOk result (groups_of index.new ≡ indexed side on.now pick input.now.new.rows) }
    ensures came { IfOk result (λ came. came ≡ united (new_keys rekeyed) input.now.update.added) }
    ensures reads { reads.new ≤ reads.old + input.now.new.width * (length rekeyed + length input.now.update.added) }
{
    let update = input.update();
    let (from, to) = rekeyed.into_keys();
    index.remove(update.removed());
    index.remove(&from);
    index.shift(update.shifted())?;
    let came = to.union(update.added())?;
    add_rows(side, on, pick, index, input, &came, buffer, reads)?;
    Ok(came)
}
