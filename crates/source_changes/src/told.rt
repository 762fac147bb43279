//! The rows that the blocks of a step have told of a source, under the keys that they have now.

ghost use Rattle.std.specs.Prelude.{◌≡◌, ◌^◌, ◌<◌, ◌≤◌, false, true, not, [], filter, map, option_map, IfNone, IfOk, IfSome, IsSome, OnOk};
ghost use Rattle.std.specs.BTreeMap.{get};
ghost use Rattle.std.specs.List.{AllByRecursion};
ghost use Rattle.std.specs.Map.{keys_of as map_keys};
ghost use Rattle.std.specs.Ordering.{nat_cmp};
ghost use Rattle.key_lists.specs.Keys.{is_among, IsRising, without};
ghost use Rattle.row_set.specs.Ranges.{holds, keys_of};
ghost use Rattle.shift_data.specs.Moves.{IsLawful};
ghost use Rattle.source_changes.specs.Blocks.{IsReadable};
ghost use Rattle.source_changes.specs.Stepping.{told_after};
ghost use Rattle.source_changes.specs.Told.{told_row, with_block};
ghost use Rattle.tick_table.specs.Placed.{put_rows};
ghost use Rattle.tick_model.specs.Sources.{update_of};
ghost use Rattle.tick_model.specs.Tables.{keys, row_at};
ghost use Rattle.tick_model.specs.Updates.{shifting};

use row_set::Range;
use shift_data::ShiftData;
use std::alloc::{AllocError, Global};
use std::collections::BTreeMap;
use std::marker::Model;
use std::mem;
use table_update::Update;
use tick_model::feed::Block;
use tick_model::row_list::RowList;

/// Rows of blocks, of which the cells are not copied. A contract sees the list of the rows, which rise by key. Those of the last
/// block are left where they lie: where a step has one block for a source, no row is put into the map.
#[derive(Drop)]
pub(crate) struct ToldRows<'a> {
    /// The cells of each row that the blocks before the last one told, under its key.
    rows: BTreeMap<u64, &'a [i64]>,
    /// The last block, if there is one.
    last: Option<&'a Block>,
}

impl<'a> Model for ToldRows<'a> {
    ghost use Rattle.std.specs.Prelude.{List, map};
    ghost use Rattle.source_changes.specs.Told.{Rises, told_row, with_block};
    ghost use Rattle.tick_model.specs.declared.table.PlainRow.{PlainRow};

    ghost Value = { List PlainRow };

    ghost view = { λ told. with_block told.last (map told_row told.rows.entries) };

    ghost invariant = { λ told. Rises told.last };
}

impl<'a> ToldRows<'a> {
    /// No rows.
    pub(crate) fn new(alloc: Global) -> ToldRows<'a>
        ensures { result ≡ [] }
    {
        ToldRows {
            rows: BTreeMap::new(alloc),
            last: None,
        }
    }

    /// The cells of the row under a key.
    pub(crate) fn get(&self, key: u64) -> Option<&'a [i64]>
        ensures { option_map (λ cells. cells.now) result ≡ option_map (λ row. row.cells) (row_at key self.now) }
    {
        let earlier = self.rows.get(&key).copied();
        let Some(block) = self.last else {
            return earlier;
        };
        cells_under(&block.modified, key).or(cells_under(&block.added, key).or(earlier))
    }

    /// Makes the told rows those after a block, whose update this is. After a refusal they are to be given up.
    pub(crate) fn tell(
        &mut self,
        alloc: Global,
        update: &Update,
        block: &'a Block,
    ) -> Result<(), AllocError>
        requires update { update.now ≡ update_of block.now }
        requires readable { IsReadable block.now }
        requires lawful { IsLawful block.now.shifts (without (update_of block.now).removed (keys self.old)) }
        ensures { OnOk result (self.new ≡ told_after self.old block.now) }
    {
        put_block(&mut self.rows, self.last)?;
        remove_ranges(&mut self.rows, update.removed().ranges());
        shift_rows(alloc, &mut self.rows, update.shifted())?;
        self.last = Some(block);
        Ok(())
    }
}

/// The cells of the row under a key, among rows that rise by key.
fn cells_under<'a>(rows: &'a RowList, key: u64) -> Option<&'a [i64]>
    requires { IsRising (keys rows.now) }
    ensures { option_map (λ cells. cells.now) result ≡ option_map (λ row. row.cells) (row_at key rows.now) }
{
    match rows.keys().binary_search(&key) {
        Ok(place) => Some(rows.row(place)),
        Err(_) => None,
    }
}

/// The first told key of a range.
fn first_told<'a>(rows: &BTreeMap<u64, &'a [i64]>, range: &Range) -> Option<u64>
    requires { range.now.first ≤ range.now.last }
    ensures held { IfSome result (λ key. holds key range.now ≡ true) }
    ensures told { IfSome result (λ key. IsSome (get nat_cmp rows.now key)) }
    ensures none { IfNone result (AllByRecursion (λ entry. holds entry.0 range.now ≡ false) rows.now.entries) }
{
    match rows.range(range.first..=range.last).next() {
        Some((key, _)) => Some(*key),
        None => None,
    }
}

/// Takes the rows under the keys of a range away, each by a search: the cost is that of the rows that are told there.
fn remove_range<'a>(rows: &mut BTreeMap<u64, &'a [i64]>, range: &Range)
    requires { range.now.first ≤ range.now.last }
    ensures { rows.new.entries ≡ filter (λ entry. not (holds entry.0 range.now)) rows.old.entries }
{
    while let Some(key) = first_told(rows, range) {
        let _cells = rows.remove(&key);
    }
}

/// Takes the rows under the keys of ranges away.
fn remove_ranges<'a>(rows: &mut BTreeMap<u64, &'a [i64]>, ranges: &[Range])
    requires { AllByRecursion (λ range. range.first ≤ range.last) ranges.now }
    ensures { rows.new.entries ≡ filter (λ entry. not (is_among entry.0 (keys_of ranges.now))) rows.old.entries }
{
    for range in ranges {
        remove_range(rows, range);
    }
}

/// Moves the rows. After a refusal they are to be given up.
fn shift_rows<'a>(
    alloc: Global,
    rows: &mut BTreeMap<u64, &'a [i64]>,
    shift: &ShiftData,
) -> Result<(), AllocError>
    requires { IsLawful shift.now (map_keys rows.old.entries) }
    ensures { OnOk result (map told_row rows.new.entries ≡ shifting shift.now (map told_row rows.old.entries)) }
{
    if shift.ranges().is_empty() {
        return Ok(());
    }
    let staying = mem::replace(rows, BTreeMap::new(alloc));
    let moved = moved_rows(alloc, staying, shift)?;
    *rows = moved;
    Ok(())
}

/// The rows under the keys to which they move.
fn moved_rows<'a>(
    alloc: Global,
    mut rows: BTreeMap<u64, &'a [i64]>,
    shift: &ShiftData,
) -> Result<BTreeMap<u64, &'a [i64]>, AllocError>
    requires small { AllByRecursion (λ key. key < 2 ^ 62) (map_keys rows.entries) }
    requires lawful { IsLawful shift.now (map_keys rows.entries) }
    ensures { IfOk result (λ moved. map told_row moved.entries ≡ shifting shift.now (map told_row rows.entry.entries)) }
{
    let mut moved = BTreeMap::new(alloc);
    while let Some((key, cells)) = rows.pop_first() {
        moved.insert(shift.landing(key), cells)?;
    }
    Ok(moved)
}

/// Puts rows among others.
fn put_all<'a>(told: &mut BTreeMap<u64, &'a [i64]>, rows: &'a RowList) -> Result<(), AllocError>
    ensures { OnOk result (map told_row told.new.entries ≡ put_rows rows.now (map told_row told.old.entries)) }
{
    for (place, key) in rows.keys().iter().enumerate() {
        told.insert(*key, rows.row(place))?;
    }
    Ok(())
}

/// Puts the rows of a block, if there is one, among those that are told.
fn put_block<'a>(
    told: &mut BTreeMap<u64, &'a [i64]>,
    block: Option<&'a Block>,
) -> Result<(), AllocError>
    ensures { OnOk result (map told_row told.new.entries ≡ with_block block.entry (map told_row told.old.entries)) }
{
    if let Some(block) = block {
        put_all(told, &block.added)?;
        put_all(told, &block.modified)?;
    }
    Ok(())
}
