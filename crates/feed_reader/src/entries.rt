//! What the records of a feed say.

ghost use Rattle.std.specs.Prelude.{◌≡◌, ◌<◌, ◌^◌, ◌+◌, ℕ, ℤ, List, true, IfOk, IfSome, length, drop, option_map};
ghost use Rattle.tick_model.specs.Plans.{columns_at as columns_of};
ghost use Rattle.feed_reader.specs.Entries.{tag_of, is_named as is_named_by, source_named as source_of_name, block_entry as block_of, end_entry as end_of, key_range as range_of, removed_entry as removed_of, shift_entry as shift_of, row_entry as row_of, row_with, shift_by, part_entry as part_of, entry_of};
ghost use Rattle.feed_reader.specs.Places.{opened};
ghost use Rattle.feed_reader.specs.Cells.{key_of, delta_of, cells_of, kinds_in};
ghost use Rattle.feed_reader.specs.Said.{kinds_within, raw_row_at, told_row, told_entry, IsReadRow, IsReadEntry};
ghost use Rattle.tick_model.specs.declared.plan.Kind.{Kind};
ghost use Rattle.feed_reader.specs.Records.{are_texts, at_hand, field_of};

use crate::cells::{ReadCells, delta, key};
use crate::fault::TextKind;
use crate::place::{BlockPart, BlockState, Tag, is_past};
use crate::records::Records;
use std::alloc::{AllocError, Global};
use tick_model::columns::columns_at;
use tick_model::plan::{ColumnSpec, Node, Plan};
use tick_model::sources::is_source;
use tick_model::update::{KeyRange, ShiftRange};

/// The most steps of a feed.
const MOST_STEPS: usize = 100_000;

/// What a record of a feed says.
#[derive(Drop)]
pub(crate) enum FeedEntry {
    /// A block of the source of this node number begins.
    Block(u32),
    Removed(KeyRange),
    Shift(ShiftRange),
    /// A row of this key, whose cells are at hand.
    Added(u64),
    Modified(u64),
    /// The step ends.
    End,
}

fn tag(text: &str) -> Option<Tag>
    ensures { result ≡ tag_of text.now }
{
    let [letter] = text.as_bytes() else {
        return None;
    };
    match letter {
        b't' => Some(Tag::Block),
        b'r' => Some(Tag::Of(BlockPart::Removed)),
        b's' => Some(Tag::Of(BlockPart::Shifts)),
        b'a' => Some(Tag::Of(BlockPart::Added)),
        b'm' => Some(Tag::Of(BlockPart::Modified)),
        b'.' => Some(Tag::End),
        _ => None,
    }
}

fn is_named(name: &str, node: &Node) -> bool
    ensures { result ≡ is_named_by name.now node.now }
{
    is_source(node) && name == node.name.as_str()
}

fn source_place(nodes: &[Node], name: &str) -> Option<usize>
    ensures place { result ≡ source_of_name nodes.now name.now }
    ensures bound { IfSome result (λ place. place < length nodes.now) }
{
    nodes.iter().position(|node| is_named(name, node))
}

/// The node number of the source of a name.
fn source_named(nodes: &[Node], name: &str) -> Option<u32>
    requires { length nodes.now < 2 ^ 32 }
    ensures { result ≡ source_of_name nodes.now name.now }
{
    match source_place(nodes, name) {
        Some(place) => Some(place as u32),
        None => None,
    }
}

fn block_entry(plan: &Plan, fields: &Records<'_>) -> Result<FeedEntry, TextKind>
    requires { length plan.now.nodes < 2 ^ 32 }
    ensures { (texts : List (List ℕ)) (kinds : List Kind) (cells : List ℤ) → told_entry texts kinds cells result ≡ block_of plan.now (at_hand fields.now) }
{
    if fields.len() != 2 {
        return Err(TextKind::FieldCount);
    }
    match source_named(plan.nodes.as_slice(), fields.field(1)) {
        Some(table) => Ok(FeedEntry::Block(table)),
        None => Err(TextKind::UnknownTable),
    }
}

fn end_entry(steps: usize, fields: &Records<'_>) -> Result<FeedEntry, TextKind>
    ensures { (texts : List (List ℕ)) (kinds : List Kind) (cells : List ℤ) → told_entry texts kinds cells result ≡ end_of steps (at_hand fields.now) }
{
    if fields.len() != 1 {
        return Err(TextKind::FieldCount);
    }
    if steps < MOST_STEPS {
        Ok(FeedEntry::End)
    } else {
        Err(TextKind::TooLong)
    }
}

/// The range that the fields after the tag spell.
fn key_range(fields: &Records<'_>) -> Option<KeyRange>
    ensures { result ≡ range_of (key_of (field_of (at_hand fields.now) 1)) (key_of (field_of (at_hand fields.now) 2)) }
{
    let first = key(fields.field(1))?;
    let last = key(fields.field(2))?;
    if first <= last {
        Some(KeyRange { first, last })
    } else {
        None
    }
}

fn removed_entry(last: Option<u64>, fields: &Records<'_>) -> Result<FeedEntry, TextKind>
    ensures { (texts : List (List ℕ)) (kinds : List Kind) (cells : List ℤ) → told_entry texts kinds cells result ≡ removed_of last (at_hand fields.now) }
{
    if fields.len() != 3 {
        return Err(TextKind::FieldCount);
    }
    match key_range(fields) {
        Some(range) if is_past(last, range.first) => Ok(FeedEntry::Removed(range)),
        Some(_) => Err(TextKind::OutOfOrder),
        None => Err(TextKind::BadNumber),
    }
}

fn shift_range(fields: &Records<'_>) -> Option<ShiftRange>
    ensures { result ≡ shift_by (range_of (key_of (field_of (at_hand fields.now) 1)) (key_of (field_of (at_hand fields.now) 2))) (delta_of (field_of (at_hand fields.now) 3)) }
{
    let range = key_range(fields)?;
    let delta = delta(fields.field(3))?;
    Some(ShiftRange {
        begin: range.first,
        end: range.last,
        delta,
    })
}

fn shift_entry(last: Option<u64>, fields: &Records<'_>) -> Result<FeedEntry, TextKind>
    ensures { (texts : List (List ℕ)) (kinds : List Kind) (cells : List ℤ) → told_entry texts kinds cells result ≡ shift_of last (at_hand fields.now) }
{
    if fields.len() != 4 {
        return Err(TextKind::FieldCount);
    }
    match shift_range(fields) {
        Some(range) if is_past(last, range.begin) => Ok(FeedEntry::Shift(range)),
        Some(_) => Err(TextKind::OutOfOrder),
        None => Err(TextKind::BadNumber),
    }
}

/// Reads the row that the fields after the tag spell. Gives its key.
fn row(
    alloc: Global,
    columns: &[ColumnSpec],
    fields: &Records<'_>,
    read: &mut ReadCells,
) -> Result<Option<u64>, AllocError>
    requires { length (at_hand fields.now) ≡ length columns.now + 2 }
    ensures read { IfOk result (λ key. IfSome key (IsReadRow read.old.texts (kinds_in columns.now) read.new)) }
    ensures row { IfOk result (λ key. option_map (raw_row_at read.new.texts (kinds_in columns.now) read.new.cells.items) key
        ≡ row_with (key_of (field_of (at_hand fields.now) 1)) (cells_of columns.now (drop 2 (at_hand fields.now)))) }
{
    let Some(key) = key(fields.field(1)) else {
        return Ok(None);
    };
    read.cells.clear();
    if read.read(alloc, columns, fields, 2)? {
        Ok(Some(key))
    } else {
        Ok(None)
    }
}

fn row_entry(
    alloc: Global,
    columns: &[ColumnSpec],
    last: Option<u64>,
    fields: &Records<'_>,
    read: &mut ReadCells,
) -> Result<Result<u64, TextKind>, AllocError>
    ensures read { IfOk result (λ told. IfOk told (IsReadRow read.old.texts (kinds_in columns.now) read.new)) }
    ensures told { IfOk result (λ told. told_row read.new.texts (kinds_in columns.now) read.new.cells.items told ≡ row_of columns.now last (at_hand fields.now)) }
{
    if fields.len() != columns.len() + 2 {
        return Ok(Err(TextKind::FieldCount));
    }
    match row(alloc, columns, fields, read)? {
        Some(key) if is_past(last, key) => Ok(Ok(key)),
        Some(_) => Ok(Err(TextKind::OutOfOrder)),
        None => Ok(Err(TextKind::BadNumber)),
    }
}

fn part_entry(
    alloc: Global,
    plan: &Plan,
    place: BlockState,
    part: BlockPart,
    fields: &Records<'_>,
    read: &mut ReadCells,
) -> Result<Result<FeedEntry, TextKind>, AllocError>
    ensures read { IfOk result (λ told. IfOk told (IsReadEntry read.old.texts (kinds_within plan.now place) read.new)) }
    ensures told { IfOk result (λ told. told_entry read.new.texts (kinds_within plan.now place) read.new.cells.items told ≡ part_of plan.now (opened place part) part (at_hand fields.now)) }
{
    let Some((table, last)) = place.opened(part) else {
        return Ok(Err(TextKind::OutOfOrder));
    };
    let columns = columns_at(plan.nodes.as_slice(), table);
    match part {
        BlockPart::Removed => Ok(removed_entry(last, fields)),
        BlockPart::Shifts => Ok(shift_entry(last, fields)),
        BlockPart::Added => {
            Ok(row_entry(alloc, columns, last, fields, read)?.map(FeedEntry::Added))
        }
        BlockPart::Modified => {
            Ok(row_entry(alloc, columns, last, fields, read)?.map(FeedEntry::Modified))
        }
    }
}

/// What a record of text says, after so many ended steps, or the first kind that refuses it. The cells of a row are those that are read then.
pub(crate) fn read_entry(
    alloc: Global,
    plan: &Plan,
    place: BlockState,
    steps: usize,
    fields: &Records<'_>,
    read: &mut ReadCells,
) -> Result<Result<FeedEntry, TextKind>, AllocError>
    requires text { are_texts (at_hand fields.now) ≡ true }
    requires nodes { length plan.now.nodes < 2 ^ 32 }
    ensures read { IfOk result (λ told. IfOk told (IsReadEntry read.old.texts (kinds_within plan.now place) read.new)) }
    ensures told { IfOk result (λ told. told_entry read.new.texts (kinds_within plan.now place) read.new.cells.items told ≡ entry_of plan.now place steps (at_hand fields.now)) }
{
    match tag(fields.field(0)) {
        Some(Tag::Block) => Ok(block_entry(plan, fields)),
        Some(Tag::Of(part)) => part_entry(alloc, plan, place, part, fields, read),
        Some(Tag::End) => Ok(end_entry(steps, fields)),
        None => Ok(Err(TextKind::BadTag)),
    }
}
