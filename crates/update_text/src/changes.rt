//! The text of a change, given by its update and the cells of the rows that it tells.
ghost use Rattle.std.specs.Prelude.{◌≡◌, ◌*◌, ◌<◌, ◌≤◌, ◌++◌, OnOk, IfOk, drop, flat_map, length, map, false, if◌then◌else◌, []};
ghost use Rattle.std.specs.List.{AllByRecursion};
ghost use Rattle.key_lists.specs.Keys.{IsRising};
ghost use Rattle.tick_model.specs.Changes.{is_empty, rows_under};
ghost use Rattle.tick_model.specs.Printable.{IsPrintable};
ghost use Rattle.tick_model.specs.Texts.{column_name, columns_record, comma_before, record_text, records_text, row_record, shift_record, step_record};
ghost use Rattle.update_text.specs.Told.{change_shown, change_with, parts_shown, range_record, records_of};

use crate::Shown;
use crate::fields::push_field;
use crate::record::push_next_field;
use crate::rows::{BYTES_A_WORD, push_next_number, push_next_signed, push_row};
use row_set::{Range, RowSet};
use std::alloc::{AllocError, Global};
use table_update::{ColumnSet, Update};
use tick_model::items::Items;
use tick_model::name::Name;
use tick_model::plan::ColumnSpec;
use tick_model::update::ShiftRange;

/// Appends the first record of a change.
fn push_step(text: &mut Vec<u8>, step: u64, name: &[u8]) -> Result<(), AllocError>
    ensures { OnOk result (text.new.items ≡ text.old.items ++ record_text (step_record step name.now)) }
{
    push_field(text, b"step")?;
    push_next_number(text, step)?;
    push_next_field(text, name)?;
    text.push(b'\n')?;
    Ok(())
}

/// Appends the record of a range of removed keys.
fn push_removed_range(text: &mut Vec<u8>, range: Range) -> Result<(), AllocError>
    ensures { OnOk result (text.new.items ≡ text.old.items ++ record_text (range_record range)) }
{
    push_field(text, b"r")?;
    push_next_number(text, range.first)?;
    push_next_number(text, range.last)?;
    text.push(b'\n')?;
    Ok(())
}

/// Appends the records of ranges of removed keys.
fn push_removed(text: &mut Vec<u8>, ranges: &[Range]) -> Result<(), AllocError>
    ensures { OnOk result (text.new.items ≡ text.old.items ++ records_text (map range_record ranges.now)) }
{
    for range in ranges {
        push_removed_range(text, *range)?;
    }
    Ok(())
}

/// Appends the record of a range of rows that move.
fn push_shift(text: &mut Vec<u8>, range: ShiftRange) -> Result<(), AllocError>
    ensures { OnOk result (text.new.items ≡ text.old.items ++ record_text (shift_record range)) }
{
    push_field(text, b"s")?;
    push_next_number(text, range.begin)?;
    push_next_number(text, range.end)?;
    push_next_signed(text, range.delta)?;
    text.push(b'\n')?;
    Ok(())
}

/// Appends the records of ranges of rows that move.
fn push_shifts(text: &mut Vec<u8>, ranges: &[ShiftRange]) -> Result<(), AllocError>
    ensures { OnOk result (text.new.items ≡ text.old.items ++ records_text (map shift_record ranges.now)) }
{
    for range in ranges {
        push_shift(text, *range)?;
    }
    Ok(())
}

/// Appends a comma and a name, if it is chosen.
fn push_chosen(text: &mut Vec<u8>, name: &[u8], chosen: bool) -> Result<(), AllocError>
    ensures { OnOk result (text.new.items ≡ text.old.items ++ (if chosen then comma_before name.now else [])) }
{
    if chosen {
        push_next_field(text, name)
    } else {
        Ok(())
    }
}

/// Appends the names of chosen columns, each after a comma.
fn push_names(
    text: &mut Vec<u8>,
    columns: &[ColumnSpec],
    chosen: &ColumnSet,
) -> Result<(), AllocError>
    requires few { length columns.now ≤ 32 }
    requires rising { IsRising chosen.now }
    requires there { AllByRecursion (λ column. column < length columns.now) chosen.now }
    ensures { OnOk result (text.new.items ≡ text.old.items ++ flat_map comma_before (map (column_name columns.now) chosen.now)) }
{
    for (place, column) in columns.iter().enumerate() {
        let is_chosen = chosen.has(place as u32);
        push_chosen(text, column.name.as_str().as_bytes(), is_chosen)?;
    }
    Ok(())
}

/// Appends the record of the modified columns, if there are some.
fn push_columns(
    text: &mut Vec<u8>,
    columns: &[ColumnSpec],
    modified: &ColumnSet,
) -> Result<(), AllocError>
    requires few { length columns.now ≤ 32 }
    requires rising { IsRising modified.now }
    requires there { AllByRecursion (λ column. column < length columns.now) modified.now }
    ensures { OnOk result (text.new.items ≡ text.old.items ++ records_text (columns_record columns.now modified.now)) }
{
    if modified.is_empty() {
        return Ok(());
    }
    push_field(text, b"c")?;
    push_names(text, columns, modified)?;
    text.push(b'\n')?;
    Ok(())
}

/// Appends the records of the rows under these keys, whose cells come first among these. It gives the cells behind them.
fn push_told<'a>(
    text: &mut Vec<u8>,
    tag: &[u8],
    texts: &[Name],
    columns: &[ColumnSpec],
    keys: &RowSet,
    cells: &'a [i64],
) -> Result<&'a [i64], AllocError>
    requires { length keys.now * length columns.now ≤ length cells.now }
    ensures text { OnOk result (text.new.items ≡ text.old.items ++ records_text (map (row_record tag.now texts.now columns.now)
        (rows_under (length columns.now) keys.now cells.now))) }
    ensures rest { IfOk result (λ rest. rest.now ≡ drop (length keys.now * length columns.now) cells.now) }
{
    let mut rest = cells;
    for key in keys {
        let (row, others) = rest.split_at(columns.len());
        push_row(text, tag, texts, columns, key, row)?;
        rest = others;
    }
    Ok(rest)
}

/// How many bytes to set aside at first for a change's text.
fn room(update: &Update, cells: &[i64]) -> usize {
    let rows = update.added().len().saturating_add(update.modified().len());
    cells
        .len()
        .saturating_add(rows as usize)
        .saturating_mul(BYTES_A_WORD)
}

/// Appends the records of a change behind the first one.
fn push_parts(
    text: &mut Vec<u8>,
    texts: &[Name],
    columns: &[ColumnSpec],
    update: &Update,
    cells: &[i64],
) -> Result<(), AllocError>
    requires few { length columns.now ≤ 32 }
    requires printable { IsPrintable columns.now texts.now (change_with update.now cells.now) }
    ensures { OnOk result (text.new.items ≡ text.old.items ++ records_text (parts_shown columns.now texts.now (change_with update.now cells.now))) }
{
    push_removed(text, update.removed().ranges())?;
    push_shifts(text, update.shifted().ranges())?;
    let modified = push_told(text, b"a", texts, columns, update.added(), cells)?;
    push_columns(text, columns, update.columns())?;
    let _ = push_told(text, b"m", texts, columns, update.modified(), modified)?;
    Ok(())
}

/// The text of a change that can be printed and is not empty, given by its update and the cells of the rows that it tells.
pub(crate) fn change_text(
    alloc: Global,
    step: u64,
    shown: &Shown,
    texts: &Items<Name>,
    update: &Update,
    cells: &[i64],
) -> Result<Vec<u8>, AllocError>
    requires few { length shown.now.columns ≤ 32 }
    requires printable { IsPrintable shown.now.columns texts.now (change_with update.now cells.now) }
    requires some { is_empty update.now ≡ false }
    ensures { IfOk result (λ text. text.items ≡ records_text (change_shown step shown.now texts.now (change_with update.now cells.now))) }
{
    let mut text = Vec::with_capacity(alloc, room(update, cells))?;
    push_step(&mut text, step, shown.name.as_str().as_bytes())?;
    push_parts(
        &mut text,
        texts.as_slice(),
        shown.columns.as_slice(),
        update,
        cells,
    )?;
    Ok(text)
}

/// How many records tell a change that is not empty.
pub(crate) fn count_records(update: &Update) -> u64
    ensures { result ≡ records_of update.now }
{
    let ranges = update.removed().ranges().len() + update.shifted().ranges().len();
    let rows = update.added().len() + update.modified().len();
    let columns = u64::from(!update.columns().is_empty());
    1 + ranges as u64 + rows + columns
}
