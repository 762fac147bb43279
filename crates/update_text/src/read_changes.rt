//! The parts of a change but its rows, read back from their records.
ghost use Rattle.std.specs.Prelude.{◌≡◌, ℕ, ◌+◌, ◌^◌, ◌<◌, ◌≤◌, List, ◌∷◌, ◌++◌, [], ℤ, length, flat_map, map, true, false, IfOk, IfSome, OnOk, Some};
ghost use Rattle.std.specs.Fmt.{decimal, signed_decimal};
ghost use Rattle.std.specs.List.{AllByRecursion};
ghost use Rattle.key_lists.specs.Keys.{IsRising};
ghost use Rattle.row_set.specs.Sets.{with_key};
ghost use Rattle.tick_model.specs.declared.update.ShiftRange.{ShiftRange as RangeThatMoves};
ghost use Rattle.tick_model.specs.Names.{are_distinct};
ghost use Rattle.tick_model.specs.Printable.{IsShift, IsShiftRange};
ghost use Rattle.tick_model.specs.Texts.{column_name, columns_record, record_text, records_text, removed_record, shift_record, step_record};
ghost use Rattle.update_text.specs.Reading.{AreAhead, Gives, has_tag, is_run, next_fields, run_keys};

use crate::printed::PrintedFault;
use crate::read_fields::{
    after_tag, begins_with_comma, read_field, read_line_end, read_next_field, read_next_number,
    read_next_signed,
};
use crate::read_rows::put_last;
use row_set::RowSet;
use shift_data::{ShiftData, ShiftFault};
use std::mem;
use table_update::ColumnSet;
use tick_model::limits::KEY_SPACE;
use tick_model::plan::ColumnSpec;
use tick_model::update::ShiftRange;

/// Reads the record of a range of removed keys behind its tag.
fn read_range<'a>(
    bytes: &'a [u8],
    field: &mut Vec<u8>,
) -> Result<(u64, u64, &'a [u8]), PrintedFault>
    ensures shorter { IfOk result (λ left. length left.2.now ≤ length bytes.now) }
    ensures told { (first last : ℕ) (rest : List ℕ) → first < 2 ^ 64 → last < 2 ^ 64 → bytes.now ≡ next_fields (decimal first ∷ decimal last ∷ []) rest
        → Gives result (λ read. (read.0 ≡ first) × (read.1 ≡ last) × (read.2.now ≡ rest)) }
{
    let (first, rest) = read_next_number(bytes, field)?;
    let (last, rest) = read_next_number(rest, field)?;
    let rest = read_line_end(rest)?;
    Ok((first, last, rest))
}

/// Reads the records of ranges of removed keys, into an empty set.
pub(crate) fn read_removed<'a>(
    bytes: &'a [u8],
    keys: &mut RowSet,
    field: &mut Vec<u8>,
) -> Result<&'a [u8], PrintedFault>
    requires { keys.old ≡ [] }
    ensures { (runs : List (ℕ × ℕ)) (rest : List ℕ) → IsRising (flat_map run_keys runs)
        → AreAhead removed_record is_run 114 runs rest bytes.now
        → Gives result (λ left. (left.now ≡ rest) × (keys.new ≡ flat_map run_keys runs)) }
{
    let mut rest = bytes;
    while let Some(fields) = after_tag(rest, b'r') {
        let (first, last, left) = read_range(fields, field)?;
        put_last(keys, first, last)?;
        rest = left;
    }
    Ok(rest)
}

/// Reads the record of a range of rows that move behind its tag.
fn read_shift<'a>(
    bytes: &'a [u8],
    field: &mut Vec<u8>,
) -> Result<(ShiftRange, &'a [u8]), PrintedFault>
    ensures shorter { IfOk result (λ left. length left.1.now ≤ length bytes.now) }
    ensures told { (range : RangeThatMoves) (rest : List ℕ) → IsShiftRange (2 ^ 62) range
        → bytes.now ≡ next_fields (decimal range.begin ∷ decimal range.end ∷ signed_decimal range.delta ∷ []) rest
        → Gives result (λ read. (read.0 ≡ range) × (read.1.now ≡ rest)) }
{
    let (begin, rest) = read_next_number(bytes, field)?;
    let (end, rest) = read_next_number(rest, field)?;
    let (delta, rest) = read_next_signed(rest, field)?;
    let rest = read_line_end(rest)?;
    Ok((ShiftRange { begin, end, delta }, rest))
}

/// Why nothing was read back, where a range cannot stand in a shift.
fn fault_of(fault: ShiftFault) -> PrintedFault
    ensures { fault ≡ ShiftFault.Memory → result ≡ PrintedFault.Memory }
{
    match fault {
        ShiftFault::Memory => PrintedFault::Memory,
        _ => PrintedFault::NotPrinted,
    }
}

/// Puts a range behind those of a shift. A range that cannot stand there is refused.
fn put_shift(shifts: &mut ShiftData, range: ShiftRange) -> Result<(), PrintedFault>
    ensures put { OnOk result (shifts.new ≡ shifts.old ++ range ∷ []) }
    ensures told { IsShift (shifts.old ++ range ∷ []) → IsShiftRange (2 ^ 62) range → Gives result (λ _. Unit {0}) }
{
    if range.begin >= KEY_SPACE || range.end >= KEY_SPACE {
        return Err(PrintedFault::NotPrinted);
    }
    let end = KEY_SPACE as i64;
    if range.delta >= end || range.delta <= -end {
        return Err(PrintedFault::NotPrinted);
    }
    match shifts.push(range.begin, range.end, range.delta) {
        Ok(()) => Ok(()),
        Err(fault) => Err(fault_of(fault)),
    }
}

/// Reads the records of ranges of rows that move, into an empty shift.
pub(crate) fn read_shifts<'a>(
    bytes: &'a [u8],
    shifts: &mut ShiftData,
    field: &mut Vec<u8>,
) -> Result<&'a [u8], PrintedFault>
    requires { shifts.old ≡ [] }
    ensures { (ranges : List RangeThatMoves) (rest : List ℕ) → IsShift ranges
        → AreAhead shift_record (IsShiftRange (2 ^ 62)) 115 ranges rest bytes.now
        → Gives result (λ left. (left.now ≡ rest) × (shifts.new ≡ ranges)) }
{
    let mut rest = bytes;
    while let Some(fields) = after_tag(rest, b's') {
        let (range, left) = read_shift(fields, field)?;
        put_shift(shifts, range)?;
        rest = left;
    }
    Ok(rest)
}

/// Reads the first record of a change: the step. Whether the name is the right one shows where the text is compared.
pub(crate) fn read_step<'a>(
    bytes: &'a [u8],
    field: &mut Vec<u8>,
) -> Result<(u64, &'a [u8]), PrintedFault>
    ensures { (step : ℕ) (name rest : List ℕ) → step < 2 ^ 64 → bytes.now ≡ record_text (step_record step name) ++ rest
        → Gives result (λ read. (read.0 ≡ step) × (read.1.now ≡ rest)) }
{
    let rest = read_field(bytes, field)?;
    let (step, rest) = read_next_number(rest, field)?;
    let rest = read_next_field(rest, field)?;
    let rest = read_line_end(rest)?;
    Ok((step, rest))
}

/// The place of the column of this name.
fn place_of_column(columns: &[ColumnSpec], name: &[u8]) -> Option<usize>
    ensures there { IfSome result (λ place. place < length columns.now) }
    ensures told { (place : ℕ) → are_distinct (map (λ column. column.name) columns.now) ≡ true → place < length columns.now → name.now ≡ column_name columns.now place
        → result ≡ Some place }
{
    columns
        .iter()
        .position(|column| column.name.as_str().as_bytes() == name)
}

/// Chooses one more column.
fn choose(chosen: &mut ColumnSet, place: u32)
    requires { place < 32 }
    ensures { chosen.new ≡ with_key place chosen.old }
{
    *chosen = mem::replace(chosen, ColumnSet::none()).with(place);
}

/// Reads the names of columns, each behind a comma, up to the end of the record.
fn read_names<'a>(
    bytes: &'a [u8],
    columns: &[ColumnSpec],
    chosen: &mut ColumnSet,
    field: &mut Vec<u8>,
) -> Result<&'a [u8], PrintedFault>
    requires few { length columns.now ≤ 32 }
    requires empty { chosen.old ≡ [] }
    ensures rising { OnOk result (IsRising chosen.new) }
    ensures there { OnOk result (AllByRecursion (λ column. column < length columns.now) chosen.new) }
    ensures told { (places : List ℕ) (rest : List ℕ) → are_distinct (map (λ column. column.name) columns.now) ≡ true → IsRising places
        → AllByRecursion (λ column. column < length columns.now) places → bytes.now ≡ next_fields (map (column_name columns.now) places) rest
        → Gives result (λ left. (left.now ≡ rest) × (chosen.new ≡ places)) }
{
    let mut rest = bytes;
    while begins_with_comma(rest) {
        rest = read_next_field(rest, field)?;
        match place_of_column(columns, field.as_slice()) {
            Some(place) => choose(chosen, place as u32),
            None => return Err(PrintedFault::NotPrinted),
        }
    }
    read_line_end(rest)
}

/// Reads the record of the modified columns, if it is there, into an empty set.
pub(crate) fn read_columns<'a>(
    bytes: &'a [u8],
    columns: &[ColumnSpec],
    chosen: &mut ColumnSet,
    field: &mut Vec<u8>,
) -> Result<&'a [u8], PrintedFault>
    requires few { length columns.now ≤ 32 }
    requires empty { chosen.old ≡ [] }
    ensures rising { OnOk result (IsRising chosen.new) }
    ensures there { OnOk result (AllByRecursion (λ column. column < length columns.now) chosen.new) }
    ensures told { (places : List ℕ) (rest : List ℕ) → are_distinct (map (λ column. column.name) columns.now) ≡ true → IsRising places
        → AllByRecursion (λ column. column < length columns.now) places → has_tag 99 rest ≡ false
        → bytes.now ≡ records_text (columns_record columns.now places) ++ rest
        → Gives result (λ left. (left.now ≡ rest) × (chosen.new ≡ places)) }
{
    match after_tag(bytes, b'c') {
        Some(names) => read_names(names, columns, chosen, field),
        None => Ok(bytes),
    }
}
