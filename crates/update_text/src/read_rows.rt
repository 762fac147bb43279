//! Rows, read back from their records.
ghost use Rattle.std.specs.Prelude.{◌≡◌, ℕ, ◌+◌, ◌^◌, ◌<◌, ◌≤◌, List, ◌∷◌, ◌++◌, [], ℤ, length, flat_map, map, true, false, FitsSigned, IfOk, IfSome, OnOk, Some, slice_index_or};
ghost use Rattle.std.specs.Fmt.{decimal};
ghost use Rattle.std.specs.Int.{w64};
ghost use Rattle.std.specs.List.{AllByRecursion};
ghost use Rattle.key_lists.specs.Keys.{IsRising};
ghost use Rattle.row_set.specs.Ranges.{keys_from};
ghost use Rattle.tick_model.specs.declared.table.PlainRow.{PlainRow};
ghost use Rattle.tick_model.specs.LawfulRuns.{AreTexts};
ghost use Rattle.tick_model.specs.Printable.{fit_columns, fits_kind, names_text};
ghost use Rattle.tick_model.specs.Shifts.{as_key};
ghost use Rattle.tick_model.specs.Tables.{keys as row_keys};
ghost use Rattle.tick_model.specs.Texts.{cell_text, cell_texts, needs_quotes, row_record};
ghost use Rattle.update_text.specs.Reading.{AreAhead, Gives, IsToldRow, next_fields};

use crate::printed::PrintedFault;
use crate::read_fields::{after_tag, read_line_end, read_next_field, read_next_number, signed_of};
use row_set::RowSet;
use tick_model::formula::NULL;
use tick_model::limits::KEY_SPACE;
use tick_model::name::Name;
use tick_model::plan::{ColumnSpec, Kind};

/// Whether a key stands behind those of a set.
fn is_behind(keys: &RowSet, key: u64) -> bool
    ensures behind { result ≡ true → AllByRecursion (λ other. other < key) keys.now }
    ensures told { AllByRecursion (λ other. other < key) keys.now → result ≡ true }
    ensures set { IsRising keys.now }
{
    match keys.last() {
        Some(last) => last < key,
        None => true,
    }
}

/// Puts the keys from the first to the last behind those of a set. Keys that are none, or that do not stand behind them, are refused.
pub(crate) fn put_last(keys: &mut RowSet, first: u64, last: u64) -> Result<(), PrintedFault>
    ensures put { OnOk result (keys.new ≡ keys.old ++ keys_from first last) }
    ensures small { OnOk result (last < 2 ^ 62) }
    ensures told { first ≤ last → last < 2 ^ 62 → AllByRecursion (λ key. key < first) keys.old → Gives result (λ _. Unit {0}) }
{
    if last < first || last >= KEY_SPACE {
        return Err(PrintedFault::NotPrinted);
    }
    if is_behind(keys, first) {
        keys.insert_range(first, last)?;
        Ok(())
    } else {
        Err(PrintedFault::NotPrinted)
    }
}

/// The place of a text among the texts, which rise.
fn place_of_text(texts: &[Name], field: &[u8]) -> Option<usize>
    ensures place { IfSome result (λ place. place < length texts.now) }
    ensures told { (place : ℕ) → AreTexts texts.now → place < length texts.now → field.now ≡ slice_index_or texts.now place [] → result ≡ Some place }
{
    texts
        .binary_search_by(|text| text.as_str().as_bytes().cmp(&field))
        .ok()
}

/// The rank of a text.
fn rank_of(texts: &[Name], field: &[u8]) -> Result<i64, PrintedFault>
    ensures rank { IfOk result (λ rank. names_text (length texts.now) rank ≡ true) }
    ensures told { (rank : ℤ) → AreTexts texts.now → names_text (length texts.now) rank ≡ true → field.now ≡ slice_index_or texts.now (as_key rank) []
        → Gives result (λ read. read ≡ rank) }
{
    match place_of_text(texts, field) {
        Some(place) => Ok(place as i64),
        None => Err(PrintedFault::NotPrinted),
    }
}

/// The cell that a field tells: null where it is empty, else its number or the rank of its text.
fn cell_of(kind: Kind, texts: &[Name], field: &[u8]) -> Result<i64, PrintedFault>
    ensures fits { IfOk result (λ cell. fits_kind (length texts.now) kind cell ≡ true) }
    ensures number { IfOk result (λ cell. FitsSigned w64 cell) }
    ensures told { (cell : ℤ) → AreTexts texts.now → FitsSigned w64 cell → fits_kind (length texts.now) kind cell ≡ true → field.now ≡ cell_text texts.now kind cell
        → Gives result (λ read. read ≡ cell) }
{
    if field.is_empty() {
        return Ok(NULL);
    }
    match kind {
        Kind::Long => signed_of(field),
        Kind::Text => rank_of(texts, field),
    }
}

/// Reads a comma and a cell.
fn read_next_cell<'a>(
    bytes: &'a [u8],
    kind: Kind,
    texts: &[Name],
    field: &mut Vec<u8>,
) -> Result<(i64, &'a [u8]), PrintedFault>
    ensures shorter { IfOk result (λ left. length left.1.now ≤ length bytes.now) }
    ensures fits { IfOk result (λ read. fits_kind (length texts.now) kind read.0 ≡ true) }
    ensures number { IfOk result (λ read. FitsSigned w64 read.0) }
    ensures told { (cell : ℤ) (others : List (List ℕ)) (rest : List ℕ) → AreTexts texts.now → FitsSigned w64 cell → fits_kind (length texts.now) kind cell ≡ true
        → bytes.now ≡ next_fields (cell_text texts.now kind cell ∷ others) rest
        → Gives result (λ read. (read.0 ≡ cell) × (read.1.now ≡ next_fields others rest)) }
{
    let rest = read_next_field(bytes, field)?;
    let cell = cell_of(kind, texts, field)?;
    Ok((cell, rest))
}

/// Reads the cells of a row, each behind a comma, and puts them behind others.
fn read_cells<'a>(
    bytes: &'a [u8],
    columns: &[ColumnSpec],
    texts: &[Name],
    cells: &mut Vec<i64>,
    field: &mut Vec<u8>,
) -> Result<&'a [u8], PrintedFault>
    ensures shorter { IfOk result (λ left. length left.now ≤ length bytes.now) }
    ensures row { IfOk result (λ _. (row : List ℤ) × (cells.new.items ≡ cells.old.items ++ row)
        × (fit_columns (length texts.now) columns.now row ≡ true) × AllByRecursion (FitsSigned w64) row) }
    ensures told { (row : List ℤ) (rest : List ℕ) → AreTexts texts.now → AllByRecursion (FitsSigned w64) row → fit_columns (length texts.now) columns.now row ≡ true
        → bytes.now ≡ next_fields (cell_texts texts.now columns.now row) rest
        → Gives result (λ left. (left.now ≡ next_fields [] rest) × (cells.new.items ≡ cells.old.items ++ row)) }
{
    let mut rest = bytes;
    for column in columns {
        let (cell, others) = read_next_cell(rest, column.kind, texts, field)?;
        cells.push(cell)?;
        rest = others;
    }
    Ok(rest)
}

/// Reads the record of a row behind its tag: its key, and the cells, which it puts behind others.
fn read_row<'a>(
    bytes: &'a [u8],
    columns: &[ColumnSpec],
    texts: &[Name],
    cells: &mut Vec<i64>,
    field: &mut Vec<u8>,
) -> Result<(u64, &'a [u8]), PrintedFault>
    ensures shorter { IfOk result (λ left. length left.1.now ≤ length bytes.now) }
    ensures row { IfOk result (λ _. (row : List ℤ) × (cells.new.items ≡ cells.old.items ++ row)
        × (fit_columns (length texts.now) columns.now row ≡ true) × AllByRecursion (FitsSigned w64) row) }
    ensures told { (row : PlainRow) (rest : List ℕ) → AreTexts texts.now → IsToldRow columns.now texts.now row
        → bytes.now ≡ next_fields (decimal row.key ∷ cell_texts texts.now columns.now row.cells) rest
        → Gives result (λ read. (read.0 ≡ row.key) × (read.1.now ≡ rest) × (cells.new.items ≡ cells.old.items ++ row.cells)) }
{
    let (key, rest) = read_next_number(bytes, field)?;
    let rest = read_cells(rest, columns, texts, cells, field)?;
    let rest = read_line_end(rest)?;
    Ok((key, rest))
}

/// Reads the records of rows with this tag: their keys, into an empty set, and their cells, which it puts behind others.
pub(crate) fn read_rows<'a>(
    bytes: &'a [u8],
    tag: u8,
    columns: &[ColumnSpec],
    texts: &[Name],
    keys: &mut RowSet,
    cells: &mut Vec<i64>,
    field: &mut Vec<u8>,
) -> Result<&'a [u8], PrintedFault>
    requires empty { keys.old ≡ [] }
    requires plain { needs_quotes tag ≡ false }
    ensures rows { IfOk result (λ _. (rows : List PlainRow) × (keys.new ≡ row_keys rows) × (cells.new.items ≡ cells.old.items ++ flat_map (λ row. row.cells) rows)
        × AllByRecursion (IsToldRow columns.now texts.now) rows) }
    ensures told { (rows : List PlainRow) (rest : List ℕ) → AreTexts texts.now → IsRising (row_keys rows)
        → AreAhead (row_record (tag ∷ []) texts.now columns.now) (IsToldRow columns.now texts.now) tag rows rest bytes.now
        → Gives result (λ left. (left.now ≡ rest) × (keys.new ≡ row_keys rows) × (cells.new.items ≡ cells.old.items ++ flat_map (λ row. row.cells) rows)) }
{
    let mut rest = bytes;
    while let Some(fields) = after_tag(rest, tag) {
        let (key, left) = read_row(fields, columns, texts, cells, field)?;
        put_last(keys, key, key)?;
        rest = left;
    }
    Ok(rest)
}
