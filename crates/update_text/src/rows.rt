//! Rows as records.
ghost use Rattle.std.specs.Prelude.{◌≡◌, ◌++◌, OnOk, flat_map, map, slice_index_or, []};
ghost use Rattle.std.specs.Fmt.{decimal, signed_decimal};
ghost use Rattle.tick_model.specs.Shifts.{as_key};
ghost use Rattle.tick_model.specs.Texts.{comma_before, field_text, cell_text, cell_texts, row_record, record_text, records_text};

use crate::fields::{push_field, push_number, push_signed};
use std::alloc::AllocError;
use tick_model::formula::is_null;
use tick_model::name::Name;
use tick_model::plan::{ColumnSpec, Kind};
use tick_model::table::PlainRow;

/// How many bytes are set aside at first for the text of a key or a cell: as many as it takes as a number.
pub(crate) const BYTES_A_WORD: usize = 8;

/// The bytes of the text of a rank. Past the last rank there are none.
fn text_of_rank(texts: &[Name], rank: i64) -> &[u8]
    ensures { result.now ≡ slice_index_or texts.now (as_key rank) [] }
{
    let place = usize::try_from(rank).unwrap_or(0);
    texts
        .get(place)
        .map_or(b"", |text| text.as_str().as_bytes())
}

/// Appends a cell: nothing where it is null, else its number, or the text of its rank.
pub(crate) fn push_cell(
    text: &mut Vec<u8>,
    texts: &[Name],
    kind: Kind,
    cell: i64,
) -> Result<(), AllocError>
    ensures { OnOk result (text.new.items ≡ text.old.items ++ field_text (cell_text texts.now kind cell)) }
{
    if is_null(cell) {
        return Ok(());
    }
    match kind {
        Kind::Long => push_signed(text, cell),
        Kind::Text => push_field(text, text_of_rank(texts, cell)),
    }
}

/// Appends a comma and a number.
pub(crate) fn push_next_number(text: &mut Vec<u8>, number: u64) -> Result<(), AllocError>
    ensures { OnOk result (text.new.items ≡ text.old.items ++ comma_before (decimal number)) }
{
    text.push(b',')?;
    push_number(text, number)
}

/// Appends a comma and a number that may be negative.
pub(crate) fn push_next_signed(text: &mut Vec<u8>, number: i64) -> Result<(), AllocError>
    ensures { OnOk result (text.new.items ≡ text.old.items ++ comma_before (signed_decimal number)) }
{
    text.push(b',')?;
    push_signed(text, number)
}

/// Appends a comma and a cell.
pub(crate) fn push_next_cell(
    text: &mut Vec<u8>,
    texts: &[Name],
    kind: Kind,
    cell: i64,
) -> Result<(), AllocError>
    ensures { OnOk result (text.new.items ≡ text.old.items ++ comma_before (cell_text texts.now kind cell)) }
{
    text.push(b',')?;
    push_cell(text, texts, kind, cell)
}

/// Appends the cells of a row, each after a comma.
pub(crate) fn push_cells(
    text: &mut Vec<u8>,
    texts: &[Name],
    columns: &[ColumnSpec],
    cells: &[i64],
) -> Result<(), AllocError>
    ensures { OnOk result (text.new.items
        ≡ text.old.items ++ flat_map comma_before (cell_texts texts.now columns.now cells.now)) }
{
    for (column, cell) in columns.iter().zip(cells) {
        push_next_cell(text, texts, column.kind, *cell)?;
    }
    Ok(())
}

/// Appends the record of a row: its tag, its key and its cells.
pub(crate) fn push_row(
    text: &mut Vec<u8>,
    tag: &[u8],
    texts: &[Name],
    columns: &[ColumnSpec],
    key: u64,
    cells: &[i64],
) -> Result<(), AllocError>
    ensures { OnOk result (text.new.items
        ≡ text.old.items ++ record_text (row_record tag.now texts.now columns.now (record { key = key; cells = cells.now }))) }
{
    push_field(text, tag)?;
    push_next_number(text, key)?;
    push_cells(text, texts, columns, cells)?;
    text.push(b'\n')?;
    Ok(())
}

/// Appends the records of rows.
pub(crate) fn push_rows(
    text: &mut Vec<u8>,
    tag: &[u8],
    texts: &[Name],
    columns: &[ColumnSpec],
    rows: &[PlainRow],
) -> Result<(), AllocError>
    ensures { OnOk result (text.new.items
        ≡ text.old.items ++ records_text (map (row_record tag.now texts.now columns.now) rows.now)) }
{
    for row in rows {
        push_row(text, tag, texts, columns, row.key, row.cells.as_slice())?;
    }
    Ok(())
}
