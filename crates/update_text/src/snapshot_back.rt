//! A snapshot, read back from its text: its rows are read one by one, and then the snapshot is written again and compared.
ghost use Rattle.std.specs.Prelude.{◌≡◌, ℕ, ◌^◌, ◌<◌, ◌≤◌, ◌*◌, ◌∷◌, ◌++◌, List, length, map, codes, IfOk, OnOk};
ghost use Rattle.std.specs.Fmt.{decimal};
ghost use Rattle.std.specs.List.{AllByRecursion};
ghost use Rattle.key_lists.specs.Keys.{IsRising};
ghost use Rattle.tick_model.specs.declared.table.PlainRow.{PlainRow as RowOf};
ghost use Rattle.tick_model.specs.Changes.{rows_under};
ghost use Rattle.tick_model.specs.LawfulRuns.{AreTexts};
ghost use Rattle.tick_model.specs.Tables.{keys as row_keys};
ghost use Rattle.tick_model.specs.Texts.{record_text, records_text, row_record};
ghost use Rattle.update_text.specs.declared.printed.Snapshot.{Snapshot as SnapshotOf};
ghost use Rattle.update_text.specs.Reading.{Gives, IsToldRow, next_fields};
ghost use Rattle.update_text.specs.Snapshots.{IsSnapshot, snap_record, snapshot_text as text_of};

use crate::Shown;
use crate::printed::{PrintedFault, Snapshot};
use crate::read_fields::{read_field, read_line_end, read_next_field, read_next_number};
use crate::read_rows::read_rows;
use crate::rows::push_rows;
use crate::snapshots::push_head;
use row_set::RowSet;
use std::alloc::{AllocError, Global};
use tick_model::items::Items;
use tick_model::name::Name;
use tick_model::plan::ColumnSpec;
use tick_model::table::PlainRow;

/// Reads a comma and a number of 32 bits.
fn read_next_small<'a>(
    bytes: &'a [u8],
    field: &mut Vec<u8>,
) -> Result<(u32, &'a [u8]), PrintedFault>
    ensures { (number : ℕ) (others : List (List ℕ)) (rest : List ℕ) → number < 2 ^ 32
        → bytes.now ≡ next_fields (decimal number ∷ others) rest
        → Gives result (λ read. (read.0 ≡ number) × (read.1.now ≡ next_fields others rest)) }
{
    let (number, rest) = read_next_number(bytes, field)?;
    match u32::try_from(number) {
        Ok(small) => Ok((small, rest)),
        Err(_) => Err(PrintedFault::NotPrinted),
    }
}

/// Reads the first record of a snapshot: the caller, the call and the step. Whether the name is the right one shows where the text is
/// compared.
fn read_head<'a>(
    bytes: &'a [u8],
    field: &mut Vec<u8>,
) -> Result<(u32, u32, u64, &'a [u8]), PrintedFault>
    ensures { (caller call step : ℕ) (name rest : List ℕ) → caller < 2 ^ 32 → call < 2 ^ 32 → step < 2 ^ 64
        → bytes.now ≡ record_text (snap_record caller call step name) ++ rest
        → Gives result (λ read. (read.0 ≡ caller) × (read.1 ≡ call) × (read.2 ≡ step) × (read.3.now ≡ rest)) }
{
    let rest = read_field(bytes, field)?;
    let (caller, rest) = read_next_small(rest, field)?;
    let (call, rest) = read_next_small(rest, field)?;
    let (step, rest) = read_next_number(rest, field)?;
    let rest = read_next_field(rest, field)?;
    let rest = read_line_end(rest)?;
    Ok((caller, call, step, rest))
}

/// The row under a key.
fn row_of(alloc: Global, key: u64, cells: &[i64]) -> Result<PlainRow, AllocError>
    ensures { IfOk result (λ row. row ≡ (record { key = key; cells = cells.now })) }
{
    let mut own = Vec::with_capacity(alloc, cells.len())?;
    own.extend_from_slice(cells)?;
    Ok(PlainRow {
        key,
        cells: Items::of(own),
    })
}

/// The rows under these keys, whose cells stand one row after the other.
fn rows_of(
    alloc: Global,
    width: usize,
    keys: &RowSet,
    cells: &[i64],
) -> Result<Items<PlainRow>, AllocError>
    requires { length keys.now * width ≤ length cells.now }
    ensures rows { IfOk result (λ rows. rows ≡ rows_under width keys.now cells.now) }
    ensures rising { OnOk result (IsRising keys.now) }
{
    let mut rows = Items::new(alloc);
    let mut rest = cells;
    for key in keys {
        let (row, others) = rest.split_at(width);
        rows.push(row_of(alloc, key, row)?)?;
        rest = others;
    }
    Ok(rows)
}

/// Reads the records of a snapshot's rows.
fn read_table(
    alloc: Global,
    bytes: &[u8],
    columns: &[ColumnSpec],
    texts: &[Name],
    field: &mut Vec<u8>,
) -> Result<Items<PlainRow>, PrintedFault>
    ensures rows { IfOk result (AllByRecursion (IsToldRow columns.now texts.now)) }
    ensures rising { IfOk result (λ rows. IsRising (row_keys rows)) }
    ensures told { (rows : List RowOf) → AreTexts texts.now → IsRising (row_keys rows) → AllByRecursion (IsToldRow columns.now texts.now) rows
        → bytes.now ≡ records_text (map (row_record (codes "w") texts.now columns.now) rows) → Gives result (λ read. read ≡ rows) }
{
    let mut keys = RowSet::new(alloc);
    let mut cells = Vec::new(alloc);
    let _ = read_rows(bytes, b'w', columns, texts, &mut keys, &mut cells, field)?;
    let rows = rows_of(alloc, columns.len(), &keys, &cells)?;
    Ok(rows)
}

/// Reads the records of a snapshot.
fn read_records(
    alloc: Global,
    bytes: &[u8],
    shown: &Shown,
    texts: &Items<Name>,
) -> Result<Snapshot, PrintedFault>
    ensures is { IfOk result (IsSnapshot shown.now.columns texts.now) }
    ensures told { (snapshot : SnapshotOf) → AreTexts texts.now → IsSnapshot shown.now.columns texts.now snapshot
        → bytes.now ≡ text_of shown.now texts.now snapshot → Gives result (λ read. read ≡ snapshot) }
{
    let mut field = Vec::new(alloc);
    let (caller, call, step, rest) = read_head(bytes, &mut field)?;
    let rows = read_table(
        alloc,
        rest,
        shown.columns.as_slice(),
        texts.as_slice(),
        &mut field,
    )?;
    Ok(Snapshot {
        caller,
        call,
        step,
        rows,
    })
}

/// The text of a snapshot.
fn snapshot_text(
    alloc: Global,
    shown: &Shown,
    texts: &Items<Name>,
    snapshot: &Snapshot,
) -> Result<Vec<u8>, AllocError>
    ensures { IfOk result (λ text. text.items ≡ text_of shown.now texts.now snapshot.now) }
{
    let mut text = Vec::new(alloc);
    push_head(
        &mut text,
        snapshot.caller,
        snapshot.call,
        snapshot.step,
        shown.name.as_str().as_bytes(),
    )?;
    push_rows(
        &mut text,
        b"w",
        texts.as_slice(),
        shown.columns.as_slice(),
        snapshot.rows.as_slice(),
    )?;
    Ok(text)
}

/// The one snapshot of a table whose text this is, for the name, the columns and the texts.
///
/// The texts are not empty and rise in the order of their bytes. `NotPrinted` comes exactly where the text is that of no snapshot.
pub fn read_snapshot(
    alloc: Global,
    bytes: &[u8],
    shown: &Shown,
    texts: &Items<Name>,
) -> Result<Snapshot, PrintedFault>
    requires { AreTexts texts.now }
    ensures is { IfOk result (IsSnapshot shown.now.columns texts.now) }
    ensures text { IfOk result (λ snapshot. bytes.now ≡ text_of shown.now texts.now snapshot) }
    ensures told { (snapshot : SnapshotOf) → IsSnapshot shown.now.columns texts.now snapshot
        → bytes.now ≡ text_of shown.now texts.now snapshot → Gives result (λ read. read ≡ snapshot) }
{
    let snapshot = read_records(alloc, bytes, shown, texts)?;
    let text = snapshot_text(alloc, shown, texts, &snapshot)?;
    if text.as_slice() == bytes {
        Ok(snapshot)
    } else {
        Err(PrintedFault::NotPrinted)
    }
}
