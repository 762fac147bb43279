//! Snapshots as records.
ghost use Rattle.std.specs.Prelude.{◌≡◌, ◌≤◌, ◌<◌, ◌+◌, ◌*◌, ◌++◌, OnOk, OnErr, IfOk, IsErrOf, codes, flat_map, length, map};
ghost use Rattle.std.specs.Int.{w64, cast_signed};
ghost use Rattle.std.specs.Io.KnownBytes.{append_known};
ghost use Rattle.tick_io.specs.Counts.{Rose};
ghost use Rattle.tick_io.specs.Written.{AppendsPrefix};
ghost use Rattle.tick_model.specs.declared.table.PlainTable.{PlainTable};
ghost use Rattle.tick_model.specs.Texts.{cell_text, cell_texts, comma_before, record_text, records_text, row_record};
ghost use Rattle.update_text.specs.Snapshots.{AreWordsOf, row_told, rows_told, snap_record, snapshot_shown};

use crate::fields::push_field;
use crate::record::push_next_field;
use crate::rows::{BYTES_A_WORD, push_next_cell, push_next_number};
use crate::{Shown, WriteFault};
use std::alloc::{AllocError, Global};
use tick_io::{Sink, put_all};
use tick_model::items::Items;
use tick_model::name::Name;
use tick_model::plan::{ColumnSpec, Kind};

/// Appends the first record of a snapshot.
pub(crate) fn push_head(
    text: &mut Vec<u8>,
    caller: u32,
    call: u32,
    step: u64,
    name: &[u8],
) -> Result<(), AllocError>
    ensures { OnOk result (text.new.items ≡ text.old.items ++ record_text (snap_record caller call step name.now)) }
{
    push_field(text, b"snap")?;
    push_next_number(text, u64::from(caller))?;
    push_next_number(text, u64::from(call))?;
    push_next_number(text, step)?;
    push_next_field(text, name)?;
    text.push(b'\n')?;
    Ok(())
}

/// Appends a comma and the cell that a word holds.
fn push_next_word(
    text: &mut Vec<u8>,
    texts: &[Name],
    kind: Kind,
    word: u64,
) -> Result<(), AllocError>
    ensures { OnOk result (text.new.items
        ≡ text.old.items ++ comma_before (cell_text texts.now kind (cast_signed w64 word))) }
{
    push_next_cell(text, texts, kind, word.cast_signed())
}

/// Appends the cells that words hold, each after a comma.
fn push_words(
    text: &mut Vec<u8>,
    texts: &[Name],
    columns: &[ColumnSpec],
    words: &[u64],
) -> Result<(), AllocError>
    ensures { OnOk result (text.new.items
        ≡ text.old.items ++ flat_map comma_before (cell_texts texts.now columns.now (map (cast_signed w64) words.now))) }
{
    for (column, word) in columns.iter().zip(words) {
        push_next_word(text, texts, column.kind, *word)?;
    }
    Ok(())
}

/// Appends the record of a row that words hold.
fn push_told_row(
    text: &mut Vec<u8>,
    texts: &[Name],
    columns: &[ColumnSpec],
    row: &[u64],
) -> Result<(), AllocError>
    requires { 0 < length row.now }
    ensures { OnOk result (text.new.items
        ≡ text.old.items ++ record_text (row_record (codes "w") texts.now columns.now (row_told row.now))) }
{
    push_field(text, b"w")?;
    push_next_number(text, row[0])?;
    push_words(text, texts, columns, &row[1..])?;
    text.push(b'\n')?;
    Ok(())
}

/// Appends the records of so many rows that words hold.
fn push_told_rows(
    text: &mut Vec<u8>,
    texts: &[Name],
    columns: &[ColumnSpec],
    count: u64,
    words: &[u64],
) -> Result<(), AllocError>
    requires { count * (length columns.now + 1) ≤ length words.now }
    ensures { OnOk result (text.new.items
        ≡ text.old.items ++ records_text (map (row_record (codes "w") texts.now columns.now)
        (rows_told count (length columns.now + 1) words.now))) }
{
    let size = columns.len() + 1;
    let mut left = words;
    for _row in 0..count {
        let (row, others) = left.split_at(size);
        push_told_row(text, texts, columns, row)?;
        left = others;
    }
    Ok(())
}

/// The records of a snapshot.
fn snapshot_text(
    alloc: Global,
    caller: u32,
    call: u32,
    step: u64,
    shown: &Shown,
    texts: &Items<Name>,
    words: &[u64],
) -> Result<Vec<u8>, AllocError>
    requires { (table : PlainTable) × AreWordsOf shown.now words.now table }
    ensures { (table : PlainTable) → AreWordsOf shown.now words.now table
        → IfOk result (λ text. text.items ≡ records_text (snapshot_shown caller call step shown.now texts.now table.rows)) }
{
    let mut text = Vec::with_capacity(alloc, words.len().saturating_mul(BYTES_A_WORD))?;
    push_head(
        &mut text,
        caller,
        call,
        step,
        shown.name.as_str().as_bytes(),
    )?;
    push_told_rows(
        &mut text,
        texts.as_slice(),
        shown.columns.as_slice(),
        words[0],
        &words[1..],
    )?;
    Ok(text)
}

/// Writes the records of a snapshot of one table, given by its words: how many rows there are, and then each row's key and cells.
/// A caller's call took it at this step. Callers and calls are numbered from 0.
///
/// After an error a prefix of the text was written.
pub fn write_snapshot<S: Sink>(
    alloc: Global,
    sink: &mut S,
    caller: u32,
    call: u32,
    step: u64,
    shown: &Shown,
    texts: &Items<Name>,
    words: &[u64],
) -> Result<(), WriteFault>
    requires { (table : PlainTable) × AreWordsOf shown.now words.now table }
    ensures whole { (table : PlainTable) → AreWordsOf shown.now words.now table
        → OnOk result (S.bytes sink.new ≡ append_known (S.bytes sink.old)
        (records_text (snapshot_shown caller call step shown.now texts.now table.rows))) }
    ensures err { (table : PlainTable) → AreWordsOf shown.now words.now table
        → OnErr result (AppendsPrefix (S.bytes sink.old) (S.bytes sink.new)
        (records_text (snapshot_shown caller call step shown.now texts.now table.rows))) }
    ensures failed { IsErrOf result WriteFault.Failed
        → Rose (S.failures sink.old) (S.failures sink.new) }
    ensures never_falls { S.failures sink.old ≤ S.failures sink.new }
    ensures steady { OnOk result (S.failures sink.new ≡ S.failures sink.old) }
{
    let text = snapshot_text(alloc, caller, call, step, shown, texts, words)?;
    put_all(sink, text.as_slice())?;
    Ok(())
}
