//! Table files.

ghost use Rattle.std.specs.Prelude.{◌≡◌, true, IfOk, OnOk, IfErr, ◌≤◌, length};
ghost use Rattle.feed_reader.specs.Answers.{Answers, Refuses};
ghost use Rattle.feed_reader.specs.Records.{are_texts, at_hand, left_of, IsReading};
ghost use Rattle.feed_reader.specs.ReadRows.{raw_rows, AreReadRows, IsTaken};
ghost use Rattle.feed_reader.specs.Tables.{names_of, same_names as same_names_as, row_of, rows_from, table_with, table_in, table_of};

use crate::cells::{ReadCells, kinds_of};
use crate::fault::{TextFault, TextKind};
use crate::raw::{RawRows, RawTable};
use crate::records::{Next, Records};
use std::alloc::{AllocError, Global};
use tick_model::items::Items;
use tick_model::limits::MOST_ROWS;
use tick_model::plan::ColumnSpec;
use tick_model::row_list::RowList;

/// The most bytes of a table file and of a feed.
pub const MOST_BYTES: usize = 67_108_864;

/// Whether the fields are the names of the columns.
fn are_names(columns: &[ColumnSpec], fields: &Records<'_>) -> bool
    ensures { result ≡ same_names_as (at_hand fields.now) (names_of columns.now) }
{
    if fields.len() != columns.len() {
        return false;
    }
    for (place, column) in columns.iter().enumerate() {
        if fields.field(place) != column.name.as_str() {
            return false;
        }
    }
    true
}

/// Rows that are read so far, under the keys 0, 1, 2 and so on.
#[derive(Drop)]
struct ReadRows {
    keys: Vec<u64>,
    read: ReadCells,
}

impl ReadRows {
    /// Takes the row that the fields of a record spell, or gives the first kind that refuses them. After that the rows are given up.
    fn take(
        &mut self,
        alloc: Global,
        columns: &[ColumnSpec],
        fields: &Records<'_>,
    ) -> Result<Result<(), TextKind>, AllocError>
        requires text { are_texts (at_hand fields.now) ≡ true }
        requires rows { AreReadRows columns.now self.old }
        ensures rows { IfOk result (λ told. OnOk told (AreReadRows columns.now self.new)) }
        ensures told { IfOk result (λ told. IsTaken told (raw_rows columns.now self.old) (raw_rows columns.now self.new) (row_of columns.now (length self.old.keys.items) (at_hand fields.now))) }
    {
        if fields.len() != columns.len() {
            return Ok(Err(TextKind::FieldCount));
        }
        if !self.read.read(alloc, columns, fields, 0)? {
            return Ok(Err(TextKind::BadNumber));
        }
        let key = self.keys.len() as u64;
        if key >= u64::from(MOST_ROWS) {
            return Ok(Err(TextKind::TooLong));
        }
        self.keys.push(key)?;
        Ok(Ok(()))
    }
}

/// Reads the first record, which is to have the names of the columns.
fn read_header(columns: &[ColumnSpec], records: &mut Records<'_>) -> Result<(), TextFault>
    requires { IsReading records.old }
    ensures goes { OnOk result (IsReading records.new) }
    ensures ok { OnOk result (table_in columns.now (left_of records.old) ≡ table_with (rows_from columns.now 0 (left_of records.new))) }
    ensures refused { IfErr result (λ fault. Refuses (table_in columns.now (left_of records.old)) fault) }
{
    let kind = match records.next()? {
        Next::Record if are_names(columns, records) => return Ok(()),
        Next::Record | Next::End => TextKind::Header,
        Next::NotText => TextKind::NotUtf8,
    };
    Err(TextFault::Refused { number: 1, kind })
}

/// Reads the rows that follow the first record.
fn read_rows(
    alloc: Global,
    columns: &[ColumnSpec],
    records: &mut Records<'_>,
) -> Result<RawTable, TextFault>
    requires { IsReading records.old }
    ensures answers { Answers (table_with (rows_from columns.now 0 (left_of records.old))) result }
    ensures few { IfOk result (λ table. length table.rows ≤ 4194304) }
{
    let mut rows = ReadRows {
        keys: Vec::new(alloc),
        read: ReadCells::new(alloc),
    };
    'records: loop {
        let number = rows.keys.len() as u64 + 2;
        match records.next()? {
            Next::End => break,
            Next::NotText => {
                return Err(TextFault::Refused {
                    number,
                    kind: TextKind::NotUtf8,
                });
            }
            Next::Record => match rows.take(alloc, columns, records)? {
                Ok(()) => {}
                Err(kind) => return Err(TextFault::Refused { number, kind }),
            },
        }
    }
    let ReadRows { keys, read } = rows;
    let ReadCells { texts, cells } = read;
    Ok(RawTable {
        rows: RawRows {
            kinds: kinds_of(alloc, columns)?,
            texts: texts.into_texts(),
            rows: RowList::of(columns.len(), keys, cells),
        },
    })
}

/// Reads a table file of a source with these columns: the names of the columns, and then a row in each record, under the keys 0, 1, 2 and
/// so on. `Refused` comes exactly where the definition refuses the file, with its first refused record and the first kind that applies to
/// it. It takes one pass over the bytes; a number is read without memory.
pub fn read_table(
    alloc: Global,
    bytes: &[u8],
    columns: &Items<ColumnSpec>,
) -> Result<RawTable, TextFault>
    ensures answers { Answers (table_of columns.now bytes.now) result }
    ensures few { IfOk result (λ table. length table.rows ≤ 4194304) }
{
    if bytes.len() > MOST_BYTES {
        return Err(TextFault::Refused {
            number: 0,
            kind: TextKind::TooLong,
        });
    }
    let columns = columns.as_slice();
    let mut records = Records::of(alloc, bytes);
    read_header(columns, &mut records)?;
    read_rows(alloc, columns, &mut records)
}
