//! Merges: the rows of several tables, each in a region of its own.

ghost use Rattle.std.specs.Prelude.{◌≡◌, ◌++◌, ◌+◌, ◌^◌, ◌<◌, ◌≤◌, map, length, IfOk, OnOk};
ghost use Rattle.std.specs.List.{All};
ghost use Rattle.tick_model.specs.Merge.{last_key as last_key_of, region as region_of, row_from as row_at_offset, merged_rows as merged_rows_of, merge_fault as merge_fault_of, merge_table};
ghost use Rattle.tick_model.specs.Evaluation.{or_fault};
ghost use Rattle.tick_model.specs.Ready.{table_in, AreMergeable, HaveRoom};
ghost use Rattle.plain_evaluator.specs.Gives.{Gives};

use crate::operators::NoTable;
use std::alloc::{AllocError, Global};
use tick_model::items::Items;
use tick_model::limits::MOST_ROWS;
use tick_model::table::{NodeFault, PlainRow, PlainTable};

/// Regions are multiples of it.
const REGION: u64 = 65_536;

fn last_key(rows: &[PlainRow]) -> u64
    ensures { result ≡ last_key_of rows.now }
{
    match rows.last() {
        Some(row) => row.key,
        None => 0,
    }
}

/// The least positive multiple of 65,536 that is greater than the last key.
fn region(table: &PlainTable) -> u64
    requires { last_key_of table.now.rows < 2 ^ 62 }
    ensures { result ≡ region_of table.now }
{
    REGION * (last_key(table.rows.as_slice()) / REGION + 1)
}

fn row_from(alloc: Global, offset: u64, row: &PlainRow) -> Result<PlainRow, AllocError>
    requires { row.now.key + offset < 2 ^ 62 }
    ensures { IfOk result (λ moved. moved ≡ row_at_offset offset row.now) }
{
    Ok(PlainRow {
        key: row.key + offset,
        cells: Items::of(row.cells.as_slice().to_vec(alloc)?),
    })
}

/// Puts rows behind others, each key plus an offset.
fn push_rows(
    alloc: Global,
    merged: &mut Vec<PlainRow>,
    offset: u64,
    rows: &[PlainRow],
) -> Result<(), AllocError>
    requires { All (λ row. row.key + offset < 2 ^ 62) rows.now }
    ensures { OnOk result (merged.new.items ≡ merged.old.items ++ map (row_at_offset offset) rows.now) }
{
    for row in rows {
        merged.push(row_from(alloc, offset, row)?)?;
    }
    Ok(())
}

/// The rows of the inputs, in order of the inputs.
fn merged_rows(
    alloc: Global,
    tables: &[PlainTable],
    inputs: &[u32],
) -> Result<Items<PlainRow>, AllocError>
    requires known { All (λ input. input < length tables.now) inputs.now }
    requires room { HaveRoom 0 (map (table_in tables.now) inputs.now) }
    ensures { IfOk result (λ rows. rows ≡ merged_rows_of 0 (map (table_in tables.now) inputs.now)) }
{
    let mut merged = Vec::new(alloc);
    let mut offset = 0u64;
    for input in inputs {
        let table = &tables[*input as usize];
        push_rows(alloc, &mut merged, offset, table.rows.as_slice())?;
        offset += region(table);
    }
    Ok(Items::of(merged))
}

/// That the inputs have too many rows together.
fn merge_fault(tables: &[PlainTable], inputs: &[u32]) -> Option<NodeFault>
    requires known { All (λ input. input < length tables.now) inputs.now }
    requires few { All (λ input. length (table_in tables.now input).rows ≤ 4194304) inputs.now }
    requires narrow { length inputs.now ≤ 16 }
    ensures { result ≡ merge_fault_of (map (table_in tables.now) inputs.now) }
{
    let mut rows = 0u64;
    for input in inputs {
        rows += tables[*input as usize].rows.len() as u64;
    }
    if rows > u64::from(MOST_ROWS) {
        Some(NodeFault::TooManyRows { rows })
    } else {
        None
    }
}

/// The rows of the inputs, each in a region of its own.
pub fn merged(alloc: Global, tables: &[PlainTable], inputs: &[u32]) -> Result<PlainTable, NoTable>
    requires { AreMergeable tables.now inputs.now }
    ensures { Gives result (or_fault (merge_fault_of (map (table_in tables.now) inputs.now)) (merge_table (map (table_in tables.now) inputs.now))) }
{
    if let Some(fault) = merge_fault(tables, inputs) {
        return Err(NoTable::Fault(fault));
    }
    let rows = merged_rows(alloc, tables, inputs)?;
    Ok(PlainTable {
        width: tables[inputs[0] as usize].width,
        rows,
    })
}
