//! Rows with each text in the place of its rank.

ghost use Rattle.std.specs.Prelude.{◌≡◌, ℕ, ◌+◌, ◌≤◌, ◌++◌, List, IfOk, drop, length, map, take};
ghost use Rattle.std.specs.List.{AllByRecursion, zip};
ghost use Rattle.feed_reader.specs.Coding.{coded_cell, coded_rows as rows_with, coded_table as table_with, coded_block as block_with, coded_batch as batch_with, coded_feed as feed_with, ranks_among};
ghost use Rattle.feed_reader.specs.Raw.{raw_cell, raw_cells, raw_row, raw_block, raw_batch, IsNumber, IsNumberedRow, IsNumberedBlock};
ghost use Rattle.tick_model.specs.declared.plan.Kind.TheVariants.{Text as TextKind};

use crate::ranks::Ranks;
use crate::raw::{RawBatches, RawFeed, RawRows, RawTable};
use std::alloc::{AllocError, Global};
use tick_model::feed::{Batch, Block};
use tick_model::formula::NULL;
use tick_model::items::Items;
use tick_model::name::Name;
use tick_model::plan::Kind;
use tick_model::row_list::{OpeningTable, RowList};

/// The rank of each of the texts.
fn ranks_of(alloc: Global, ranks: &Ranks, texts: &[Name]) -> Result<Vec<i64>, AllocError>
    ensures { IfOk result (λ own. own.items ≡ ranks_among ranks.now texts.now) }
{
    let mut own = Vec::with_capacity(alloc, texts.len())?;
    for text in texts {
        own.push(ranks.rank(text.as_str()) as i64)?;
    }
    Ok(own)
}

/// The rank of the text whose number stands in a cell.
fn rank_cell(ranks: &[i64], cell: i64) -> i64
    requires { IsNumber (length ranks.now) (TextKind, cell) }
    ensures { (texts own : List (List ℕ)) → ranks.now ≡ ranks_among texts own → result ≡ coded_cell texts (raw_cell own (TextKind, cell)) }
{
    if cell == NULL {
        NULL
    } else {
        ranks[cell as usize]
    }
}

/// Puts ranks in the place of the numbers of texts, in the row that begins at a cell.
fn code_row(ranks: &[i64], kinds: &[Kind], start: usize, cells: &mut [i64])
    requires within { start + length kinds.now ≤ length cells.old }
    requires numbers { AllByRecursion (IsNumber (length ranks.now)) (zip kinds.now (drop start cells.old)) }
    ensures len { length cells.new ≡ length cells.old }
    ensures left { drop (start + length kinds.now) cells.new ≡ drop (start + length kinds.now) cells.old }
    ensures coded { (texts own : List (List ℕ)) → ranks.now ≡ ranks_among texts own
        → take (start + length kinds.now) cells.new ≡ take start cells.old ++ map (coded_cell texts) (raw_cells own kinds.now (drop start cells.old)) }
{
    for place in 0..kinds.len() {
        match kinds[place] {
            Kind::Text => cells[start + place] = rank_cell(ranks, cells[start + place]),
            Kind::Long => {}
        }
    }
}

/// The rows with ranks in the place of the numbers of texts.
fn coded_rows(ranks: &[i64], kinds: &[Kind], rows: RowList) -> RowList
    requires { AllByRecursion (IsNumberedRow kinds.now (length ranks.now)) rows }
    ensures { (texts own : List (List ℕ)) → ranks.now ≡ ranks_among texts own → result ≡ rows_with texts (map (raw_row own kinds.now) rows) }
{
    let (width, keys, mut cells) = rows.into_parts();
    if !ranks.is_empty() {
        for place in 0..keys.len() {
            code_row(ranks, kinds, width * place, cells.as_mut_slice());
        }
    }
    RowList::of(width, keys, cells)
}

/// The table of a source of so many columns.
pub(crate) fn coded_table(
    alloc: Global,
    ranks: &Ranks,
    width: u32,
    table: RawTable,
) -> Result<OpeningTable, AllocError>
    ensures { IfOk result (λ coded. coded ≡ table_with ranks.now width table) }
{
    let RawRows { kinds, texts, rows } = table.rows;
    let own = ranks_of(alloc, ranks, texts.as_slice())?;
    Ok(OpeningTable::of(width, coded_rows(own.as_slice(), kinds.as_slice(), rows)))
}

fn coded_block(ranks: &[i64], kinds: &[Items<Kind>], block: Block) -> Block
    requires { IsNumberedBlock kinds.now (length ranks.now) block }
    ensures { (texts own : List (List ℕ)) → ranks.now ≡ ranks_among texts own → result ≡ block_with texts (raw_block own kinds.now block) }
{
    let kinds = match kinds.get(block.table as usize) {
        Some(kinds) => kinds.as_slice(),
        None => &[],
    };
    Block {
        table: block.table,
        number: block.number,
        removed: block.removed,
        shifts: block.shifts,
        added: coded_rows(ranks, kinds, block.added),
        modified: coded_rows(ranks, kinds, block.modified),
    }
}

fn coded_batch(
    alloc: Global,
    ranks: &[i64],
    kinds: &[Items<Kind>],
    batch: Batch,
) -> Result<Batch, AllocError>
    requires { AllByRecursion (IsNumberedBlock kinds.now (length ranks.now)) batch.blocks }
    ensures { (texts own : List (List ℕ)) → ranks.now ≡ ranks_among texts own → IfOk result (λ coded. coded ≡ batch_with texts (raw_batch own kinds.now batch)) }
{
    let blocks = batch.blocks.into_vec();
    let mut coded = Vec::with_capacity(alloc, blocks.len())?;
    for block in blocks {
        coded.push(coded_block(ranks, kinds, block))?;
    }
    Ok(Batch {
        blocks: Items::of(coded),
    })
}

/// The batches of a feed.
pub(crate) fn coded_feed(
    alloc: Global,
    ranks: &Ranks,
    feed: RawFeed,
) -> Result<Items<Batch>, AllocError>
    ensures { IfOk result (λ coded. coded ≡ feed_with ranks.now feed) }
{
    let RawBatches {
        kinds,
        texts,
        batches,
    } = feed.batches;
    let own = ranks_of(alloc, ranks, texts.as_slice())?;
    let batches = batches.into_vec();
    let mut coded = Vec::with_capacity(alloc, batches.len())?;
    for batch in batches {
        coded.push(coded_batch(alloc, own.as_slice(), kinds.as_slice(), batch)?)?;
    }
    Ok(Items::of(coded))
}
