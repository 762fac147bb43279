//! What a made run begins with: its tables and its texts.

ghost use Rattle.std.specs.Prelude.{◌≡◌, ◌<◌, ◌++◌, ◌∷◌, [], map, length, IfOk, OnOk};
ghost use Rattle.std.specs.List.{AllByRecursion};
ghost use Rattle.made_run.specs.Tables.{opening as opening_tables, ref_row as row_of, ref_table as table_of_ref, texts as texts_of, trades_table};

use crate::plan::named;
use std::alloc::{AllocError, Global};
use tick_model::items::Items;
use tick_model::name::Name;
use tick_model::row_list::{OpeningTable, RowList};

/// So many symbols there are; the two sectors come behind them.
const SYMBOLS: u32 = 8;

const LOT: i64 = 100;

/// Puts the row of a symbol behind others.
fn put_ref_row(rows: &mut RowList, symbol: u32) -> Result<(), AllocError>
    requires { AllByRecursion (λ row. length row.cells ≡ 3) rows.old }
    ensures { OnOk result (rows.new ≡ rows.old ++ row_of symbol ∷ []) }
{
    let sector = if symbol % 2 == 0 {
        SYMBOLS
    } else {
        SYMBOLS + 1
    };
    rows.push(
        u64::from(symbol),
        &[i64::from(symbol), i64::from(sector), LOT],
    )
}

fn ref_table(alloc: Global) -> Result<OpeningTable, AllocError>
    ensures { IfOk result (λ table. table ≡ table_of_ref) }
{
    let mut rows = RowList::new(alloc);
    for symbol in 0..SYMBOLS {
        put_ref_row(&mut rows, symbol)?;
    }
    Ok(OpeningTable::of(3, rows))
}

/// The tables of `trades`, which is empty, and of `ref`.
pub fn opening(alloc: Global) -> Result<Items<OpeningTable>, AllocError>
    ensures { IfOk result (λ tables. tables ≡ opening_tables) }
{
    let mut tables = Items::new(alloc);
    tables.push(OpeningTable::of(4, RowList::new(alloc)))?;
    tables.push(ref_table(alloc)?)?;
    Ok(tables)
}

fn names(alloc: Global, texts: &[&str]) -> Result<Items<Name>, AllocError>
    ensures { IfOk result (λ names. names ≡ map (λ text. text.now) texts.now) }
{
    let mut names = Items::new(alloc);
    for text in texts {
        names.push(named(alloc, text)?)?;
    }
    Ok(names)
}

/// The symbols and the sectors.
pub fn texts(alloc: Global) -> Result<Items<Name>, AllocError>
    ensures { IfOk result (λ texts. texts ≡ texts_of) }
{
    names(
        alloc,
        &[
            "S0", "S1", "S2", "S3", "S4", "S5", "S6", "S7", "even", "odd",
        ],
    )
}
