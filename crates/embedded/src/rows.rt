//! Rows as they are printed: each key with its cells. The cell of a text is its rank among the texts of the run, from 0.

ghost use Rattle.std.specs.Prelude.{◌≡◌, ◌<◌, IsTrue};
ghost use Rattle.key_lists.specs.Keys.{is_among};
ghost use Rattle.tick_model.specs.Tables.{keys as keys_of};

use crate::fault::Fault;
use new_counts::new_count;
use row_set::RowSet;
use std::alloc::{AllocError, Global};
use std::io::Print;
use std::marker::Brand;
use std::sync::ledger::{Blank, Ledger};
use tick_table::{Steps, TickTable, Version};

/// The cells of the row of a key. Each cell that is read is counted, from a blank on.
fn read_counted<L: Ledger>(
    alloc: Global,
    table: &TickTable,
    key: u64,
    blank: Blank,
) -> Result<Vec<i64>, AllocError>
    requires name { blank.name ≡ L.name }
    requires parts { blank.parts ≡ L.parts }
    requires some { 0 < blank.parts }
    requires here { IsTrue (is_among key (keys_of table.now.new.rows)) }
{
    let mut reads = Steps::<L>::new(blank, new_count());
    let mut cells = Vec::new(alloc);
    table.row(Version::Now, key, &mut cells, &mut reads)?;
    Ok(cells)
}

/// The cells of the row of a key.
fn cells_of(alloc: Global, table: &TickTable, key: u64) -> Result<Vec<i64>, AllocError>
    requires { IsTrue (is_among key (keys_of table.now.new.rows)) }
{
    read_counted::<Brand>(alloc, table, key, Blank::new(1))
}

/// Prints the rows of a table that are under these keys, and what they are.
pub(crate) fn print_rows<R: Print>(
    rt: &R,
    alloc: Global,
    what: &str,
    table: &TickTable,
    keys: &RowSet,
) -> Result<(), Fault> {
    for key in keys {
        if table.rows().contains(key) {
            let cells = cells_of(alloc, table, key)?;
            println!(rt; "  {what}: row {key} {cells:?}")?;
        }
    }
    Ok(())
}
