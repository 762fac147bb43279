//! The cells of the rows that a ticking table's update tells.
ghost use Rattle.std.specs.Prelude.{◌≡◌, ◌<◌};
ghost use Rattle.tick_model.specs.Changes.{told_keys};
ghost use Rattle.update_text.specs.Told.{cells_under};

use new_counts::new_count;
use std::marker::Brand;
use std::sync::ledger::{Blank, Ledger};
use tick_table::{Steps, TickTable};

/// The cells of the rows that are added and then of those that are modified, counted from a blank.
fn counted_cells<L: Ledger>(table: &TickTable, blank: Blank) -> &[i64]
    requires name { blank.name ≡ L.name }
    requires parts { blank.parts ≡ L.parts }
    requires some { 0 < blank.parts }
    ensures { result.now ≡ cells_under table.now.new.rows (told_keys table.now.update) }
{
    let mut reads = Steps::<L>::new(blank, new_count());
    table.told_cells(&mut reads)
}

/// The cells of the rows that are added and then of those that are modified.
pub(crate) fn told_cells(table: &TickTable) -> &[i64]
    ensures { result.now ≡ cells_under table.now.new.rows (told_keys table.now.update) }
{
    counted_cells::<Brand>(table, Blank::new(1))
}
