//! Whether tables may be the sources of a plan.

ghost use Rattle.std.specs.Prelude.{◌≡◌, length};
ghost use Rattle.std.specs.List.{list_all};
ghost use Rattle.tick_model.specs.Tables.{keys};
ghost use Rattle.tick_model.specs.Plans.{rises};
ghost use Rattle.tick_model.specs.Evaluation.{is_source as is_source_node};
ghost use Rattle.tick_model.specs.Fits.{is_source_row as is_row_of, is_source_table as is_table_of, fit_sources};

use crate::items::Items;
use crate::limits::{MOST_ROWS, SOURCE_KEYS};
use crate::plan::{Node, Op, Plan};
use crate::table::{PlainRow, PlainTable};

/// Whether a node is a source.
pub fn is_source(node: &Node) -> bool
    ensures { result ≡ is_source_node node.now }
{
    matches!(node.op, Op::Source)
}

fn is_source_row(width: usize, row: &PlainRow) -> bool
    ensures { result ≡ is_row_of width row.now }
{
    row.key < SOURCE_KEYS && row.cells.len() == width
}

fn are_source_rows(width: usize, rows: &[PlainRow]) -> bool
    ensures { result ≡ list_all (is_row_of width) rows.now }
{
    for row in rows {
        if !is_source_row(width, row) {
            return false;
        }
    }
    true
}

fn have_rising_keys(rows: &[PlainRow]) -> bool
    ensures { result ≡ rises (keys rows.now) }
{
    for i in 1..rows.len() {
        if rows[i].key <= rows[i - 1].key {
            return false;
        }
    }
    true
}

fn is_source_table(width: usize, table: &PlainTable) -> bool
    ensures { result ≡ is_table_of width table.now }
{
    let rows = table.rows.as_slice();
    table.width as usize == width
        && rows.len() <= MOST_ROWS as usize
        && have_rising_keys(rows)
        && are_source_rows(width, rows)
}

impl Plan {
    /// Whether the tables may be the sources: one for each source, in order of the nodes' numbers, of its width, with at
    /// most 4,194,304 rows, whole ones, under rising keys below 2^40.
    pub fn fits(&self, sources: &Items<PlainTable>) -> bool
        ensures { result ≡ fit_sources self.now sources.now }
    {
        let tables = sources.as_slice();
        let mut next = 0usize;
        for node in self.nodes.as_slice() {
            if is_source(node) {
                match tables.get(next) {
                    Some(table) if is_source_table(node.columns.len(), table) => next += 1,
                    _ => return false,
                }
            }
        }
        next == tables.len()
    }
}
