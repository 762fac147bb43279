//! Rows that are read one after the other by rising keys.
//!
//! The rows that a step touches are mostly asked for by rising keys. Those that the update tells, replaces or removes are then
//! found by their places in the update, in one pass over its keys, without a search among the rows of the table.

ghost use Rattle.std.specs.Prelude.{◌≡◌, ◌+◌, IsTrue, length};
ghost use Rattle.key_lists.specs.Keys.{is_among};
ghost use Rattle.tick_model.specs.Tables.{cells_at, keys};
ghost use Rattle.tick_table.specs.Versions.{table_in};

use crate::places::KeyCursor;
use crate::steps::Steps;
use crate::table::{TickTable, read_all};
use crate::version::Version;
use std::marker::Model;
use std::sync::ledger::Ledger;

/// Reads the rows of one version of a table. A contract sees the plain table of this version.
#[derive(Drop)]
pub struct RowReader<'t> {
    table: &'t TickTable,
    version: Version,
    /// The keys of the rows that this version alone has.
    alone: KeyCursor<'t>,
    /// The keys now of the rows that stay and differ.
    modified: KeyCursor<'t>,
}

impl<'t> Model for RowReader<'t> {
    ghost use Rattle.std.specs.Prelude.{◌≡◌};
    ghost use Rattle.tick_model.specs.declared.table.PlainTable.{PlainTable};
    ghost use Rattle.tick_table.specs.Versions.{alone_in, table_in};

    ghost Value = { PlainTable };

    ghost view = { λ reader. table_in reader.version reader.table.now };

    ghost invariant = { λ reader. (reader.alone ≡ alone_in reader.version reader.table.now.update) × (reader.modified ≡ reader.table.now.update.modified) };
}

impl<'t> RowReader<'t> {
    /// Reads the rows of this version of a table.
    pub fn of(table: &'t TickTable, version: Version) -> RowReader<'t>
        ensures { result ≡ table_in version table.now }
    {
        let update = table.update();
        let alone = match version {
            Version::Before => update.removed(),
            Version::Now => update.added(),
        };
        RowReader {
            table,
            version,
            alone: KeyCursor::of(alone),
            modified: KeyCursor::of(update.modified()),
        }
    }

    /// The cells of a row. Each is one read.
    pub fn row<L: Ledger>(&mut self, key: u64, reads: &mut Steps<L>) -> &'t [i64]
        requires here { IsTrue (is_among key (keys self.old.rows)) }
        ensures same { self.new ≡ self.old }
        ensures cells { result.now ≡ cells_at key self.old.rows }
        ensures whole { length result.now ≡ self.old.width }
        ensures reads { reads.new ≡ reads.old + self.old.width }
    {
        match self.version {
            Version::Before => match self.alone.find(key) {
                Ok(place) => self.table.removed_row(place, reads),
                Err(_) => {
                    let now = self.table.key_now(key);
                    let row = self.table.row_stayed(now, self.modified.find(now));
                    read_all(row, reads);
                    row
                }
            },
            Version::Now => {
                if let Ok(place) = self.alone.find(key) {
                    return self.table.added_row(place, reads);
                }
                if let Ok(place) = self.modified.find(key) {
                    return self.table.modified_row(place, reads);
                }
                let row = self.table.row_now(key);
                read_all(row, reads);
                row
            }
        }
    }
}
