//! The change that opens a source.

ghost use Rattle.std.specs.Prelude.{◌≡◌, ◌≤◌, IfOk};
ghost use Rattle.std.specs.List.{range_with_len};
ghost use Rattle.source_changes.specs.Openings.{IsOpenedTable};
ghost use Rattle.tick_model.specs.Changes.{change_of};
ghost use Rattle.tick_model.specs.Sources.{opened};

use row_set::RowSet;
use std::alloc::{AllocError, Global};
use table_update::Update;
use tick_model::items::Items;
use tick_model::row_list::OpeningTable;
use tick_table::Change;

/// The keys from 0 on, `count` of them.
pub(crate) fn first_keys(alloc: Global, count: usize) -> Result<RowSet, AllocError>
    requires { count ≤ 4194304 }
    ensures { IfOk result (λ keys. keys ≡ range_with_len 0 count) }
{
    let mut keys = RowSet::new(alloc);
    if count == 0 {
        return Ok(keys);
    }
    keys.insert_range(0, count as u64 - 1)?;
    Ok(keys)
}

/// The change that opens a source: all its rows come.
pub fn opening_change(alloc: Global, table: &OpeningTable) -> Result<Change, AllocError>
    requires { IsOpenedTable table.now }
    ensures { IfOk result (λ change. change ≡ change_of (opened table.now)) }
{
    let rows = table.rows();
    let added = first_keys(alloc, rows.len())?;
    let cells = Vec::from_slice(alloc, rows.cells())?;
    let Update {
        removed,
        added: _,
        modified,
        shifted,
        columns,
    } = Update::none(alloc);
    Ok(Change {
        update: Update {
            removed,
            added,
            modified,
            shifted,
            columns,
        },
        cells: Items::of(cells),
    })
}
