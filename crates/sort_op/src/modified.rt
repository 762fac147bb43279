//! Which modified rows have other sort cells now.
ghost use Rattle.std.specs.Prelude.{◌≡◌, ◌+◌, ◌*◌, ◌≤◌, length, IfOk};
ghost use Rattle.tick_table.specs.Exact.{IsExact};
ghost use Rattle.sort_op.specs.Ranks.{listed};
ghost use Rattle.sort_op.specs.Reading.{moving_pairs, staying_pairs};
ghost use Rattle.sort_op.specs.Sorted.{entries_of};

use crate::row_order::RowOrder;
use shown_rows::KeyPairs;
use std::alloc::{AllocError, Global};
use std::sync::ledger::Ledger;
use tick_table::{RowReader, Steps, TickTable, Version};

/// The modified rows.
#[derive(Drop)]
pub(crate) struct Modified {
    /// Those whose sort cells change, so that they come to stand among others.
    pub moving: KeyPairs,
    /// Those that have the sort cells that they had.
    pub staying: KeyPairs,
}

/// The modified rows of an input. They are read as they are now; what they were is in the order.
pub(crate) fn modified_rows<L: Ledger>(
    alloc: Global,
    input: &TickTable,
    order: &RowOrder,
    reads: &mut Steps<L>,
) -> Result<Modified, AllocError>
    requires exact { IsExact input.now }
    requires stands { listed order.now ≡ entries_of order.now.by input.now.old.rows }
    ensures moving { IfOk result (λ modified. modified.moving ≡ moving_pairs order.now.by input.now) }
    ensures staying { IfOk result (λ modified. modified.staying ≡ staying_pairs order.now.by input.now) }
    ensures reads { reads.new ≤ reads.old + input.now.new.width * length input.now.update.modified }
{
    let pairs = KeyPairs::modified(input)?;
    let mut moving = KeyPairs::new(alloc);
    let mut staying = KeyPairs::new(alloc);
    let mut rows = RowReader::of(input, Version::Now);
    for pair in &pairs {
        let stays = order.has_cells(pair.old, rows.row(pair.new, reads));
        staying = staying.with_last_if(stays, pair)?;
        moving = moving.with_last_if(!stays, pair)?;
    }
    Ok(Modified { moving, staying })
}
