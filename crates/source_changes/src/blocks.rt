//! The update that a block of the feed is.

ghost use Rattle.std.specs.Prelude.{◌≡◌, ◌^◌, flat_map, IfOk};
ghost use Rattle.std.specs.List.{AllByRecursion};
ghost use Rattle.row_set.specs.Sets.{IsKeySet};
ghost use Rattle.source_changes.specs.Blocks.{IsReadable};
ghost use Rattle.tick_model.specs.LawfulRuns.{AreRanges};
ghost use Rattle.tick_model.specs.Printable.{IsShift, IsShiftRange};
ghost use Rattle.tick_model.specs.Sources.{keys_within, update_of as update_said};

use row_set::RowSet;
use shift_data::ShiftData;
use shown_rows::put_last;
use std::alloc::{AllocError, Global};
use table_update::{ColumnSet, Update};
use tick_model::feed::Block;
use tick_model::update::{KeyRange, ShiftRange};

/// The keys of ranges that ascend.
fn keys_in(alloc: Global, ranges: &[KeyRange]) -> Result<RowSet, AllocError>
    requires { AreRanges ranges.now }
    ensures { IfOk result (λ keys. keys ≡ flat_map keys_within ranges.now) }
{
    let mut keys = RowSet::new(alloc);
    for range in ranges {
        keys.insert_range(range.first, range.last)?;
    }
    Ok(keys)
}

/// The set of keys that rise.
fn set_of(alloc: Global, keys: &[u64]) -> Result<RowSet, AllocError>
    requires { IsKeySet keys.now }
    ensures { IfOk result (λ set. set ≡ keys.now) }
{
    let mut set = RowSet::new(alloc);
    for key in keys {
        put_last(&mut set, *key)?;
    }
    Ok(set)
}

/// The shift of these ranges.
fn shift_by(alloc: Global, ranges: &[ShiftRange]) -> Result<ShiftData, AllocError>
    requires shift { IsShift ranges.now }
    requires small { AllByRecursion (IsShiftRange (2 ^ 40)) ranges.now }
    ensures { IfOk result (λ shift. shift ≡ ranges.now) }
{
    let mut shift = ShiftData::new(alloc);
    for range in ranges {
        shift
            .push(range.begin, range.end, range.delta)
            .map_err(|_| AllocError)?;
    }
    Ok(shift)
}

/// What a block says of its source.
pub(crate) fn update_of(alloc: Global, block: &Block) -> Result<Update, AllocError>
    requires { IsReadable block.now }
    ensures { IfOk result (λ update. update ≡ update_said block.now) }
{
    Ok(Update {
        removed: keys_in(alloc, block.removed.as_slice())?,
        added: set_of(alloc, block.added.keys())?,
        modified: set_of(alloc, block.modified.keys())?,
        shifted: shift_by(alloc, block.shifts.as_slice())?,
        columns: ColumnSet::none(),
    })
}
