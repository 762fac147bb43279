//! Positions in an order, as sets of keys of the rows that a sort shows.
ghost use Rattle.std.specs.Prelude.{◌≡◌, ◌^◌, ◌≤◌, length, IfOk, IsTrue};
ghost use Rattle.std.specs.List.{AllByRecursion, range_with_len};
ghost use Rattle.key_lists.specs.Keys.{is_among};
ghost use Rattle.row_set.specs.Sets.{IsKeySet};
ghost use Rattle.sort_op.specs.Entries.{keys_in};
ghost use Rattle.sort_op.specs.Places.{AreApart, AreUnder, keys_at, other_places};
ghost use Rattle.sort_op.specs.Ranks.{listed};

use crate::row_order::RowOrder;
use row_set::RowSet;
use std::alloc::{AllocError, Global};

/// The positions of the rows under these keys. It searches for each of them.
pub(crate) fn positions_of(
    alloc: Global,
    order: &RowOrder,
    keys: &RowSet,
) -> Result<RowSet, AllocError>
    requires here { AllByRecursion (λ key. IsTrue (is_among key (keys_in (listed order.now)))) keys.now }
    requires apart { AreApart (keys_in (listed order.now)) }
    requires few { length (listed order.now) ≤ 2 ^ 62 }
    ensures places { IfOk result (λ positions. AreUnder (keys_in (listed order.now)) keys.now positions) }
    ensures set { IfOk result (λ positions. IsKeySet positions) }
    ensures no_more { IfOk result (λ positions. length positions ≤ length keys.now) }
{
    let mut found = Vec::new(alloc);
    for key in keys {
        found.push(order.position_of(key))?;
    }
    RowSet::from_keys(alloc, found)
}

/// The keys of the rows at these positions.
pub(crate) fn keys_of(
    alloc: Global,
    order: &RowOrder,
    positions: &RowSet,
) -> Result<Vec<u64>, AllocError>
    ensures { IfOk result (λ keys. keys.items ≡ keys_at (listed order.now) positions.now) }
{
    positions
        .iter()
        .map(|position| order.key_at(position))
        .collect(alloc)
}

/// The positions below `count` but these, by ranges.
pub(crate) fn others(alloc: Global, count: u64, positions: &RowSet) -> Result<RowSet, AllocError>
    requires { count ≤ 2 ^ 62 }
    ensures { IfOk result (λ others. others ≡ other_places count positions.now) }
{
    let mut others = positions_below(alloc, count)?;
    others.remove_all(positions)?;
    Ok(others)
}

/// All positions below `count`.
fn positions_below(alloc: Global, count: u64) -> Result<RowSet, AllocError>
    requires { count ≤ 2 ^ 62 }
    ensures { IfOk result (λ positions. positions ≡ range_with_len 0 count) }
{
    let mut positions = RowSet::new(alloc);
    if count == 0 {
        return Ok(positions);
    }
    positions.insert_range(0, count - 1)?;
    Ok(positions)
}
