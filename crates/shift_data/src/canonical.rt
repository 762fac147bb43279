//! The ranges of the rows of a set, one for each longest stretch of neighbouring rows that move by one delta.
ghost use Rattle.std.specs.Prelude.{◌≡◌, IfOk};
ghost use Rattle.key_lists.specs.Keys.{without};
ghost use Rattle.tick_model.specs.Rules.{landed};
ghost use Rattle.shift_data.specs.ShiftLists.{IsShiftList};
ghost use Rattle.shift_data.specs.Moves.{IsLawful, canonical, canonical_through};

use crate::parts::{part_from, part_through, part_without};
use crate::stretches::Stretches;
use row_set::RowSet;
use std::alloc::{AllocError, Global};
use tick_model::update::ShiftRange;

/// The ranges of the rows under these keys.
pub(crate) fn canonical(
    alloc: Global,
    shifts: &[ShiftRange],
    survivors: &RowSet,
) -> Result<Vec<ShiftRange>, AllocError>
    requires shifts { IsShiftList shifts.now }
    requires lawful { IsLawful shifts.now survivors.now }
    ensures ranges { IfOk result (λ ranges. ranges.items ≡ canonical shifts.now survivors.now) }
    ensures shift { IfOk result (λ ranges. IsShiftList ranges.items) }
{
    let mut stretches = Stretches::new(alloc);
    let mut from = 0;
    while let Some(part) = part_from(shifts, survivors, from) {
        stretches.add(part)?;
        from = part.last + 1;
    }
    stretches.into_ranges()
}

/// The ranges of the rows under these keys, which move by one shift and then by the next.
pub(crate) fn canonical_through(
    alloc: Global,
    shifts: &[ShiftRange],
    next: &[ShiftRange],
    survivors: &RowSet,
) -> Result<Vec<ShiftRange>, AllocError>
    requires shifts { IsShiftList shifts.now }
    requires next { IsShiftList next.now }
    requires lawful { IsLawful shifts.now survivors.now }
    requires next_lawful { IsLawful next.now (landed shifts.now survivors.now) }
    ensures ranges { IfOk result (λ ranges. ranges.items ≡ canonical_through shifts.now next.now survivors.now) }
    ensures shift { IfOk result (λ ranges. IsShiftList ranges.items) }
{
    let mut stretches = Stretches::new(alloc);
    let mut from = 0;
    while let Some(part) = part_through(shifts, next, survivors, from) {
        stretches.add(part)?;
        from = part.last + 1;
    }
    stretches.into_ranges()
}

/// The ranges of the rows under these keys but those that are left out.
pub(crate) fn canonical_without(
    alloc: Global,
    shifts: &[ShiftRange],
    keys: &RowSet,
    left_out: &RowSet,
) -> Result<Vec<ShiftRange>, AllocError>
    requires shifts { IsShiftList shifts.now }
    requires lawful { IsLawful shifts.now (without left_out.now keys.now) }
    ensures ranges { IfOk result (λ ranges. ranges.items ≡ canonical shifts.now (without left_out.now keys.now)) }
    ensures shift { IfOk result (λ ranges. IsShiftList ranges.items) }
{
    let mut stretches = Stretches::new(alloc);
    let mut from = 0;
    while let Some(part) = part_without(shifts, keys, left_out, from) {
        stretches.add(part)?;
        from = part.last + 1;
    }
    stretches.into_ranges()
}
