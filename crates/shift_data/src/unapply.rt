//! The keys of a set that move to the keys of another.
ghost use Rattle.std.specs.Prelude.{◌≡◌, ℕ, ◌+◌, ◌^◌, ◌<◌, ◌≤◌, IfOk, IfSome, IfNone, [], true, false};
ghost use Rattle.key_lists.specs.Keys.{is_among};
ghost use Rattle.key_lists.specs.Keys.{without};
ghost use Rattle.row_set.specs.Sets.{IsKeySet};
ghost use Rattle.shift_data.specs.ShiftLists.{IsShiftList};
ghost use Rattle.shift_data.specs.Moves.{IsLawful, unapplied};
ghost use Rattle.shift_data.specs.Parts.{from_on};
ghost use Rattle.shift_data.specs.Wanted.{IsAskedPart};

use crate::apply::landing;
use crate::parts::{next_kept, segment_at};
use row_set::RowSet;
use std::alloc::{AllocError, Global};
use tick_model::update::ShiftRange;

/// The keys from `first` to `last`, which are those of a set among them, and all asked for, or none.
#[derive(Clone, Copy)]
pub(crate) struct AskedPart {
    pub(crate) first: u64,
    pub(crate) last: u64,
    pub(crate) asked: bool,
}

/// Those of the keys, but those that are left out, whose moved key is in `after`.
pub(crate) fn unapplied(
    alloc: Global,
    shifts: &[ShiftRange],
    keys: &RowSet,
    left_out: &RowSet,
    after: &RowSet,
) -> Result<RowSet, AllocError>
    requires shifts { IsShiftList shifts.now }
    requires lawful { IsLawful shifts.now (without left_out.now keys.now) }
    ensures { IfOk result (λ asked. asked ≡ unapplied shifts.now (without left_out.now keys.now) after.now) }
{
    let mut asked = RowSet::with_capacity(alloc, 0)?;
    let mut from = 0;
    while let Some(part) = asked_from(shifts, keys, left_out, after, from) {
        if part.asked {
            asked.insert_range(part.first, part.last)?;
        }
        from = part.last + 1;
    }
    Ok(asked)
}

/// The first part from `from` on.
fn asked_from(
    shifts: &[ShiftRange],
    keys: &RowSet,
    left_out: &RowSet,
    after: &RowSet,
    from: u64,
) -> Option<AskedPart>
    requires shifts { IsShiftList shifts.now }
    requires lawful { IsLawful shifts.now (without left_out.now keys.now) }
    ensures none { IfNone result (from_on from (without left_out.now keys.now) ≡ []) }
    ensures part { IfSome result (IsAskedPart shifts.now (without left_out.now keys.now) after.now from) }
    ensures keys { IsKeySet keys.now }
{
    let first = next_kept(keys, left_out, from)?;
    let segment = segment_at(shifts, first);
    let place = landing(first, segment.delta);
    let ahead = gap_from(after, place);
    if ahead > 0 {
        return Some(AskedPart {
            first,
            last: segment.last.min(first.saturating_add(ahead - 1)),
            asked: false,
        });
    }
    let run = keys.range_at(first)?;
    let free = gap_from(left_out, first);
    let asked = after.range_at(place)?;
    let kept = run.last.min(first.saturating_add(free - 1));
    Some(AskedPart {
        first,
        last: segment.last.min(kept).min(first + (asked.last - place)),
        asked: true,
    })
}

/// How many numbers from this one on, it included, are no keys of the set.
fn gap_from(keys: &RowSet, number: u64) -> u64
    ensures gap { (key : ℕ) → number ≤ key → key < number + result → is_among key keys.now ≡ false }
    ensures none { result ≡ 0 → is_among number keys.now ≡ true }
    ensures keys { IsKeySet keys.now }
{
    match keys.next_from(number) {
        Some(next) => next - number,
        None => u64::MAX,
    }
}
