//! The ranges of the pairs of two sets of keys, one key by one.
ghost use Rattle.std.specs.Prelude.{◌≡◌, ◌+◌, ◌-◌, ◌^◌, ◌≤◌, [], pos, ◌-ℤ◌, IfOk, IfSome, IfNone};
ghost use Rattle.row_set.specs.Sets.{IsKeySet};
ghost use Rattle.tick_model.specs.Shifts.{shifted};
ghost use Rattle.shift_data.specs.ShiftLists.{IsShiftList};
ghost use Rattle.shift_data.specs.Moves.{pairs_of};
ghost use Rattle.shift_data.specs.Parts.{from_on};
ghost use Rattle.shift_data.specs.PairRuns.{IsPairRun};

use crate::parts::Part;
use crate::stretches::Stretches;
use row_set::RowSet;
use std::alloc::{AllocError, Global};
use tick_model::update::ShiftRange;

/// Neighbouring keys, `count` of them from `old` on, that are paired with as many from `new` on.
#[derive(Clone, Copy)]
pub(crate) struct PairRun {
    pub(crate) old: u64,
    pub(crate) new: u64,
    pub(crate) count: u64,
}

impl PairRun {
    /// The old keys, and by how much they move.
    fn part(self) -> Part
        requires some { 1 ≤ self.count }
        requires old { self.old + self.count ≤ 2 ^ 62 }
        requires new { self.new + self.count ≤ 2 ^ 62 }
        ensures first { result.first ≡ self.old }
        ensures last { result.last ≡ self.old + (self.count - 1) }
        ensures delta { result.delta ≡ pos self.new -ℤ pos self.old }
    {
        Part {
            first: self.old,
            last: self.old + (self.count - 1),
            delta: self.new as i64 - self.old as i64,
        }
    }
}

/// The ranges of the pairs of two sets of keys.
pub(crate) fn ranges_of_pairs(
    alloc: Global,
    old: &RowSet,
    new: &RowSet,
) -> Result<Vec<ShiftRange>, AllocError>
    ensures ranges { IfOk result (λ ranges. ranges.items ≡ shifted (pairs_of old.now new.now)) }
    ensures shift { IfOk result (λ ranges. IsShiftList ranges.items) }
{
    let mut stretches = Stretches::new(alloc);
    let mut old_from = 0;
    let mut new_from = 0;
    while let Some(run) = pairs_from(old, new, old_from, new_from) {
        stretches.add(run.part())?;
        old_from = run.old + run.count;
        new_from = run.new + run.count;
    }
    stretches.into_ranges()
}

/// The run of pairs that begins with the first keys from these on.
fn pairs_from(old: &RowSet, new: &RowSet, old_from: u64, new_from: u64) -> Option<PairRun>
    ensures none { IfNone result (pairs_of (from_on old_from old.now) (from_on new_from new.now) ≡ []) }
    ensures run { IfSome result (IsPairRun old.now new.now old_from new_from) }
    ensures old { IsKeySet old.now }
    ensures new { IsKeySet new.now }
{
    let next_old = old.next_from(old_from);
    let next_new = new.next_from(new_from);
    let first = next_old?;
    let place = next_new?;
    let run = old.range_at(first)?;
    let other = new.range_at(place)?;
    Some(PairRun {
        old: first,
        new: place,
        count: (run.last - first).min(other.last - place) + 1,
    })
}
