//! The rows at one end of a table that are not at that end on the other side of a step.

ghost use Rattle.std.specs.Prelude.{◌≡◌, ◌≤◌, length, IfOk, IsTrue};
ghost use Rattle.std.specs.List.{AllByRecursion};
ghost use Rattle.head_tail.specs.Ends.{at_end};
ghost use Rattle.key_lists.specs.Keys.{is_among, without};

use crate::end::End;
use crate::places::{edge_at, position_of};
use row_set::RowSet;
use std::alloc::AllocError;

/// The keys before a position, or those from it on, without the rows that stay: of these the first `staying` are at the other
/// side's end, or all but them. `others` has the keys of those that do not stay.
pub(crate) fn end_without(
    end: End,
    keys: &RowSet,
    others: &RowSet,
    position: u64,
    staying: u64,
) -> Result<RowSet, AllocError>
    requires there { AllByRecursion (λ key. IsTrue (is_among key keys.now)) others.now }
    requires enough { staying ≤ length (without others.now keys.now) }
    ensures { IfOk result (λ found. found ≡ without (at_end end staying (without others.now keys.now)) (at_end end position keys.now)) }
{
    let below = others.count_below(edge_at(keys, position));
    let place = position_of(keys, others, staying);
    match end {
        End::First => {
            let others_shown = others.by_positions(0, below)?;
            let past = keys.by_positions(place, position.saturating_sub(place))?;
            others_shown.union(&past)
        }
        End::Last => {
            let others_shown = others.by_positions(below, others.len() - below)?;
            let past = keys.by_positions(position, place.saturating_sub(position))?;
            others_shown.union(&past)
        }
    }
}
