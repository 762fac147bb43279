//! Positions among the keys of a table, and places among those of its rows that stay.
//!
//! A step sees a table before it and now. Some rows stand on one side alone: those that are removed, or those that are added.
//! All others stay, and keep their order; so a row that stays has the same place among these on both sides, wherever it moves.

ghost use Rattle.std.specs.Prelude.{◌≡◌, ◌^◌, ◌<◌, ◌≤◌, drop, length, take, IsTrue};
ghost use Rattle.std.specs.List.{AllByRecursion};
ghost use Rattle.key_lists.specs.Keys.{is_among, without};
ghost use Rattle.row_set.specs.Sets.{IsKeySet};

use row_set::RowSet;
use tick_model::limits::KEY_SPACE;

/// The key at a position, or one past all keys where there are not so many: the keys before the position are below it, and
/// no other is.
pub(crate) fn edge_at(keys: &RowSet, position: u64) -> u64
    ensures before { AllByRecursion (λ key. key < result) (take position keys.now) }
    ensures from { AllByRecursion (λ key. result ≤ key) (drop position keys.now) }
    ensures keys { IsKeySet keys.now }
{
    keys.get(position).unwrap_or(KEY_SPACE)
}

/// How many of the rows before a position stay, where `others` has the keys of those that do not.
pub(crate) fn staying_before(keys: &RowSet, others: &RowSet, position: u64) -> u64
    requires { AllByRecursion (λ key. IsTrue (is_among key keys.now)) others.now }
    ensures { result ≡ length (without others.now (take position keys.now)) }
{
    position.min(keys.len()) - others.count_below(edge_at(keys, position))
}

/// A position before which so many rows stay. It is searched for among the few that may be it: there are no more of them than
/// of the others.
pub(crate) fn position_of(keys: &RowSet, others: &RowSet, staying: u64) -> u64
    requires there { AllByRecursion (λ key. IsTrue (is_among key keys.now)) others.now }
    requires enough { staying ≤ length (without others.now keys.now) }
    ensures { length (without others.now (take result keys.now)) ≡ staying }
{
    let mut low = staying;
    let mut high = staying.saturating_add(others.len()).min(keys.len());
    while low < high {
        let middle = low + (high - low) / 2;
        if staying_before(keys, others, middle) < staying {
            low = middle + 1;
        } else {
            high = middle;
        }
    }
    low
}
