//! Searches among the keys of two sets.

ghost use Rattle.std.specs.Prelude.{◌≡◌, find, not};
ghost use Rattle.key_lists.specs.Keys.{is_among};

use row_set::RowSet;

/// The least key that is none of the others, by one search among them for each range of the keys.
pub(crate) fn least_absent(keys: &RowSet, others: &RowSet) -> Option<u64>
    ensures { result ≡ find (λ key. not (is_among key others.now)) keys.now }
{
    for range in keys.ranges() {
        match others.range_at(range.first) {
            None => return Some(range.first),
            Some(held) if held.last < range.last => return Some(held.last + 1),
            Some(_) => {}
        }
    }
    None
}
