//! Left rows with two matches, where there is to be one.

ghost use Rattle.std.specs.Prelude.{◌≡◌, ◌++◌, None, map, true};
ghost use Rattle.std.specs.List.{AllByRecursion};
ghost use Rattle.key_lists.specs.Keys.{is_among};
ghost use Rattle.lookup_join.specs.Duplicates.{cells_under, earlier, faulty_group, least_fault};
ghost use Rattle.row_groups.specs.Members.{keys_of};

use crate::notes::PriorMatches;
use row_groups::NumberedGroups;
use row_set::RowSet;

/// A left row with two matches or more.
#[derive(Clone, Copy, Debug, PartialEq, Eq)]
pub struct Duplicate {
    /// The key of the left row.
    pub left_key: u64,
    /// The key of its first match.
    pub first: u64,
    /// The key of its second match.
    pub second: u64,
}

/// The first left row of a group, where the group has two right rows.
fn duplicate_in(left: &NumberedGroups, right: &NumberedGroups, cells: &[i64]) -> Option<Duplicate>
    ensures { result ≡ faulty_group left.now.members right.now.members cells.now }
{
    let matches = right.group(cells);
    if matches.len() < 2 {
        return None;
    }
    let left_key = left.group(cells).first_key()?;
    Some(Duplicate {
        left_key,
        first: matches.key_at(0),
        second: matches.key_at(1),
    })
}

/// The one whose left key is less.
fn earlier_of(one: Option<Duplicate>, other: Option<Duplicate>) -> Option<Duplicate>
    ensures { result ≡ earlier one other }
{
    match (one, other) {
        (Some(one), Some(other)) if other.left_key < one.left_key => Some(other),
        (None, other) => other,
        (one, _) => one,
    }
}

/// The least left row with two matches in the noted groups.
fn noted_duplicate(
    left: &NumberedGroups,
    right: &NumberedGroups,
    notes: &PriorMatches,
) -> Option<Duplicate>
    ensures { result ≡ least_fault left.now.members right.now.members None (map (λ note. note.cells) notes.now.notes) }
{
    let mut least = None;
    for number in 0..notes.len() {
        let found = duplicate_in(left, right, notes.cells_at(number));
        least = earlier_of(least, found);
    }
    least
}

/// The least left row with two matches in the noted groups and in those of these left rows. Where each right row is alone in its
/// group, none is looked for.
pub(crate) fn first_duplicate(
    left: &NumberedGroups,
    right: &NumberedGroups,
    notes: &PriorMatches,
    came: &RowSet,
) -> Option<Duplicate>
    requires { AllByRecursion (λ key. is_among key (keys_of left.now.members) ≡ true) came.now }
    ensures { result ≡ least_fault left.now.members right.now.members None (map (λ note. note.cells) notes.now.notes ++ map (cells_under left.now.members) came.now) }
{
    if right.are_alone() {
        return None;
    }
    let mut least = noted_duplicate(left, right, notes);
    for key in came {
        let cells = left.cells_of(key).unwrap();
        least = earlier_of(least, duplicate_in(left, right, cells));
    }
    least
}
