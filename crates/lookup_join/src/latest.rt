//! What is picked of the latest rows of a group that are not later than a time.

ghost use Rattle.std.specs.Prelude.{◌≡◌, None, int_le, option_map, pos, if◌then◌else◌};
ghost use Rattle.lookup_join.specs.Latest.{AreTimed, earlier as earlier_of, match_of, next_time as next_of};
ghost use Rattle.lookup_join.specs.Notes.{taken_key};

use crate::pick::Pick;
use row_groups::NumberedGroups;

/// A row of a group, and its time.
#[derive(Clone, Copy, PartialEq, Eq)]
pub(crate) struct Found {
    pub key: u64,
    pub at: i64,
}

/// Of the rows with these cells the one that is picked of the latest that are not later than a time.
pub(crate) fn latest(pick: Pick, index: &NumberedGroups, cells: &[i64], at: i64) -> Option<Found>
    requires { AreTimed pick index.now.members }
    ensures { result ≡ option_map (λ member. record { key = member.key; at = member.at }) (match_of pick cells.now at index.now.members) }
{
    match pick {
        Pick::First => untimed(index.group(cells).first_key(), at),
        Pick::Last => untimed(index.group(cells).last_key(), at),
        Pick::Latest(_) => last_until(index, cells, at),
    }
}

/// The row under a key, where all rows have the time 0, if that is not later than this time.
fn untimed(key: Option<u64>, at: i64) -> Option<Found>
    ensures { result ≡ (if int_le (pos 0) at then option_map (λ key. record { key = key; at = pos 0 }) key else None) }
{
    if at < 0 {
        return None;
    }
    let key = key?;
    Some(Found { key, at: 0 })
}

/// Of the rows with these cells the last of the latest that are not later than a time.
pub(crate) fn last_until(index: &NumberedGroups, cells: &[i64], at: i64) -> Option<Found>
    ensures { result ≡ option_map (λ member. record { key = member.key; at = member.at }) (match_of Pick.Last cells.now at index.now.members) }
{
    let group = index.group(cells);
    let last = group.count_at_most(at).checked_sub(1)?;
    let key = group.key_at(last);
    let time = group.at_at(last);
    Some(Found { key, at: time })
}

/// The key of that row.
pub(crate) fn latest_key(pick: Pick, index: &NumberedGroups, cells: &[i64], at: i64) -> Option<u64>
    requires { AreTimed pick index.now.members }
    ensures { result ≡ taken_key pick index.now.members cells.now at }
{
    let found = latest(pick, index, cells, at)?;
    Some(found.key)
}

/// The first time after this one of a row with these cells.
pub(crate) fn next_time(index: &NumberedGroups, cells: &[i64], at: i64) -> Option<i64>
    ensures { result ≡ next_of cells.now at index.now.members }
{
    let group = index.group(cells);
    let position = group.count_at_most(at);
    if position < group.len() {
        Some(group.at_at(position))
    } else {
        None
    }
}

/// The earlier of two times, each of which may be missing.
pub(crate) fn earlier(one: Option<i64>, other: Option<i64>) -> Option<i64>
    ensures { result ≡ earlier_of one other }
{
    match (one, other) {
        (None, time) => time,
        (Some(one), None) => Some(one),
        (Some(one), Some(other)) => Some(if other < one { other } else { one }),
    }
}
