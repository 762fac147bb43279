//! The left rows that a step touches since a right row does.

ghost use Rattle.std.specs.Prelude.{◌≡◌, ◌+◌, ◌*◌, ◌<◌, ◌≤◌, ◌++◌, filter, length, IfOk, OnOk};
ghost use Rattle.std.specs.List.{AllByRecursion};
ghost use Rattle.lookup_join.specs.Latest.{AreTimed, count_before, during};
ghost use Rattle.lookup_join.specs.Taken.{IsFrom, end_of as end_of_note, turned_members};
ghost use Rattle.row_groups.specs.Members.{group_of, keys_of};

use crate::latest::{earlier, latest_key, next_time};
use crate::matches::Match;
use crate::notes::PriorMatches;
use crate::pick::Pick;
use row_groups::{Group, NumberedGroups};
use std::alloc::{AllocError, Global};
use std::sync::ledger::Ledger;
use tick_table::{Steps, TickTable};

/// How many rows of a group come before a time, if there is one.
fn count_until(group: &Group<'_>, until: Option<i64>) -> usize
    ensures { result ≡ count_before until group.now }
{
    match until {
        Some(time) => group.count_below(time),
        None => group.len(),
    }
}

/// Puts the keys of those rows with some key cells behind others whose times are from one moment on, until another if there is
/// one.
fn put_keys(
    index: &NumberedGroups,
    cells: &[i64],
    from: i64,
    until: Option<i64>,
    keys: &mut Vec<u64>,
) -> Result<(), AllocError>
    ensures { OnOk result (keys.new.items ≡ keys.old.items ++ keys_of (filter (during from until) (group_of cells.now index.now.members))) }
{
    let group = index.group(cells);
    let start = group.count_below(from);
    let end = count_until(&group, until);
    for position in start..end {
        keys.push(group.key_at(position))?;
    }
    Ok(())
}

/// Until when a note of a place speaks for left rows.
fn end_of(index: &NumberedGroups, notes: &PriorMatches, cells: &[i64], at: i64) -> Option<i64>
    ensures { result ≡ end_of_note index.now.members notes.now.notes cells.now at }
{
    earlier(next_time(index, cells, at), notes.next_time(cells, at))
}

/// The keys of the left rows for which those notes speak whose cells differ now from before, note by note.
pub(crate) fn turned_rows<L: Ledger>(
    alloc: Global,
    pick: Pick,
    take: &[u32],
    left: &NumberedGroups,
    index: &NumberedGroups,
    right: &TickTable,
    notes: &PriorMatches,
    reads: &mut Steps<L>,
) -> Result<Vec<u64>, AllocError>
    requires take { AllByRecursion (λ column. column < right.now.new.width) take.now }
    requires timed { AreTimed pick index.now.members }
    requires there { AllByRecursion (IsFrom pick index.now.members right.now.old right.now.new) notes.now.notes }
    ensures keys { IfOk result (λ keys. keys.items ≡ turned_members pick take.now left.now.members index.now.members notes.now.notes right.now.old.rows right.now.new.rows notes.now.notes) }
    ensures reads { reads.new ≤ reads.old + 2 * length take.now * length notes.now.notes }
{
    let mut keys = Vec::new(alloc);
    for number in 0..notes.len() {
        let cells = notes.cells_at(number);
        let at = notes.at_of(number);
        let before = Match::before(notes.before_at(number));
        let now = Match::now(latest_key(pick, index, cells, at));
        if !now.gives_as(before, right, take, reads) {
            let until = end_of(index, notes, cells, at);
            put_keys(left, cells, at, until, &mut keys)?;
        }
    }
    Ok(keys)
}
