//! Whether a shift keeps the order of a set of keys.
ghost use Rattle.std.specs.Prelude.{◌≡◌, ◌-◌, ◌^◌, ◌<◌, ◌≤◌, pos, negsuc, ◌+ℤ◌, ◌-ℤ◌, ◌<ℤ◌, ◌≤ℤ◌, false, option_map};
ghost use Rattle.std.specs.Option.{ForSome};
ghost use Rattle.key_lists.specs.Keys.{without};
ghost use Rattle.row_set.specs.Sets.{IsKeySet};
ghost use Rattle.tick_model.specs.Rules.{is_past, shift_fault};
ghost use Rattle.shift_data.specs.ShiftLists.{IsShiftList};
ghost use Rattle.shift_data.specs.Faults.{breaks, fault_in, past_fault, IsPlaced};

use crate::parts::{Part, next_kept, part_without};
use crate::search::place_of;
use crate::shifts::Broken;
use row_set::RowSet;
use tick_model::update::ShiftRange;

/// The least of the keys, but those that are left out, that the shift leads past the limit, or not past the key before it.
pub(crate) fn broken(
    shifts: &[ShiftRange],
    keys: &RowSet,
    left_out: &RowSet,
    limit: u64,
) -> Option<Broken>
    requires shifts { IsShiftList shifts.now }
    requires limit { limit ≤ 2 ^ 62 }
    ensures { option_map breaks result ≡ shift_fault limit shifts.now (without left_out.now keys.now) }
{
    let mut before = None;
    let mut from = 0;
    while let Some(part) = part_without(shifts, keys, left_out, from) {
        let broken = broken_at(keys, left_out, before, part, limit);
        if broken.is_some() {
            return broken;
        }
        from = part.last + 1;
        before = Some(part);
    }
    None
}

/// The least key of a part that breaks the order behind the part before it.
fn broken_at(
    keys: &RowSet,
    left_out: &RowSet,
    before: Option<Part>,
    part: Part,
    limit: u64,
) -> Option<Broken>
    requires limit { limit ≤ 2 ^ 62 }
    requires before { ForSome before IsPlaced }
    requires part { IsPlaced part }
    requires order { part.first ≤ part.last }
    ensures { option_map breaks result ≡ fault_in limit before part (without left_out.now keys.now) }
{
    let place = place_of(part.first, part.delta);
    if is_past(limit, place) {
        return Some(Broken {
            first: part.first,
            second: part.first,
        });
    }
    match before {
        Some(before) if place <= place_of(before.last, before.delta) => Some(Broken {
            first: before.last,
            second: part.first,
        }),
        _ => past_the_limit(keys, left_out, part, limit),
    }
}

/// The least key of a part that moves past the limit, where the first of them does not.
fn past_the_limit(keys: &RowSet, left_out: &RowSet, part: Part, limit: u64) -> Option<Broken>
    requires limit { limit ≤ 2 ^ 62 }
    requires part { IsPlaced part }
    requires inside { is_past limit (pos part.first +ℤ part.delta) ≡ false }
    ensures { option_map breaks result ≡ past_fault limit part (without left_out.now keys.now) }
{
    let key = next_kept(keys, left_out, key_reaching(limit, part.delta))?;
    if part.last < key {
        return None;
    }
    Some(Broken {
        first: key,
        second: key,
    })
}

/// Whether a number is no key below the limit.
fn is_past(limit: u64, place: i64) -> bool
    requires { limit ≤ 2 ^ 62 }
    ensures { result ≡ is_past limit place }
{
    place < 0 || place >= limit as i64
}

/// The key that delta leads to the limit.
fn key_reaching(limit: u64, delta: i64) -> u64
    requires limit { limit ≤ 2 ^ 62 }
    requires up { delta ≤ℤ pos limit }
    requires down { negsuc (2 ^ 62 - 1) <ℤ delta }
    ensures { pos result ≡ pos limit -ℤ delta }
{
    (limit as i64 - delta) as u64
}
