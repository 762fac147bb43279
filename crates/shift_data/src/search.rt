//! Searches in the ranges of a shift, and the numbers to which keys move.
ghost use Rattle.std.specs.Prelude.{◌≡◌, ◌-◌, ◌^◌, ◌<◌, ◌≤◌, length, take, drop, find, pos, negsuc, ◌+ℤ◌, ◌<ℤ◌, IfSome};
ghost use Rattle.std.specs.List.{AllByRecursion};
ghost use Rattle.tick_model.specs.Shifts.{holds};
ghost use Rattle.tick_model.specs.Printable.{IsShiftRange};
ghost use Rattle.shift_data.specs.ShiftLists.{IsShiftList};

use tick_model::update::ShiftRange;

/// How many of the ranges end before the key. Where none does, this is seen at once.
pub(crate) fn ended_before(shifts: &[ShiftRange], key: u64) -> usize
    requires { IsShiftList shifts.now }
    ensures within { result ≤ length shifts.now }
    ensures ended { AllByRecursion (λ range. range.end < key) (take result shifts.now) }
    ensures others { AllByRecursion (λ range. key ≤ range.end) (drop result shifts.now) }
{
    match shifts {
        [range, ..] if key <= range.end => 0,
        _ => count_ended(shifts, key),
    }
}

/// How many of the ranges end before the key.
fn count_ended(shifts: &[ShiftRange], key: u64) -> usize
    requires { IsShiftList shifts.now }
    ensures within { result ≤ length shifts.now }
    ensures ended { AllByRecursion (λ range. range.end < key) (take result shifts.now) }
    ensures others { AllByRecursion (λ range. key ≤ range.end) (drop result shifts.now) }
{
    shifts.partition_point(|range| range.end < key)
}

/// The range that holds the key.
pub(crate) fn range_of(shifts: &[ShiftRange], key: u64) -> Option<ShiftRange>
    requires { IsShiftList shifts.now }
    ensures range { result ≡ find (λ range. holds range key) shifts.now }
    ensures small { IfSome result (IsShiftRange (2 ^ 62)) }
{
    let range = shifts.get(ended_before(shifts, key)).copied()?;
    (range.begin <= key).then_some(range)
}

/// The number to which a key moves by delta.
pub(crate) fn place_of(key: u64, delta: i64) -> i64
    requires key { key < 2 ^ 62 }
    requires up { delta <ℤ pos (2 ^ 62) }
    requires down { negsuc (2 ^ 62 - 1) <ℤ delta }
    ensures { result ≡ pos key +ℤ delta }
{
    key as i64 + delta
}
