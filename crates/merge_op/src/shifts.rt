//! How the rows of all inputs move: each with its input, and with the region of the input besides.

ghost use Rattle.std.specs.Prelude.{◌≡◌, ℕ, ◌+◌, ◌-◌, ◌^◌, ◌<◌, ◌≤◌, pos, ◌+ℤ◌, ◌-ℤ◌, max, OnOk, false, true};
ghost use Rattle.std.specs.List.{AllByRecursion};
ghost use Rattle.merge_op.specs.Regions.{IsStart};
ghost use Rattle.merge_op.specs.Steps.{IsStep};
ghost use Rattle.tick_model.specs.Shifts.{delta_at};

use crate::starts::Start;
use shift_data::ShiftData;
use std::alloc::AllocError;
use tick_model::limits::KEY_SPACE;

/// How far the rows of a region move with it.
fn step_between(before: u64, now: u64) -> i64
    requires before { before ≤ 2 ^ 62 + 2 ^ 20 }
    requires now { now ≤ 2 ^ 62 + 2 ^ 20 }
    ensures { result ≡ pos now -ℤ pos before }
{
    now as i64 - before as i64
}

/// How far a row moves that moves with its input and with the region, where that leads to a key.
fn both_steps(own: i64, by: i64) -> i64
    ensures { IsStep (own +ℤ by) → result ≡ own +ℤ by }
{
    match own.checked_add(by) {
        Some(step) => step,
        None => 0,
    }
}

/// Whether a row may move by so much, and does move.
fn leads_on(delta: i64) -> bool
    ensures yes { result ≡ true → IsStep delta }
    ensures no { result ≡ false → IsStep delta → delta ≡ pos 0 }
{
    delta != 0 && delta < KEY_SPACE as i64 && -(KEY_SPACE as i64) < delta
}

/// Puts the range of the keys from `begin` on and before `end`, if there are any.
fn push_keys(shift: &mut ShiftData, begin: u64, end: u64, delta: i64) -> Result<(), AllocError>
    requires before { AllByRecursion (λ range. range.end < begin) shift.old }
    requires end { end ≤ 2 ^ 62 }
    requires step { IsStep delta }
    ensures before { OnOk result (AllByRecursion (λ range. range.end < max begin end) shift.new) }
    ensures earlier { OnOk result ((key : ℕ) → key < begin → delta_at shift.new key ≡ delta_at shift.old key) }
    ensures moved { OnOk result ((key : ℕ) → begin ≤ key → key < end → delta_at shift.new key ≡ delta) }
{
    if end <= begin {
        return Ok(());
    }
    match shift.push(begin, end - 1, delta) {
        Ok(()) => Ok(()),
        Err(_) => Err(AllocError),
    }
}

/// Lets the keys from `begin` on and before `end` move by `delta`, where those that move already are before them. No row is
/// moved past all keys, so nothing is put where `delta` leads there.
fn put_range(shift: &mut ShiftData, begin: u64, end: u64, delta: i64) -> Result<(), AllocError>
    requires before { AllByRecursion (λ range. range.end < begin) shift.old }
    requires order { begin ≤ end }
    ensures before { OnOk result (AllByRecursion (λ range. range.end < end) shift.new) }
    ensures earlier { OnOk result ((key : ℕ) → key < begin → delta_at shift.new key ≡ delta_at shift.old key) }
    ensures moved { OnOk result ((key : ℕ) → begin ≤ key → key < end → key < 2 ^ 62 → IsStep delta → delta_at shift.new key ≡ delta) }
{
    if leads_on(delta) {
        push_keys(shift, begin, end.min(KEY_SPACE), delta)?;
        Ok(())
    } else {
        Ok(())
    }
}

/// Puts the ranges of an input behind those of the inputs before it: its own, which move with its region besides, and between
/// them the keys that move with the region alone. `end` is where the region ended before the step.
pub(crate) fn put_shift(
    shift: &mut ShiftData,
    input: &ShiftData,
    start: Start,
    end: u64,
) -> Result<(), AllocError>
    requires before { AllByRecursion (λ range. range.end < start.before) shift.old }
    requires start { IsStart start }
    requires order { start.before ≤ end }
    ensures before { OnOk result (AllByRecursion (λ range. range.end < end) shift.new) }
    ensures earlier { OnOk result ((key : ℕ) → key < start.before → delta_at shift.new key ≡ delta_at shift.old key) }
    ensures moved { OnOk result ((key : ℕ) → start.before ≤ key → key < end → key < 2 ^ 62
        → IsStep (delta_at input.now (key - start.before) +ℤ (pos start.now -ℤ pos start.before))
        → delta_at shift.new key ≡ delta_at input.now (key - start.before) +ℤ (pos start.now -ℤ pos start.before)) }
{
    let by = step_between(start.before, start.now);
    let mut from = start.before;
    for range in input.ranges() {
        let begin = end.min(start.before + range.begin);
        let next = end.min(start.before + range.end + 1);
        put_range(shift, from, begin, by)?;
        put_range(shift, begin, next, both_steps(range.delta, by))?;
        from = next;
    }
    put_range(shift, from, end, by)?;
    Ok(())
}
