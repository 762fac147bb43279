//! What is left of the ranges of a shift, and of ranges of keys, from a key on.
ghost use Rattle.std.specs.Prelude.{◌≡◌, ℕ, ◌<◌, ◌≤◌, length, take, drop};
ghost use Rattle.std.specs.List.{AllByRecursion};
ghost use Rattle.key_lists.specs.Keys.{is_among};
ghost use Rattle.row_set.specs.Choice.{AreAhead};
ghost use Rattle.row_set.specs.Ranges.{AreApart, keys_of};
ghost use Rattle.tick_model.specs.Shifts.{delta_at};
ghost use Rattle.shift_data.specs.ShiftLists.{IsShiftList};

use crate::search::ended_before;
use row_set::Range;
use tick_model::update::ShiftRange;

/// The ranges of a shift that do not end before the key.
pub(crate) fn shifts_from(shifts: &[ShiftRange], key: u64) -> &[ShiftRange]
    requires { IsShiftList shifts.now }
    ensures list { IsShiftList result.now }
    ensures same { (other : ℕ) → key ≤ other → delta_at result.now other ≡ delta_at shifts.now other }
{
    &shifts[ended_before(shifts, key)..]
}

/// The ranges of keys that do not end before the key. Where none does, or the first one alone, this is seen at once.
pub(crate) fn runs_from(runs: &[Range], key: u64) -> &[Range]
    requires { AreApart 0 runs.now }
    ensures ahead { AreAhead key result.now }
    ensures same { (other : ℕ) → key ≤ other → is_among other (keys_of result.now) ≡ is_among other (keys_of runs.now) }
{
    match runs {
        [run, ..] if key <= run.last => runs,
        [_, run, ..] if key <= run.last => &runs[1..],
        _ => &runs[runs_before(runs, key)..],
    }
}

/// How many ranges of keys end before the key.
fn runs_before(runs: &[Range], key: u64) -> usize
    requires { AreApart 0 runs.now }
    ensures within { result ≤ length runs.now }
    ensures ended { AllByRecursion (λ run. run.last < key) (take result runs.now) }
    ensures others { AllByRecursion (λ run. key ≤ run.last) (drop result runs.now) }
{
    runs.partition_point(|run| run.last < key)
}
