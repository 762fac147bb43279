//! The groups that a step touches, by their first rows.

ghost use Rattle.std.specs.Prelude.{◌≡◌, ℕ, ◌^◌, ◌<◌, ◌==◌, false, IfOk, IfSome, OnOk};
ghost use Rattle.std.specs.List.{AllByRecursion, list_any};
ghost use Rattle.std.specs.Option.{option_map_or};
ghost use Rattle.agg_by.specs.Touched.{AreLed, starts_numbered};
ghost use Rattle.key_lists.specs.Keys.{IsRising, is_among};

use row_groups::NumberedGroups;
use row_set::RowSet;
use std::alloc::{AllocError, Global};

/// A group that has rows.
#[derive(Clone, Copy)]
pub(crate) struct LedGroup {
    /// The key of its first row.
    pub first: u64,
    pub number: usize,
}

/// Puts those of the groups with these numbers that have rows, as they are kept, in place of others, in the order of their first
/// rows. Gives the keys of these rows.
pub(crate) fn find_led(
    alloc: Global,
    rows: &NumberedGroups,
    numbers: &[usize],
    led: &mut Vec<LedGroup>,
) -> Result<RowSet, AllocError>
    ensures led { OnOk result (AreLed rows.now led.new.items) }
    ensures firsts { IfOk result (λ firsts. (first : ℕ) → is_among first firsts ≡ list_any (starts_numbered rows.now first) numbers.now) }
    ensures rising { IfOk result (λ firsts. IsRising firsts) }
{
    led.clear();
    led.reserve(numbers.len())?;
    for number in numbers {
        if let Some(group) = led_group(rows, *number) {
            led.push(group)?;
        }
    }
    led.sort_unstable_by_key(|group| group.first);
    firsts_of(alloc, led)
}

/// The group with a number, if it has rows.
fn led_group(rows: &NumberedGroups, number: usize) -> Option<LedGroup>
    ensures first { (first : ℕ) → option_map_or (λ group. group.first == first) result false ≡ starts_numbered rows.now first number }
    ensures number { IfSome result (λ group. group.number ≡ number) }
    ensures small { IfSome result (λ group. group.first < 2 ^ 62) }
{
    let group = rows.group_at(number)?;
    let first = group.first_key()?;
    Some(LedGroup { first, number })
}

/// The keys of the first rows of groups.
fn firsts_of(alloc: Global, led: &[LedGroup]) -> Result<RowSet, AllocError>
    requires { AllByRecursion (λ group. group.first < 2 ^ 62) led.now }
    ensures firsts { IfOk result (λ firsts. (first : ℕ) → is_among first firsts ≡ list_any (λ group. group.first == first) led.now) }
    ensures rising { IfOk result (λ firsts. IsRising firsts) }
{
    let mut firsts = RowSet::with_capacity(alloc, led.len())?;
    for group in led {
        firsts.insert_range(group.first, group.first)?;
    }
    Ok(firsts)
}
