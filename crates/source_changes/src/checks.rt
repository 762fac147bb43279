//! Whether an update may be applied to the keys of a source.

ghost use Rattle.std.specs.Prelude.{◌≡◌, ◌+◌, ◌-◌, ◌^◌, ◌<◌, ◌≤◌, ◌⊎◌, ◌&&◌, [], None, Some, length, option_map, IfErr, IfOk, OnOk};
ghost use Rattle.std.specs.List.{AllByRecursion};
ghost use Rattle.row_set.specs.Sets.{common, united};
ghost use Rattle.source_changes.specs.Faults.{IsRuleOf, keys_fault};
ghost use Rattle.source_changes.specs.Waiting.{AreSets, MayWait};
ghost use Rattle.tick_laws.specs.Checked.{keys_after};
ghost use Rattle.tick_model.specs.Changes.{is_none};
ghost use Rattle.tick_model.specs.Rules.{update_fault};
ghost use Rattle.tick_model.specs.Sources.{too_many};

use crate::faults::KeyFault;
use row_set::RowSet;
use std::alloc::AllocError;
use table_update::Update;
use tick_model::limits::{MOST_ROWS, SOURCE_KEYS};
use tick_model::update::{FeedRule, UpdateFault};

/// Checks an update on the keys of a source.
pub(crate) fn check_on(keys: &RowSet, update: &Update) -> Result<(), KeyFault>
    requires { AllByRecursion (λ key. key < 2 ^ 40) keys.now }
    ensures lawful { OnOk result (keys_fault keys.now update.now ≡ None) }
    ensures cause { IfErr result (IsRuleOf (keys_fault keys.now update.now)) }
{
    see_keys(update);
    check_rules(keys, update)?;
    check_count(keys.len(), update)
}

/// Checks an update that moves no row on the keys that another one leaves, which waits. Only the keys that the update names
/// are looked for.
pub(crate) fn check_behind(keys: &RowSet, waiting: &Update, update: &Update) -> Result<(), KeyFault>
    requires waits { MayWait keys.now waiting.now }
    requires still { update.now.shifted ≡ [] }
    requires below { AllByRecursion (λ key. key < 2 ^ 40) (keys_after keys.now waiting.now) }
    ensures lawful { OnOk result (keys_fault (keys_after keys.now waiting.now) update.now ≡ None) }
    ensures cause { IfErr result (IsRuleOf (keys_fault (keys_after keys.now waiting.now) update.now)) }
{
    see_keys(waiting);
    see_keys(update);
    let rows = rows_after(keys.len(), waiting);
    let here = named_keys(keys, waiting, update)?;
    check_rules(&here, update)?;
    check_count(rows, update)
}

/// The keys that an update names are sets.
pub(crate) fn see_keys(update: &Update)
    ensures { AreSets update.now }
{
    let _ = update.removed();
    let _ = update.added();
    let _ = update.modified();
}

/// Whether an update moves no row.
pub(crate) fn moves_none(update: &Update) -> bool
    ensures { result ≡ is_none update.now.shifted }
{
    update.shifted().ranges().is_empty()
}

/// Whether an update neither removes nor adds nor moves a row.
fn only_modifies(update: &Update) -> bool
    ensures { result ≡ (is_none update.now.removed && is_none update.now.added && is_none update.now.shifted) }
{
    update.removed().is_empty() && update.added().is_empty() && moves_none(update)
}

/// Checks an update on the keys of a source. Where it only modifies rows, as most do, their keys are looked for one by one, and
/// no set is made.
fn check_update(keys: &RowSet, update: &Update) -> Result<(), UpdateFault>
    requires { AllByRecursion (λ key. key < 2 ^ 40) keys.now }
    ensures ok { OnOk result (update_fault (2 ^ 40) keys.now update.now ≡ None) }
    ensures fault { IfErr result (λ fault. (fault ≡ UpdateFault.Memory) ⊎ (update_fault (2 ^ 40) keys.now update.now ≡ Some fault)) }
{
    if !only_modifies(update) {
        return update.check(keys, SOURCE_KEYS);
    }
    let _ = keys.ranges();
    match update.modified().iter().find(|key| !keys.contains(*key)) {
        None => Ok(()),
        Some(key) => Err(UpdateFault::ModifiedAbsent { key }),
    }
}

/// Checks the rules of an update on the keys of a source.
fn check_rules(keys: &RowSet, update: &Update) -> Result<(), KeyFault>
    requires { AllByRecursion (λ key. key < 2 ^ 40) keys.now }
    ensures lawful { OnOk result (update_fault (2 ^ 40) keys.now update.now ≡ None) }
    ensures cause { IfErr result (IsRuleOf (option_map FeedRule.Update (update_fault (2 ^ 40) keys.now update.now))) }
{
    match check_update(keys, update) {
        Ok(()) => Ok(()),
        Err(UpdateFault::Memory) => Err(KeyFault::Memory),
        Err(fault) => Err(KeyFault::Broken(FeedRule::Update(fault))),
    }
}

/// Checks the number of rows that an update leaves of these many.
fn check_count(rows: u64, update: &Update) -> Result<(), KeyFault>
    requires small { rows ≤ 2 ^ 62 }
    requires there { length update.now.removed ≤ rows }
    ensures lawful { OnOk result (too_many (rows + length update.now.added - length update.now.removed) ≡ None) }
    ensures cause { IfErr result (IsRuleOf (too_many (rows + length update.now.added - length update.now.removed))) }
{
    let rows = rows_after(rows, update);
    if rows > u64::from(MOST_ROWS) {
        return Err(KeyFault::Broken(FeedRule::TooManyRows { rows }));
    }
    Ok(())
}

/// How many rows an update leaves of these many.
fn rows_after(rows: u64, update: &Update) -> u64
    requires small { rows ≤ 2 ^ 62 }
    requires there { length update.now.removed ≤ rows }
    ensures { result ≡ rows + length update.now.added - length update.now.removed }
{
    rows + update.added().len() - update.removed().len()
}

/// The keys that an update names, of those that another one leaves, which moves no row.
fn named_keys(keys: &RowSet, waiting: &Update, update: &Update) -> Result<RowSet, AllocError>
    requires { waiting.now.shifted ≡ [] }
    ensures { IfOk result (λ here. here
        ≡ common (united update.now.removed (united update.now.added update.now.modified)) (keys_after keys.now waiting.now)) }
{
    let coming = update.added().union(update.modified())?;
    let named = update.removed().union(&coming)?;
    let staying = named.intersect(keys)?.minus(waiting.removed())?;
    let added = named.intersect(waiting.added())?;
    added.union(&staying)
}
