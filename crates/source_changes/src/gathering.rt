//! What the blocks of a step have changed of a source so far.
//!
//! An update that moves no row may wait: the updates of the blocks that follow are joined to it, and it is joined to the update
//! of all blocks before it when it has grown to the root of its size, or when rows move. So a block that moves no row costs
//! what it names and the root of what was gathered before it, and not all that was.

ghost use Rattle.std.specs.Prelude.{◌≡◌, ◌^◌, [], None, IfErr, IfOk, OnOk};
ghost use Rattle.key_lists.specs.Keys.{without};
ghost use Rattle.shift_data.specs.Moves.{IsLawful};
ghost use Rattle.source_changes.specs.Faults.{IsKeysBelow, IsRuleOf, keys_fault};
ghost use Rattle.source_changes.specs.Stepping.{first_update as first_said, update_after as update_said_after};
ghost use Rattle.source_changes.specs.Waiting.{IsGathered, MayFollow, Waits, joined, keys_with};
ghost use Rattle.table_update.specs.Coalesced.{Follow};
ghost use Rattle.tick_laws.specs.Checked.{keys_after};
ghost use Rattle.tick_laws.specs.Replaced.{no_update};
ghost use Rattle.tick_model.specs.Rules.{update_fault};

use crate::checks::{check_behind, check_on, moves_none, see_keys};
use crate::faults::KeyFault;
use row_set::RowSet;
use std::alloc::{AllocError, Global};
use std::mem;
use table_update::Update;

/// An update with no more ranges of keys than these goes on waiting, however few there are before it.
const FEW: usize = 64;

/// What the blocks of a step have changed of a source so far.
#[derive(Drop)]
pub(crate) struct PendingUpdate {
    /// The keys that the update leaves.
    pub(crate) keys: RowSet,
    /// What the blocks have changed, but for the last ones where an update waits.
    pub(crate) update: Update,
    /// What the last blocks have changed, which move no row.
    pub(crate) waiting: Option<Update>,
}

impl PendingUpdate {
    /// A source that no block has changed, with its keys.
    pub(crate) fn new(alloc: Global, keys: RowSet) -> PendingUpdate
        ensures keys { result.keys ≡ keys }
        ensures update { result.update ≡ no_update }
        ensures waiting { result.waiting ≡ None }
    {
        PendingUpdate {
            keys,
            update: Update::none(alloc),
            waiting: None,
        }
    }

    /// Joins the update that waits, where the next one must not follow it or where it has grown.
    pub(crate) fn make_way(
        &mut self,
        alloc: Global,
        old: &RowSet,
        next: &Update,
    ) -> Result<(), AllocError>
        requires { IsGathered old.now self.old }
        ensures gathered { OnOk result (IsGathered old.now self.new) }
        ensures joined { OnOk result (joined old.now self.new.update self.new.waiting ≡ joined old.now self.old.update self.old.waiting) }
        ensures keys { OnOk result (keys_with self.new.keys self.new.waiting ≡ keys_with self.old.keys self.old.waiting) }
        ensures way { OnOk result (MayFollow self.new.waiting next.now) }
    {
        if moves_none(next) && !self.is_long() {
            return Ok(());
        }
        self.settle(alloc, old)
    }

    /// Joins the update that waits, if one does.
    pub(crate) fn settle(&mut self, alloc: Global, old: &RowSet) -> Result<(), AllocError>
        requires { IsGathered old.now self.old }
        ensures gathered { OnOk result (IsGathered old.now self.new) }
        ensures joined { OnOk result (joined old.now self.new.update self.new.waiting ≡ joined old.now self.old.update self.old.waiting) }
        ensures keys { OnOk result (keys_with self.new.keys self.new.waiting ≡ keys_with self.old.keys self.old.waiting) }
        ensures none { OnOk result (self.new.waiting ≡ None) }
    {
        if let Some(waiting) = mem::replace(&mut self.waiting, None) {
            self.join(alloc, old, waiting)?;
        }
        Ok(())
    }

    /// Checks the next update on the keys of now.
    pub(crate) fn check(&self, next: &Update) -> Result<(), KeyFault>
        requires waits { Waits self.now.keys self.now.waiting }
        requires way { MayFollow self.now.waiting next.now }
        requires below { IsKeysBelow (2 ^ 40) (keys_with self.now.keys self.now.waiting) }
        ensures lawful { OnOk result (keys_fault (keys_with self.now.keys self.now.waiting) next.now ≡ None) }
        ensures cause { IfErr result (IsRuleOf (keys_fault (keys_with self.now.keys self.now.waiting) next.now)) }
    {
        match &self.waiting {
            None => check_on(&self.keys, next),
            Some(waiting) => check_behind(&self.keys, waiting, next),
        }
    }

    /// Takes the next update, which may be applied to the keys of now.
    pub(crate) fn put(
        &mut self,
        alloc: Global,
        old: &RowSet,
        next: Update,
    ) -> Result<(), AllocError>
        requires gathered { IsGathered old.now self.old }
        requires way { MayFollow self.old.waiting next }
        requires plain { next.columns ≡ [] }
        requires lawful { update_fault (2 ^ 62) (keys_with self.old.keys self.old.waiting) next ≡ None }
        ensures gathered { OnOk result (IsGathered old.now self.new) }
        ensures joined { OnOk result (joined old.now self.new.update self.new.waiting ≡ update_said_after old.now (joined old.now self.old.update self.old.waiting) next) }
    {
        match mem::replace(&mut self.waiting, None) {
            Some(waiting) => {
                let _ = old.len();
                see_keys(&next);
                let both = waiting.coalesce(&next, &self.keys)?;
                see_keys(&both);
                self.waiting = Some(both);
                Ok(())
            }
            None if moves_none(&next) && !self.update.is_empty() => {
                see_keys(&next);
                self.waiting = Some(next);
                Ok(())
            }
            None => self.join(alloc, old, next),
        }
    }

    /// Joins an update where none waits.
    fn join(&mut self, alloc: Global, old: &RowSet, next: Update) -> Result<(), AllocError>
        requires gathered { IsGathered old.now self.old }
        requires none { self.old.waiting ≡ None }
        requires plain { next.columns ≡ [] }
        requires lawful { update_fault (2 ^ 62) self.old.keys next ≡ None }
        ensures gathered { OnOk result (IsGathered old.now self.new) }
        ensures update { OnOk result (self.new.update ≡ update_said_after old.now self.old.update next) }
        ensures keys { OnOk result (self.new.keys ≡ keys_after self.old.keys next) }
        ensures none { OnOk result (self.new.waiting ≡ None) }
    {
        let _ = old.len();
        see_keys(&next);
        let keys = mem::replace(&mut self.keys, RowSet::new(alloc));
        let keys = next.apply_to_keys(keys)?;
        self.keys = keys;
        let update = mem::replace(&mut self.update, Update::none(alloc));
        let after = update_after(update, next, old)?;
        see_keys(&after);
        self.update = after;
        Ok(())
    }

    /// Whether an update waits that has grown, by the number of its ranges against those of all keys.
    fn is_long(&self) -> bool {
        match &self.waiting {
            None => false,
            Some(waiting) => {
                let ranges = ranges_of(waiting);
                let all = ranges_of(&self.update).saturating_add(self.keys.ranges().len());
                ranges > FEW && ranges.saturating_mul(ranges) > all
            }
        }
    }
}

/// The number of ranges of an update's keys.
fn ranges_of(update: &Update) -> usize {
    let keys = update.removed().ranges().len();
    keys.saturating_add(update.added().ranges().len())
        .saturating_add(update.modified().ranges().len())
}

/// The update of a table with the old keys after the next one.
fn update_after(update: Update, next: Update, old: &RowSet) -> Result<Update, AllocError>
    requires { Follow old.now update next }
    ensures { IfOk result (λ after. after ≡ update_said_after old.now update next) }
{
    if update.is_empty() {
        first_update(next, old)
    } else {
        update.coalesce(&next, old)
    }
}

/// The first update of a step that changes a table at all.
fn first_update(next: Update, old: &RowSet) -> Result<Update, AllocError>
    requires { IsLawful next.shifted (without next.removed old.now) }
    ensures { IfOk result (λ first. first ≡ first_said old.now next) }
{
    let longest = next.shifted().canonical_without(old, next.removed())?;
    let Update {
        removed,
        added,
        modified,
        shifted: _,
        columns,
    } = next;
    Ok(Update {
        removed,
        added,
        modified,
        shifted: longest,
        columns,
    })
}
