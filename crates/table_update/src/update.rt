//! The update itself: its parts, the keys before and after it, and whether it may be applied.

ghost use Rattle.std.specs.Prelude.{◌≡◌, ◌^◌, ◌≤◌, ◌⊎◌, ◌++◌, Some, None, find, not, IfOk, IfErr, OnOk, IsTrue};
ghost use Rattle.std.specs.List.{AllByRecursion};
ghost use Rattle.key_lists.specs.Keys.{is_among, without};
ghost use Rattle.row_set.specs.Sets.{IsKeySet, common};
ghost use Rattle.shift_data.specs.Moves.{IsLawful, unapplied};
ghost use Rattle.tick_laws.specs.Checked.{keys_after};
ghost use Rattle.tick_laws.specs.Replaced.{no_update};
ghost use Rattle.tick_model.specs.Changes.{is_empty};
ghost use Rattle.tick_model.specs.Rules.{landed, update_fault};
ghost use Rattle.table_update.specs.Kept.{old_modified, places_fault};

use crate::columns::ColumnSet;
use crate::search::least_absent;
use row_set::RowSet;
use shift_data::ShiftData;
use std::alloc::{AllocError, Global};
use std::marker::Model;
use tick_model::update::UpdateFault;

/// How the rows of a table change in one step. A contract sees the update that the definitions speak of.
#[derive(Drop)]
pub struct Update {
    /// The keys of the rows that go, as they were.
    pub removed: RowSet,
    /// The keys of the rows that come.
    pub added: RowSet,
    /// The keys of the rows that stay and differ, as they are after the step.
    pub modified: RowSet,
    /// Where the rows that stay move.
    pub shifted: ShiftData,
    /// The columns in which some row that stays differs.
    pub columns: ColumnSet,
}

impl Model for Update {
    ghost use Rattle.tick_model.specs.Updates.{Update};

    ghost Value = { Update };

    ghost view = { λ update. record {
      removed = update.removed;
      added = update.added;
      modified = update.modified;
      shifted = update.shifted;
      columns = update.columns;
    } };
}

impl Update {
    /// The update that changes nothing.
    pub fn none(alloc: Global) -> Update
        ensures { result ≡ no_update }
    {
        Update {
            removed: RowSet::new(alloc),
            added: RowSet::new(alloc),
            modified: RowSet::new(alloc),
            shifted: ShiftData::new(alloc),
            columns: ColumnSet::none(),
        }
    }

    /// The keys of the rows that go, as they were.
    pub fn removed(&self) -> &RowSet
        ensures keys { result.now ≡ self.now.removed }
        ensures set { IsKeySet self.now.removed }
    {
        let _ = self.removed.ranges();
        &self.removed
    }

    /// The keys of the rows that come.
    pub fn added(&self) -> &RowSet
        ensures keys { result.now ≡ self.now.added }
        ensures set { IsKeySet self.now.added }
    {
        let _ = self.added.ranges();
        &self.added
    }

    /// The keys of the rows that stay and differ, as they are after the step.
    pub fn modified(&self) -> &RowSet
        ensures keys { result.now ≡ self.now.modified }
        ensures set { IsKeySet self.now.modified }
    {
        let _ = self.modified.ranges();
        &self.modified
    }

    /// Where the rows that stay move.
    pub fn shifted(&self) -> &ShiftData
        ensures { result.now ≡ self.now.shifted }
    {
        &self.shifted
    }

    /// The columns in which some row that stays differs.
    pub fn columns(&self) -> &ColumnSet
        ensures { result.now ≡ self.now.columns }
    {
        &self.columns
    }

    /// Whether no row goes, comes, moves or is modified.
    pub fn is_empty(&self) -> bool
        ensures { result ≡ is_empty self.now }
    {
        self.removed.is_empty()
            && self.added.is_empty()
            && self.modified.is_empty()
            && self.shifted.ranges().is_empty()
    }

    /// An equal update.
    pub fn copy(&self) -> Result<Update, AllocError>
        ensures { IfOk result (λ update. update ≡ self.now) }
    {
        Ok(Update {
            removed: self.removed.copy()?,
            added: self.added.copy()?,
            modified: self.modified.copy()?,
            shifted: self.shifted.copy()?,
            columns: self.columns.copy(),
        })
    }

    /// The keys of a table, made those that it has after the update. After a refusal they are gone.
    pub fn apply_to_keys(&self, mut keys: RowSet) -> Result<RowSet, AllocError>
        requires { update_fault (2 ^ 62) keys self.now ≡ None }
        ensures { IfOk result (λ after. after ≡ keys_after keys self.now) }
    {
        let removed = self.removed();
        let added = self.added();
        let shifted = self.shifted();
        keys.remove_all(removed)?;
        let mut moved = shifted.apply_in_place(keys)?;
        moved.insert_all(added)?;
        Ok(moved)
    }

    /// The keys that a table with these keys has after the update.
    pub fn after(&self, old: &RowSet) -> Result<RowSet, AllocError>
        requires { update_fault (2 ^ 62) old.now self.now ≡ None }
        ensures { IfOk result (λ keys. keys ≡ keys_after old.now self.now) }
    {
        self.apply_to_keys(old.copy()?)
    }

    /// The old keys of the modified rows.
    pub fn modified_before(&self, old: &RowSet) -> Result<RowSet, AllocError>
        requires { update_fault (2 ^ 62) old.now self.now ≡ None }
        ensures { IfOk result (λ keys. keys ≡ old_modified old.now self.now) }
    {
        self.keys_before(old, self.modified())
    }

    /// The old keys of rows that stay, by their keys of now. Where no row moves they are the same.
    pub fn keys_before(&self, old: &RowSet, now: &RowSet) -> Result<RowSet, AllocError>
        requires lawful { IsLawful self.now.shifted (without self.now.removed old.now) }
        requires stay { AllByRecursion (λ key. IsTrue (is_among key (landed self.now.shifted (without self.now.removed old.now)))) now.now }
        ensures { IfOk result (λ before. before ≡ unapplied self.now.shifted (without self.now.removed old.now) now.now) }
    {
        if self.is_still() {
            let _ = now.ranges();
            return now.copy();
        }
        self.shifted().unapply_without(old, self.removed(), now)
    }

    /// Whether the update may be applied to a table with these keys, where the keys of the rows that move are to stay below
    /// the limit: Ok where it breaks no rule, and else the first rule that it breaks, with the least key that shows it, or
    /// want of memory.
    pub fn check(&self, old: &RowSet, limit: u64) -> Result<(), UpdateFault>
        requires { limit ≤ 2 ^ 62 }
        ensures ok { OnOk result (update_fault limit old.now self.now ≡ None) }
        ensures fault { IfErr result (λ fault. (fault ≡ UpdateFault.Memory) ⊎ (update_fault limit old.now self.now ≡ Some fault)) }
    {
        match self.fault(old, limit) {
            Ok(None) => Ok(()),
            Ok(Some(fault)) => Err(fault),
            Err(_) => Err(UpdateFault::Memory),
        }
    }

    /// The first rule that the update breaks.
    fn fault(&self, old: &RowSet, limit: u64) -> Result<Option<UpdateFault>, AllocError>
        requires { limit ≤ 2 ^ 62 }
        ensures { IfOk result (λ fault. fault ≡ update_fault limit old.now self.now) }
    {
        let removed = self.removed();
        if let Some(key) = least_absent(removed, old) {
            return Ok(Some(UpdateFault::RemovedAbsent { key }));
        }
        let shifted = self.shifted();
        if let Some(broken) = shifted.keeps_order_without(old, removed, limit) {
            return Ok(Some(UpdateFault::ShiftBreaks {
                first: broken.first,
                second: broken.second,
            }));
        }
        self.places_fault(old)
    }

    /// The first rule that the added and the modified keys break.
    fn places_fault(&self, old: &RowSet) -> Result<Option<UpdateFault>, AllocError>
        requires { IsLawful self.now.shifted (without self.now.removed old.now) }
        ensures { IfOk result (λ fault. fault ≡ places_fault (without self.now.removed old.now) self.now) }
    {
        if let Some(key) = self.least_taken(old)? {
            return Ok(Some(UpdateFault::AddedTaken { key }));
        }
        if let Some(key) = self.least_absent(old)? {
            return Ok(Some(UpdateFault::ModifiedAbsent { key }));
        }
        if let Some(key) = self.least_new()? {
            return Ok(Some(UpdateFault::ModifiedAdded { key }));
        }
        Ok(None)
    }

    /// The least added key that is that of a row that stays.
    fn least_taken(&self, old: &RowSet) -> Result<Option<u64>, AllocError>
        requires { IsLawful self.now.shifted (without self.now.removed old.now) }
        ensures { IfOk result (λ least. least ≡ find (λ key. is_among key (landed self.now.shifted (without self.now.removed old.now))) self.now.added) }
    {
        let taken = self.occupied(old, self.added())?;
        Ok(taken.first())
    }

    /// The least modified key that is neither that of a row that stays nor added.
    fn least_absent(&self, old: &RowSet) -> Result<Option<u64>, AllocError>
        requires { IsLawful self.now.shifted (without self.now.removed old.now) }
        ensures { IfOk result (λ least. least
            ≡ find (λ key. not (is_among key (landed self.now.shifted (without self.now.removed old.now) ++ self.now.added))) self.now.modified) }
    {
        let modified = self.modified();
        if self.is_still() && self.removed().is_empty() && least_absent(modified, old).is_none() {
            return Ok(None);
        }
        let present = self.occupied(old, modified)?.union(self.added())?;
        Ok(least_absent(modified, &present))
    }

    /// The least modified key that is added.
    fn least_new(&self) -> Result<Option<u64>, AllocError>
        ensures { IfOk result (λ least. least ≡ find (λ key. is_among key self.now.added) self.now.modified) }
    {
        let new = self.modified().intersect(self.added())?;
        Ok(new.first())
    }

    /// Those of the keys to which rows move that stay.
    fn occupied(&self, old: &RowSet, keys: &RowSet) -> Result<RowSet, AllocError>
        requires { IsLawful self.now.shifted (without self.now.removed old.now) }
        ensures { IfOk result (λ places. places ≡ common keys.now (landed self.now.shifted (without self.now.removed old.now))) }
    {
        if keys.is_empty() {
            return keys.copy();
        }
        let shifted = self.shifted();
        let before = shifted.unapply_without(old, self.removed(), keys)?;
        shifted.apply(&before)
    }
}
