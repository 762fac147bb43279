//! Two updates of a table, one after the other, as one.

ghost use Rattle.std.specs.Prelude.{◌≡◌, [], if◌then◌else◌, IfOk};
ghost use Rattle.key_lists.specs.Keys.{IsRising, without};
ghost use Rattle.row_set.specs.Sets.{united};
ghost use Rattle.shift_data.specs.Moves.{IsLawful};
ghost use Rattle.tick_laws.specs.Checked.{keys_after};
ghost use Rattle.tick_model.specs.Changes.{is_none};
ghost use Rattle.tick_model.specs.Rules.{landed};
ghost use Rattle.tick_model.specs.Shifts.{shifted};
ghost use Rattle.table_update.specs.Coalesced.{Follow, coalesced, kept_by_both, modified_after, removed_by_both};

use crate::columns::ColumnSet;
use crate::update::Update;
use row_set::RowSet;
use shift_data::ShiftData;
use std::alloc::AllocError;

/// The most ranges of keys that are not worth the search for those that both updates keep.
const FEW_RANGES: usize = 16;

impl Update {
    /// The update that this one and then the next one make of a table with the old keys. Its modified rows are those that
    /// either of them modifies and both keep, whether or not they differ in the end.
    pub fn coalesce(self, next: &Update, old: &RowSet) -> Result<Update, AllocError>
        requires { Follow old.now self next.now }
        ensures { IfOk result (λ update. update ≡ coalesced old.now self next.now) }
    {
        if self.is_still() && next.is_still() {
            self.followed_in_place(next, old)
        } else {
            self.followed_by(next, old)
        }
    }

    /// The keys of a table, made those that it has after this update and then the next one. Where both move rows, many keys
    /// are gone over once. After a refusal they are gone.
    pub fn apply_both_to_keys(&self, next: &Update, keys: RowSet) -> Result<RowSet, AllocError>
        requires { Follow keys self.now next.now }
        ensures { IfOk result (λ after. after ≡ keys_after (keys_after keys self.now) next.now) }
    {
        if !self.is_still() && !next.is_still() && keys.ranges().len() > FEW_RANGES {
            self.apply_at_once(next, keys)
        } else {
            next.apply_to_keys(self.apply_to_keys(keys)?)
        }
    }

    /// The keys after this update and then the next one: those of the rows that both keep move by both at once.
    fn apply_at_once(&self, next: &Update, mut keys: RowSet) -> Result<RowSet, AllocError>
        requires { Follow keys self.now next.now }
        ensures { IfOk result (λ after. after ≡ keys_after (keys_after keys self.now) next.now) }
    {
        let _ = keys.ranges();
        let carried = next.places_of(self.added())?;
        let removed = self.removed_with(next, &keys)?;
        keys.remove_all(&removed)?;
        let mut places = self.shifted().apply_both_in_place(next.shifted(), keys)?;
        places.insert_all(&carried)?;
        places.insert_all(next.added())?;
        Ok(places)
    }

    /// The update that this one and then the next one make.
    fn followed_by(&self, next: &Update, old: &RowSet) -> Result<Update, AllocError>
        requires { Follow old.now self.now next.now }
        ensures { IfOk result (λ update. update ≡ coalesced old.now self.now next.now) }
    {
        let _ = old.ranges();
        let carried = next.places_of(self.added())?;
        let removed = self.removed_with(next, old)?;
        let shifted = self.shifted_with(next, old, &removed)?;
        let modified = next.modified_after(self.modified(), &carried)?;
        let columns = columns_with(self.columns(), next.columns(), &modified);
        let added = carried.union(next.added())?;
        Ok(Update {
            removed,
            added,
            modified,
            shifted,
            columns,
        })
    }

    /// The old keys of the rows that this update or the next one removes.
    fn removed_with(&self, next: &Update, old: &RowSet) -> Result<RowSet, AllocError>
        requires follow { Follow old.now self.now next.now }
        requires old { IsRising old.now }
        ensures { IfOk result (λ keys. keys ≡ removed_by_both old.now self.now next.now) }
    {
        let removed = self.removed();
        let gone = self
            .shifted()
            .unapply_without(old, removed, next.removed())?;
        removed.union(&gone)
    }

    /// Where the rows move that are not removed by either.
    fn shifted_with(
        &self,
        next: &Update,
        old: &RowSet,
        removed: &RowSet,
    ) -> Result<ShiftData, AllocError>
        requires follow { Follow old.now self.now next.now }
        requires old { IsRising old.now }
        requires added { IsRising self.now.added }
        requires removed { removed.now ≡ removed_by_both old.now self.now next.now }
        ensures { IfOk result (λ shift. shift ≡ shifted (kept_by_both old.now self.now next.now)) }
    {
        let kept = old.minus(removed)?;
        self.shifted().then(next.shifted(), &kept)
    }

    /// The keys that the update modifies, but for these others, and those to which it moves the keys that were modified
    /// before.
    fn modified_after(&self, modified: &RowSet, others: &RowSet) -> Result<RowSet, AllocError>
        requires { IsLawful self.now.shifted (without self.now.removed modified.now) }
        ensures keys { IfOk result (λ keys. keys ≡ modified_after self.now modified.now others.now) }
        ensures set { IsRising self.now.modified }
    {
        let own = self.modified();
        let kept = self.places_of(modified)?;
        let changed = own.minus(others)?;
        kept.union(&changed)
    }

    /// Where those of the keys move that the update does not remove.
    fn places_of(&self, keys: &RowSet) -> Result<RowSet, AllocError>
        requires { IsLawful self.now.shifted (without self.now.removed keys.now) }
        ensures { IfOk result (λ places. places ≡ landed self.now.shifted (without self.now.removed keys.now)) }
    {
        let kept = keys.minus(self.removed())?;
        self.shifted().apply(&kept)
    }
}

/// The columns of both sets, and none where these modified rows are none.
pub(crate) fn columns_with(first: &ColumnSet, next: &ColumnSet, modified: &RowSet) -> ColumnSet
    ensures { result ≡ (if is_none modified.now then [] else united first.now next.now) }
{
    if modified.is_empty() {
        ColumnSet::none()
    } else {
        first.union(next)
    }
}
