//! Two updates that move no rows, one after the other, as one: the sets of the first one are edited in place.

ghost use Rattle.std.specs.Prelude.{◌≡◌, [], IfOk};
ghost use Rattle.key_lists.specs.Keys.{IsRising, without};
ghost use Rattle.row_set.specs.Sets.{united};
ghost use Rattle.tick_model.specs.Changes.{is_none};
ghost use Rattle.table_update.specs.Coalesced.{Follow, coalesced};

use crate::coalesce::columns_with;
use crate::update::Update;
use row_set::RowSet;
use std::alloc::AllocError;

impl Update {
    /// Whether no row moves that stays.
    pub(crate) fn is_still(&self) -> bool
        ensures { result ≡ is_none self.now.shifted }
    {
        self.shifted().ranges().is_empty()
    }

    /// The update that this one and then the next one make, where neither moves rows. However many keys this one has, only
    /// those of the next one are searched for among them.
    pub(crate) fn followed_in_place(self, next: &Update, old: &RowSet) -> Result<Update, AllocError>
        requires follow { Follow old.now self next.now }
        requires still { self.shifted ≡ [] }
        requires next_still { next.now.shifted ≡ [] }
        ensures { IfOk result (λ update. update ≡ coalesced old.now self next.now) }
    {
        let _ = old.ranges();
        let Update {
            removed,
            added,
            modified,
            shifted,
            columns,
        } = self;
        let gone = next.removed().minus(&added)?;
        let removed = with_keys(removed, &gone)?;
        let carried = without_keys(added, next.removed())?;
        let changed = next.modified().minus(&carried)?;
        let kept = without_keys(modified, next.removed())?;
        let modified = with_keys(kept, &changed)?;
        let added = with_keys(carried, next.added())?;
        let columns = columns_with(&columns, next.columns(), &modified);
        Ok(Update {
            removed,
            added,
            modified,
            shifted,
            columns,
        })
    }
}

/// The keys with some more put in among them, best a few.
fn with_keys(mut keys: RowSet, more: &RowSet) -> Result<RowSet, AllocError>
    ensures keys { IfOk result (λ all. all ≡ united more.now keys) }
    ensures set { IsRising keys }
{
    let _ = keys.ranges();
    keys.insert_all(more)?;
    Ok(keys)
}

/// The keys with some taken out, best a few.
fn without_keys(mut keys: RowSet, others: &RowSet) -> Result<RowSet, AllocError>
    ensures keys { IfOk result (λ left. left ≡ without others.now keys) }
    ensures set { IsRising keys }
{
    let _ = keys.ranges();
    keys.remove_all(others)?;
    Ok(keys)
}
