//! What changes a table: an update, with the new rows that it tells.

ghost use Rattle.std.specs.Prelude.{◌≡◌, IfOk};

use std::alloc::{AllocError, Global};
use std::marker::Model;
use table_update::Update;
use tick_model::items::Items;

/// An update with the cells of whole rows: those of the added rows by rising keys, and then those of the modified rows by
/// rising keys. A contract sees the change that the definitions speak of.
#[derive(Drop)]
pub struct Change {
    /// Which rows go, come, move and differ.
    pub update: Update,
    /// The rows that it tells, one after the other.
    pub cells: Items<i64>,
}

impl Model for Change {
    ghost use Rattle.tick_model.specs.Changes.{Change};

    ghost Value = { Change };

    ghost view = { λ change. record { update = change.update; cells = change.cells } };
}

impl Change {
    /// An equal change.
    pub fn copy(&self, alloc: Global) -> Result<Change, AllocError>
        ensures { IfOk result (λ copy. copy ≡ self.now) }
    {
        Ok(Change {
            update: self.update.copy()?,
            cells: Items::of(self.cells.as_slice().to_vec(alloc)?),
        })
    }
}
