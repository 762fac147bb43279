//! Rows of a group, and places among them.
ghost use Rattle.std.specs.Prelude.{◌≡◌, IsSome};
ghost use Rattle.row_handles.specs.Entries.{key_with};

use crate::table::Table;
use row_handles::Handles;

/// A row of a group, by its handle, which takes half the space here.
#[derive(Clone, Copy)]
pub(crate) struct GroupRow {
    pub(crate) handle: u32,
}

/// A place in a group: behind the rows of smaller `at`, and behind those of the same `at` under smaller keys.
#[derive(Drop)]
pub(crate) struct SearchKey<'a> {
    /// The keys that the rows have now.
    pub(crate) handles: &'a Handles,
    pub(crate) table: &'a Table,
    pub(crate) at: i64,
    pub(crate) key: u64,
}

impl SearchKey<'_> {
    ghost use Rattle.row_groups.specs.Slots.{is_before};

    /// Whether the row stands before the place.
    pub(crate) fn is_after(&self, slot: GroupRow) -> bool
        requires { IsSome (key_with slot.handle self.now.handles.now) }
        ensures { result ≡ is_before self.now.handles.now self.now.table.now self.now.at self.now.key slot }
    {
        let handle = slot.handle as usize;
        let at = self.table.at(handle);
        at < self.at || at == self.at && self.handles.key_of(handle) < self.key
    }
}
