//! The rows of a step that cross the edge of what is shown.

use row_set::RowSet;

/// The old keys of the rows that are shown no more, and the new keys of those that were not shown before.
#[derive(Drop)]
pub struct Crossing {
    pub leaving: RowSet,
    pub coming: RowSet,
}
