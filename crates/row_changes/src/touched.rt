//! Which rows a step touches.

use row_set::RowSet;
use shift_data::ShiftData;
use std::marker::Model;

/// The rows that an operator's step touches. A contract sees the parts as lists.
#[derive(Drop)]
pub struct Touched {
    /// The old keys of the rows that go.
    pub removed: RowSet,
    /// The new keys of the rows that come.
    pub added: RowSet,
    /// Where the rows that stay move: the longest ranges, each by one difference that is not 0.
    pub shifted: ShiftData,
    /// The old keys of the rows that stay and may differ.
    pub compared_before: RowSet,
    /// The new keys of these rows, place by place.
    pub compared_now: RowSet,
}

impl Model for Touched {
    ghost use Rattle.row_changes.specs.Parts.{Parts};

    ghost Value = { Parts };

    ghost view = { λ touched. record {
      removed = touched.removed;
      added = touched.added;
      shifted = touched.shifted;
      compared_before = touched.compared_before;
      compared_now = touched.compared_now;
    } };
}
