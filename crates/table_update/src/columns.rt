//! The columns in which rows differ.

ghost use Rattle.std.specs.Prelude.{◌≡◌, ◌<◌, []};
ghost use Rattle.key_lists.specs.Keys.{is_among};
ghost use Rattle.row_set.specs.Sets.{with_key, united};
ghost use Rattle.tick_model.specs.Changes.{is_none};

use std::marker::Model;

/// A set of columns with numbers below 32, one bit for each. A contract sees the rising list of their numbers.
#[derive(Drop)]
pub struct ColumnSet {
    bits: u32,
}

impl Model for ColumnSet {
    ghost use Rattle.std.specs.Prelude.{List, ℕ};
    ghost use Rattle.table_update.specs.Columns.{columns_of};

    ghost Value = { List ℕ };

    ghost view = { λ set. columns_of set.bits };
}

impl ColumnSet {
    /// No column.
    pub fn none() -> ColumnSet
        ensures { result ≡ [] }
    {
        ColumnSet { bits: 0 }
    }

    /// These columns and one more.
    pub fn with(self, column: u32) -> ColumnSet
        requires { column < 32 }
        ensures { result ≡ with_key column self }
    {
        ColumnSet {
            bits: self.bits | (1 << column),
        }
    }

    /// Whether the column is one of them.
    pub fn has(&self, column: u32) -> bool
        requires { column < 32 }
        ensures { result ≡ is_among column self.now }
    {
        self.bits >> column & 1 == 1
    }

    /// Whether there is none.
    pub fn is_empty(&self) -> bool
        ensures { result ≡ is_none self.now }
    {
        self.bits == 0
    }

    /// The columns of both sets.
    pub fn union(&self, other: &ColumnSet) -> ColumnSet
        ensures { result ≡ united self.now other.now }
    {
        ColumnSet {
            bits: self.bits | other.bits,
        }
    }

    /// The same columns.
    pub fn copy(&self) -> ColumnSet
        ensures { result ≡ self.now }
    {
        ColumnSet { bits: self.bits }
    }
}
