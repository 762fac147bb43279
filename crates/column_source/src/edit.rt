//! What a step does to the cells.
ghost use Rattle.std.specs.Prelude.{◌≡◌, IfOk};

use row_set::RowSet;
use shift_data::ShiftData;
use std::alloc::AllocError;

/// A change of the cells.
pub(crate) enum Edit {
    /// Puts a cell under a key.
    Set { key: u64, cell: i64 },
    /// Takes the rows under these keys out.
    DropKeys(RowSet),
    /// Moves the rows.
    Shift(ShiftData),
}

impl Drop for Edit {
    fn drop(self) {
        match self {
            Self::Set { key: _, cell: _ } => {}
            Self::DropKeys(_) => {}
            Self::Shift(_) => {}
        }
    }
}

impl Edit {
    /// An equal edit.
    pub(crate) fn copy(&self) -> Result<Edit, AllocError>
        ensures { IfOk result (λ copy. copy ≡ self.now) }
    {
        Ok(match self {
            Edit::Set { key, cell } => Edit::Set {
                key: *key,
                cell: *cell,
            },
            Edit::DropKeys(keys) => Edit::DropKeys(keys.copy()?),
            Edit::Shift(shifts) => Edit::Shift(shifts.copy()?),
        })
    }
}
