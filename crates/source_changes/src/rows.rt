//! The rows of a source, before the step and as the blocks of the step have left them.

ghost use Rattle.std.specs.Prelude.{◌≡◌, ◌+◌, ◌≤◌, ◌++◌, OnOk};
ghost use Rattle.source_changes.specs.Ready.{IsReady};
ghost use Rattle.source_changes.specs.Stepping.{step_in};

use crate::steps::SourceStep;
use row_changes::Rows;
use std::alloc::AllocError;
use std::sync::ledger::Ledger;
use tick_table::{Steps, Version};

impl<L: Ledger> Rows<L> for SourceStep<'_, '_> {
    ghost table = { λ step version. step_in version step };

    ghost row_reads = { λ step. step.old.width };

    ghost ready = { IsReady };

    /// A row of now that no block has told is the one from before the step.
    fn row(
        &self,
        version: Version,
        key: u64,
        cells: &mut Vec<i64>,
        reads: &mut Steps<L>,
    ) -> Result<(), AllocError> {
        match version {
            Version::Before => self.table().row(Version::Now, key, cells, reads),
            Version::Now => {
                if let Some(told) = self.told_at(key) {
                    cells.extend_from_slice(told)?;
                    return Ok(());
                }
                match self.key_before(*cells.allocator(), key)? {
                    Some(before) => self.table().row(Version::Now, before, cells, reads),
                    None => Ok(()),
                }
            }
        }
    }
}
