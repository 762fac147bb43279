//! The rows of a merge, by the input that each of them is from.

use crate::starts::room_in;
use row_changes::Rows;
use std::alloc::AllocError;
use std::sync::ledger::Ledger;
use tick_table::{Shared, Steps, Version};

/// The rows of the inputs, each input in its region. There are few inputs, so a row's is found by going through them.
#[derive(Drop)]
pub(crate) struct MergedRows<'a> {
    pub(crate) inputs: &'a [Shared],
    pub(crate) width: u32,
}

impl<L: Ledger> Rows<L> for MergedRows<'_> {
    ghost use Rattle.std.specs.Prelude.{◌≡◌, ◌+◌, ◌≤◌, ◌++◌, OnOk};
    ghost use Rattle.std.specs.List.{AllByRecursion};
    ghost use Rattle.table_operator.specs.Inputs.{tables};
    ghost use Rattle.merge_op.specs.Merged.{merged, merged_in};
    ghost use Rattle.tick_model.specs.Updates.{IsTick};
    ghost use Rattle.tick_table.specs.Exact.{IsExact};

    ghost table = { λ rows version. merged_in version (tables rows.inputs.now) };

    ghost row_reads = { λ rows. rows.width };

    ghost ready = { λ rows. IsTick (merged (tables rows.inputs.now)) × AllByRecursion IsExact (tables rows.inputs.now) × AllByRecursion (λ table. table.new.width ≡ rows.width) (tables rows.inputs.now) };

    fn row(
        &self,
        version: Version,
        key: u64,
        cells: &mut Vec<i64>,
        reads: &mut Steps<L>,
    ) -> Result<(), AllocError> {
        let mut start = 0;
        for input in self.inputs {
            let end = start + room_in(version, input);
            if key < end {
                return input.row(version, key - start, cells, reads);
            }
            start = end;
        }
        Ok(())
    }
}
