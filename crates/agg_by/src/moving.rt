//! The groups from which a step takes rows, and whether it changes the groups of rows that stay.

ghost use Rattle.std.specs.Prelude.{◌≡◌, ◌<◌, None, IfOk};
ghost use Rattle.std.specs.List.{AllByRecursion};
ghost use Rattle.agg_by.specs.Kept.{indexed};
ghost use Rattle.agg_by.specs.Steps.{keeps_groups};
ghost use Rattle.agg_by.specs.Touched.{AreLeaving};
ghost use Rattle.row_groups.specs.Members.{groups_of};
ghost use Rattle.tick_table.specs.Exact.{IsExact};

use crate::kept::AggIndex;
use shown_rows::KeyPairs;
use std::alloc::{AllocError, Global};
use tick_table::TickTable;

/// The groups of the rows that a step takes out or changes, as they are before it.
#[derive(Drop)]
pub(crate) struct Leaving {
    /// The numbers of the groups of the removed rows, in their order.
    pub removed: Vec<usize>,
    /// The numbers of the groups of the modified rows, in their order.
    pub modified: Vec<usize>,
    /// Whether all modified rows stay in their groups.
    pub stay: bool,
}

impl Leaving {
    /// Those of the step that the input shows, where the rows before it are kept.
    pub fn of(alloc: Global, kept: &AggIndex, input: &TickTable) -> Result<Leaving, AllocError>
        requires exact { IsExact input.now }
        requires columns { AllByRecursion (λ column. column < input.now.new.width) kept.now.by }
        requires rows { groups_of kept.now.rows ≡ indexed kept.now.by None input.now.old.rows }
        ensures { IfOk result (λ leaving. AreLeaving leaving kept.now.by kept.now.rows input.now) }
    {
        let removed = kept.rows.numbers_of(alloc, input.update().removed())?;
        let (before, _) = KeyPairs::modified(input)?.into_keys();
        let changed = kept.rows.numbers_of(alloc, &before)?;
        let stay = keeps_groups(kept.by.as_slice(), input);
        Ok(Leaving {
            removed,
            modified: changed,
            stay,
        })
    }
}

/// Whether rows that stay differ in none of these columns.
fn keeps_groups(by: &[u32], input: &TickTable) -> bool
    requires { AllByRecursion (λ column. column < input.now.new.width) by.now }
    ensures { result ≡ keeps_groups by.now input.now }
{
    let _ = input.width();
    let differing = input.update().columns();
    for column in by {
        if differing.has(*column) {
            return false;
        }
    }
    true
}
