//! The copy that a subscription's messages keep.

ghost use Rattle.std.specs.Prelude.{◌≡◌, ◌^◌, ◌≤◌, ◌⊎◌, None, Some, IfErr, IfOk, OnOk};
ghost use Rattle.tick_model.specs.Changes.{change_of, changed};
ghost use Rattle.tick_model.specs.Rules.{update_fault};
ghost use Rattle.tick_model.specs.Tables.{keys};
ghost use Rattle.tick_model.specs.Updates.{IsTick, Tick};
ghost use Rattle.tick_table.specs.Exact.{ticking};
ghost use Rattle.tick_table.specs.Ticking.{fresh};
ghost use Rattle.viewport.specs.Mirrored.{count_fault, mirror_fault};

use std::alloc::{AllocError, Global};
use std::marker::Model;
use table_update::UpdateFault;
use tick_model::limits::KEY_SPACE;
use tick_table::{Change, TickTable};

/// Why a mirror cannot take a change.
#[derive(Clone, Copy, Debug, PartialEq, Eq)]
pub enum MirrorFault {
    /// Out of memory.
    Memory,
    /// The update breaks a rule on the mirror's rows; never `UpdateFault::Memory`.
    Update(UpdateFault),
    /// The cells are not those of whole rows, one for each added and each modified row.
    CellCount { cells: u64, wanted: u128 },
}

impl From<AllocError> for MirrorFault {
    ghost use Rattle.std.specs.Prelude.{◌≡◌};
    ghost use Rattle.viewport.specs.declared.mirror.MirrorFault.TheVariants.{Memory};

    ghost from_gives = { λ _ fault. fault ≡ Memory };

    fn from(_error: AllocError) -> MirrorFault {
        MirrorFault::Memory
    }
}

impl From<UpdateFault> for MirrorFault {
    ghost use Rattle.std.specs.Prelude.{◌≡◌};
    ghost use Rattle.viewport.specs.Mirrored.{fault_of};

    ghost from_gives = { λ fault told. told ≡ fault_of fault };

    fn from(fault: UpdateFault) -> MirrorFault {
        match fault {
            UpdateFault::Memory => MirrorFault::Memory,
            _ => MirrorFault::Update(fault),
        }
    }
}

/// A table that is made by changes alone. A contract sees it as its table.
#[derive(Drop)]
pub struct Mirror {
    table: TickTable,
}

// Written out, so that a crate which lets a mirror go does not prove anew how its table is let go.
impl Model for Mirror {
    ghost use Rattle.tick_table.specs.Ticking.{Ticking};

    ghost Value = { Ticking };

    ghost view = { λ mirror. mirror.table };
}

impl Mirror {
    /// A mirror of this width without rows.
    pub fn new(alloc: Global, width: u32) -> Result<Mirror, AllocError>
        requires some { 1 ≤ width }
        requires few { width ≤ 32 }
        ensures { IfOk result (λ mirror. mirror ≡ fresh width) }
    {
        Ok(Mirror {
            table: TickTable::new(alloc, width)?,
        })
    }

    /// The table that the changes have made.
    pub fn table(&self) -> &TickTable
        ensures { result.now ≡ self.now }
    {
        &self.table
    }

    /// The mirror after a change. It takes every change that breaks no rule on its rows and tells whole rows, memory aside;
    /// after a refusal it is given up. The change of a tick from its rows makes those of the tick's new table.
    pub fn apply(self, change: Change) -> Result<Mirror, MirrorFault>
        ensures ok { OnOk result (mirror_fault self.new change ≡ None) }
        ensures fault { IfErr result (λ fault. (fault ≡ MirrorFault.Memory) ⊎ (mirror_fault self.new change ≡ Some fault)) }
        ensures old { IfOk result (λ mirror. mirror.old ≡ self.new) }
        ensures new { IfOk result (λ mirror. mirror.new ≡ changed self.new change) }
        ensures update { IfOk result (λ mirror. mirror.update ≡ change.update) }
        ensures exact { IfOk result (λ mirror. (tick : Tick) → IsTick tick → self.new ≡ tick.old → change ≡ change_of tick → mirror ≡ ticking tick) }
    {
        let Mirror { table } = self;
        check(&table, &change)?;
        let table = table.apply(change)?;
        Ok(Mirror { table })
    }
}

/// Whether a change may be applied to a table.
fn check(table: &TickTable, change: &Change) -> Result<(), MirrorFault>
    ensures ok { OnOk result (mirror_fault table.now.new change.now ≡ None) }
    ensures fault { IfErr result (λ fault. (fault ≡ MirrorFault.Memory) ⊎ (mirror_fault table.now.new change.now ≡ Some fault)) }
    ensures lawful { OnOk result (update_fault (2 ^ 62) (keys table.now.new.rows) change.now.update ≡ None) }
    ensures whole { OnOk result (count_fault table.now.new.width change.now ≡ None) }
{
    change.update.check(table.rows(), KEY_SPACE)?;
    match count_fault(table.width(), change) {
        None => Ok(()),
        Some(fault) => Err(fault),
    }
}

/// Whether the cells of a change are those of whole rows: then None.
fn count_fault(width: u32, change: &Change) -> Option<MirrorFault>
    requires { width ≤ 32 }
    ensures { result ≡ count_fault width change.now }
{
    let update = &change.update;
    let rows = update.added().len() as u128 + update.modified().len() as u128;
    let wanted = rows * width as u128;
    let cells = change.cells.len() as u64;
    if cells as u128 == wanted {
        None
    } else {
        Some(MirrorFault::CellCount { cells, wanted })
    }
}
