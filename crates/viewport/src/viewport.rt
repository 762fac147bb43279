//! The viewport itself: what it keeps between two messages, and what it tells.

ghost use Rattle.std.specs.Prelude.{◌≡◌, ◌+◌, ◌*◌, ◌≤◌, List, IfOk, length};
ghost use Rattle.row_changes.specs.Parts.{AreParts, tick_along};
ghost use Rattle.tick_model.specs.declared.update.KeyPair.{KeyPair};
ghost use Rattle.tick_model.specs.Changes.{change_of};
ghost use Rattle.tick_model.specs.Sources.{opened};
ghost use Rattle.tick_table.specs.Exact.{IsExact, tick_of};
ghost use Rattle.viewport.specs.Slices.{IsSlice, cut};
ghost use Rattle.viewport.specs.Standing.{IsStanding};
ghost use Rattle.viewport.specs.Watching.{message_tick, passed, started};

use crate::rows::SliceRows;
use crate::slice::Slice;
use crate::touched::{step_of_kept, touched_rows};
use row_changes::{Touched, change_of_touched};
use std::alloc::{AllocError, Global};
use std::marker::Model;
use std::snapshot::Snapshot;
use std::sync::ledger::Ledger;
use table_update::Update;
use tick_model::items::Items;
use tick_table::{Change, Steps, TickTable};

/// A subscription to a slice of a table. It stands for the rows of the table that it saw last, and tells how the slice changed
/// since its last message.
#[derive(Drop)]
pub struct Viewport {
    alloc: Global,
    slice: Slice,
    /// The table that it saw last. It takes no bytes.
    seen: Snapshot<TickTable>,
    /// The rows that the last message left.
    last: TickTable,
    /// Which of these the table has removed since, and where the others moved.
    kept: Update,
}

// Written out, so that a crate which lets a viewport go does not prove anew how each part of it is let go.
impl Model for Viewport {
    ghost use Rattle.table_update.specs.Coalesced.{key_pairs};
    ghost use Rattle.tick_model.specs.Tables.{keys};
    ghost use Rattle.viewport.specs.Standing.{IsStanding};
    ghost use Rattle.viewport.specs.Watching.{Watching};

    ghost Value = { Watching };

    ghost view = { λ viewport. record {
      slice = viewport.slice;
      last = viewport.last.new;
      table = viewport.seen.value.new;
      kept = key_pairs (keys viewport.last.new.rows) viewport.kept;
    } };

    ghost invariant = { λ viewport. IsStanding viewport.slice viewport.last.new viewport.seen.value.new viewport.kept };
}

impl Viewport {
    /// A subscription that begins with the rows of a table, and its first message, to which all rows of the slice come.
    pub fn start<L: Ledger>(
        alloc: Global,
        slice: Slice,
        table: &TickTable,
        reads: &mut Steps<L>,
    ) -> Result<(Viewport, Change), AllocError>
        requires { IsSlice table.now.new.width slice }
        ensures stands { IfOk result (λ out. out.0 ≡ started slice table.now.new) }
        ensures message { IfOk result (λ out. out.1 ≡ change_of (opened (cut slice table.now.new))) }
        ensures reads { reads.new ≤ reads.old + length slice.columns * (2 * length (cut slice table.now.new).rows) }
    {
        let _rows = table.rows();
        let last = TickTable::new(alloc, width_of(&slice, table))?;
        let viewport = Viewport {
            alloc,
            slice,
            seen: Snapshot::of(table),
            last,
            kept: Update::none(alloc),
        };
        viewport.message(table, reads)
    }

    /// The subscription after a step of the table, which must stand for the rows before it. After a refusal it is given up.
    pub fn pass(self, table: &TickTable) -> Result<Viewport, AllocError>
        requires exact { IsExact table.now }
        requires stands { self.table ≡ table.now.old }
        ensures { IfOk result (λ viewport. viewport ≡ passed self (tick_of table.now)) }
    {
        let Viewport {
            alloc,
            slice,
            seen: _,
            last,
            kept,
        } = self;
        let step = step_of_kept(alloc, last.rows(), &kept, table.update())?;
        let kept = kept.coalesce(&step, last.rows())?;
        Ok(Viewport {
            alloc,
            slice,
            seen: Snapshot::of(table),
            last,
            kept,
        })
    }

    /// The subscription after a message, and the message: how the slice changed since the last one. It must stand for the rows
    /// of the table. Only rows of the slice are read, each at most twice, whether the message succeeds or not. After a refusal
    /// the subscription is given up.
    pub fn message<L: Ledger>(
        self,
        table: &TickTable,
        reads: &mut Steps<L>,
    ) -> Result<(Viewport, Change), AllocError>
        requires { self.table ≡ table.now.new }
        ensures stands { IfOk result (λ out. out.0 ≡ started self.slice table.now.new) }
        ensures change { IfOk result (λ out. out.1 ≡ change_of (message_tick self)) }
        ensures reads { reads.new ≤ reads.old + length self.slice.columns * (2 * length (cut self.slice table.now.new).rows) }
    {
        let Viewport {
            alloc,
            slice,
            seen: _,
            last,
            kept,
        } = self;
        let _rows = table.rows();
        let touched = touched_rows(alloc, &slice, &last, &kept, table)?;
        let change = changed(alloc, &slice, &last, table, touched, reads)?;
        let told = change.copy(alloc)?;
        let last = last.apply(told)?;
        let viewport = Viewport {
            alloc,
            slice,
            seen: Snapshot::of(table),
            last,
            kept: Update::none(alloc),
        };
        Ok((viewport, change))
    }
}

/// How many columns a slice of the table has.
#[tactic(auto, using(crate::proofs::SliceTables::column_count))]
fn width_of(slice: &Slice, table: &TickTable) -> u32
    requires { IsSlice table.now.new.width slice.now }
    ensures width { result ≡ length slice.now.columns }
    ensures some { 1 ≤ result }
    ensures few { result ≤ 32 }
{
    let _width = table.width();
    slice.columns.len() as u32
}

/// The change from the rows that the last message left to the slice of the table.
fn changed<L: Ledger>(
    alloc: Global,
    slice: &Slice,
    last: &TickTable,
    table: &TickTable,
    touched: Touched,
    reads: &mut Steps<L>,
) -> Result<Change, AllocError>
    requires asked { IsSlice table.now.new.width slice.now }
    requires parts { (kept : List KeyPair) × AreParts last.now.new (cut slice.now table.now.new) touched kept }
    ensures change { IfOk result (λ change. (kept : List KeyPair) → AreParts last.now.new (cut slice.now table.now.new) touched kept
        → change ≡ change_of (tick_along last.now.new (cut slice.now table.now.new) kept)) }
    ensures reads { reads.new ≤ reads.old + length slice.now.columns * (2 * length (cut slice.now table.now.new).rows) }
{
    let rows = SliceRows { last, table, slice };
    change_of_touched(alloc, &rows, last.width(), touched, reads)
}
