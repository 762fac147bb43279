//! A source after the blocks of a step, whose rows are read.

ghost use Rattle.std.specs.Prelude.{◌≡◌, ◌+◌, ◌^◌, ◌<◌, ◌≤◌, option_map, IfOk};
ghost use Rattle.key_lists.specs.Keys.{without};
ghost use Rattle.shift_data.specs.Moves.{IsLawful};
ghost use Rattle.source_changes.specs.Reads.{step_reads};
ghost use Rattle.source_changes.specs.Stepping.{IsStepping, key_before as key_of_before, ticked, touched_by};
ghost use Rattle.tick_model.specs.Changes.{change_of};
ghost use Rattle.tick_model.specs.Tables.{keys as table_keys, row_at};

use crate::told::ToldRows;
use row_changes::{Touched, change_of_touched};
use row_set::RowSet;
use std::alloc::{AllocError, Global};
use std::marker::Model;
use std::sync::ledger::Ledger;
use table_update::Update;
use tick_table::{Change, Steps, TickTable};

/// What the blocks of a step have changed of a source. A contract sees the table before the step, the update of all blocks,
/// and the rows that they told.
#[derive(Drop)]
pub(crate) struct SourceStep<'t, 'b> {
    table: &'t TickTable,
    update: Update,
    told: ToldRows<'b>,
}

impl<'t, 'b> Model for SourceStep<'t, 'b> {
    ghost use Rattle.source_changes.specs.Stepping.{Stepping};

    ghost Value = { Stepping };

    ghost view = { λ step. record { old = step.table.now.new; update = step.update; told = step.told } };
}

impl<'t, 'b> SourceStep<'t, 'b> {
    /// A source after the blocks of a step, with the update that they make of its table and the rows that they told.
    pub(crate) fn new(
        table: &'t TickTable,
        update: Update,
        told: ToldRows<'b>,
    ) -> SourceStep<'t, 'b>
        ensures old { result.old ≡ table.now.new }
        ensures update { result.update ≡ update }
        ensures told { result.told ≡ told.entry }
    {
        SourceStep {
            table,
            update,
            told,
        }
    }

    /// The table, as it was before the step.
    pub(crate) fn table(&self) -> &TickTable
        ensures { result.now.new ≡ self.now.old }
    {
        self.table
    }

    /// The told cells of the row under a key.
    pub(crate) fn told_at(&self, key: u64) -> Option<&'b [i64]>
        ensures { option_map (λ cells. cells.now) result ≡ option_map (λ row. row.cells) (row_at key self.now.told) }
    {
        self.told.get(key)
    }

    /// The key before the step of the row under a key, if it stays.
    pub(crate) fn key_before(&self, alloc: Global, key: u64) -> Result<Option<u64>, AllocError>
        requires small { key < 2 ^ 62 }
        requires lawful { IsLawful self.now.update.shifted (without self.now.update.removed (table_keys self.now.old.rows)) }
        ensures { IfOk result (λ before. before ≡ key_of_before self.now key) }
    {
        let mut here = RowSet::new(alloc);
        here.insert_range(key, key)?;
        let rows = self.table.rows();
        let removed = self.update.removed();
        let shifted = self.update.shifted();
        let before = shifted.unapply_without(rows, removed, &here)?;
        Ok(before.first())
    }

    /// The change of the source.
    pub(crate) fn change<L: Ledger>(
        &self,
        alloc: Global,
        reads: &mut Steps<L>,
    ) -> Result<Change, AllocError>
        requires { IsStepping self.now }
        ensures change { IfOk result (λ change. change ≡ change_of (ticked self.now)) }
        ensures reads { reads.new ≤ reads.old + step_reads self.now }
    {
        let width = self.table.width();
        let touched = self.touched()?;
        let change = change_of_touched(alloc, self, width, touched, reads)?;
        Ok(change)
    }

    /// The rows that the blocks have touched.
    fn touched(&self) -> Result<Touched, AllocError>
        requires { IsStepping self.now }
        ensures { IfOk result (λ touched. touched ≡ touched_by self.now) }
    {
        let update = &self.update;
        let removed = update.removed().copy()?;
        let added = update.added().copy()?;
        let shifted = update.shifted().copy()?;
        let compared_before = update.modified_before(self.table.rows())?;
        let compared_now = update.modified().copy()?;
        Ok(Touched {
            removed,
            added,
            shifted,
            compared_before,
            compared_now,
        })
    }
}
