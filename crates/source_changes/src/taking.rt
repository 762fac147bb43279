//! A source that takes the blocks of a step.

ghost use Rattle.std.specs.Prelude.{◌≡◌, ◌+◌, ◌*◌, ◌^◌, ◌<◌, ◌≤◌, None, IfErr, IfOk, OnOk};
ghost use Rattle.std.specs.List.{AllByRecursion};
ghost use Rattle.source_changes.specs.Blocks.{IsReadable};
ghost use Rattle.source_changes.specs.Faults.{IsFault, IsKeysBelow, keys_fault, record_fault};
ghost use Rattle.source_changes.specs.Reads.{read_rows, step_reads};
ghost use Rattle.source_changes.specs.Stepping.{ticked};
ghost use Rattle.source_changes.specs.Taking.{IsTaking, taking};
ghost use Rattle.source_changes.specs.Waiting.{MayFollow, Waits, keys_with};
ghost use Rattle.tick_model.specs.Changes.{change_of};
ghost use Rattle.tick_model.specs.Sources.{block_fault, carry_on, unchanged, update_of as update_said, IsBlock};
ghost use Rattle.tick_model.specs.Tables.{keys as table_keys};

use crate::blocks::update_of;
use crate::faults::{BatchFault, KeyFault};
use crate::gathering::PendingUpdate;
use crate::records::record_of;
use crate::steps::SourceStep;
use crate::told::ToldRows;
use row_set::RowSet;
use std::alloc::{AllocError, Global};
use std::sync::ledger::Ledger;
use table_update::Update;
use tick_model::feed::Block;
use tick_table::{Change, Steps, TickTable};

/// What the blocks of a step have changed of a source so far: of its table before the step, and the rows that they told.
#[derive(Drop)]
pub(crate) struct TakenBlocks<'t, 'b> {
    table: &'t TickTable,
    gathered: PendingUpdate,
    told: ToldRows<'b>,
}

/// What the blocks of a step have changed of a source, and its keys then.
#[derive(Drop)]
pub(crate) struct ClosedSource {
    pub(crate) change: Change,
    pub(crate) keys: RowSet,
}

impl<'t, 'b> TakenBlocks<'t, 'b> {
    /// A source that no block has changed, with its keys.
    pub(crate) fn new(alloc: Global, table: &'t TickTable, keys: RowSet) -> TakenBlocks<'t, 'b>
        requires { keys ≡ table_keys table.now.new.rows }
        ensures taking { IsTaking result }
        ensures tick { ticked (taking result) ≡ unchanged table.now.new }
        ensures reads { step_reads (taking result) ≡ 0 }
    {
        let _rows = table.rows();
        TakenBlocks {
            table,
            gathered: PendingUpdate::new(alloc, keys),
            told: ToldRows::new(alloc),
        }
    }

    /// Takes the next block of the source. After a refusal the source is to be given up.
    pub(crate) fn take(&mut self, alloc: Global, block: &'b Block) -> Result<(), BatchFault>
        requires taking { IsTaking self.old }
        requires below { AllByRecursion (λ key. key < 2 ^ 40) (table_keys (ticked (taking self.old)).new.rows) }
        requires readable { IsReadable block.now }
        requires whole { IsBlock (taking self.old).old.width block.now }
        ensures lawful { OnOk result (block_fault (ticked (taking self.old)).new block.now ≡ None) }
        ensures taking { OnOk result (IsTaking self.new) }
        ensures tick { OnOk result (ticked (taking self.new) ≡ carry_on (ticked (taking self.old)) block.now) }
        ensures reads { OnOk result (step_reads (taking self.new) ≤ step_reads (taking self.old) + (taking self.old).old.width * read_rows (update_said block.now)) }
        ensures cause { IfErr result (IsFault (record_fault block.now (block_fault (ticked (taking self.old)).new block.now))) }
    {
        let next = update_of(alloc, block)?;
        let old = self.table.rows();
        self.gathered.make_way(alloc, old, &next)?;
        match check(&self.gathered, &next, block) {
            Ok(()) => {}
            Err(fault) => return Err(fault),
        }
        self.told.tell(alloc, &next, block)?;
        self.gathered.put(alloc, old, next)?;
        Ok(())
    }

    /// The change that the blocks make of the source, and its keys then.
    pub(crate) fn close<L: Ledger>(
        mut self,
        alloc: Global,
        reads: &mut Steps<L>,
    ) -> Result<ClosedSource, AllocError>
        requires { IsTaking self }
        ensures change { IfOk result (λ closed. closed.change ≡ change_of (ticked (taking self.entry))) }
        ensures keys { IfOk result (λ closed. closed.keys ≡ table_keys (ticked (taking self.entry)).new.rows) }
        ensures reads { reads.new ≤ reads.old + step_reads (taking self.entry) }
    {
        let old = self.table.rows();
        self.gathered.settle(alloc, old)?;
        let TakenBlocks {
            table,
            gathered,
            told,
        } = self;
        let PendingUpdate {
            keys,
            update,
            waiting: _,
        } = gathered;
        let step = SourceStep::new(table, update, told);
        let change = step.change(alloc, reads)?;
        Ok(ClosedSource { change, keys })
    }
}

/// Checks the update of the next block on the keys of now.
fn check(gathered: &PendingUpdate, next: &Update, block: &Block) -> Result<(), BatchFault>
    requires update { next.now ≡ update_said block.now }
    requires readable { IsReadable block.now }
    requires waits { Waits gathered.now.keys gathered.now.waiting }
    requires way { MayFollow gathered.now.waiting next.now }
    requires below { IsKeysBelow (2 ^ 40) (keys_with gathered.now.keys gathered.now.waiting) }
    ensures lawful { OnOk result (keys_fault (keys_with gathered.now.keys gathered.now.waiting) next.now ≡ None) }
    ensures cause { IfErr result (IsFault (record_fault block.now (keys_fault (keys_with gathered.now.keys gathered.now.waiting) next.now))) }
{
    match gathered.check(next) {
        Ok(()) => Ok(()),
        Err(KeyFault::Memory) => Err(BatchFault::Memory),
        Err(KeyFault::Broken(rule)) => Err(BatchFault::Rule {
            number: record_of(block, rule),
            rule,
        }),
    }
}
