//! The keys of the sources, and the changes that a batch makes of them.

ghost use Rattle.std.specs.Prelude.{◌≡◌, ℕ, ◌+◌, ◌<◌, ◌≤◌, None, [], length, map, sum_by, IfErr, IfOk, OnErr, OnOk};
ghost use Rattle.std.specs.List.{AllByRecursion};
ghost use Rattle.source_changes.specs.Faults.{IsFault};
ghost use Rattle.source_changes.specs.Openings.{IsOpenedTable};
ghost use Rattle.source_changes.specs.Reads.{block_reads, step_reads};
ghost use Rattle.source_changes.specs.Stepping.{ticked};
ghost use Rattle.source_changes.specs.Taking.{IsTaking, taking};
ghost use Rattle.tick_laws.specs.Bounded.{AreSourceTables};
ghost use Rattle.tick_model.specs.Changes.{change_of};
ghost use Rattle.tick_model.specs.Evaluation.{source_number};
ghost use Rattle.tick_model.specs.LawfulRuns.{IsLawfulBlock, sources_of};
ghost use Rattle.tick_model.specs.Sources.{after_blocks, blocks_fault, unchanged};
ghost use Rattle.tick_model.specs.Tables.{keys};

use crate::faults::BatchFault;
use crate::opening::first_keys;
use crate::taking::{ClosedSource, TakenBlocks};
use row_set::RowSet;
use std::alloc::{AllocError, Global};
use std::marker::Model;
use std::mem;
use std::sync::ledger::Ledger;
use tick_model::feed::{Batch, Block};
use tick_model::items::Items;
use tick_model::plan::{Node, Plan};
use tick_model::row_list::OpeningTable;
use tick_model::sources::is_source;
use tick_table::{Change, Steps, TickTable};

/// The keys of every source, in order of the sources. A contract sees a list of lists of keys.
#[derive(Drop)]
pub struct SourceKeys {
    sets: Vec<RowSet>,
}

impl Model for SourceKeys {
    ghost use Rattle.std.specs.Prelude.{List, ℕ};

    ghost Value = { List (List ℕ) };

    ghost view = { λ sources. sources.sets.items };
}

/// Where a source stands among the sources.
fn place_of(nodes: &[Node], node: u32) -> usize
    requires { node < length nodes.now }
    ensures { result ≡ source_number nodes.now node }
{
    let before = &nodes[..node as usize];
    before.iter().filter(|node| is_source(node)).count()
}

/// The sources before the first block of a step, whose keys these are.
fn unchanged_steps<'t, 'b>(
    alloc: Global,
    tables: &[&'t TickTable],
    sets: Vec<RowSet>,
) -> Result<Vec<TakenBlocks<'t, 'b>>, AllocError>
    requires { sets.items ≡ map (λ table. keys table.now.new.rows) tables.now }
    ensures taking { IfOk result (λ steps. AllByRecursion IsTaking steps.items) }
    ensures ticks { IfOk result (λ steps. map (λ step. ticked (taking step)) steps.items ≡ map (λ table. unchanged table.now.new) tables.now) }
    ensures reads { IfOk result (λ steps. sum_by (λ step. step_reads (taking step)) steps.items ≡ 0) }
{
    let mut steps = Vec::with_capacity(alloc, tables.len())?;
    for keys in sets {
        let table = tables[steps.len()];
        steps.push(TakenBlocks::new(alloc, table, keys))?;
    }
    Ok(steps)
}

/// The changes of the sources, and the keys that they have then.
#[derive(Drop)]
struct Closed {
    changes: Vec<Change>,
    sets: Vec<RowSet>,
}

/// The changes of the sources, when all blocks are taken, and their keys.
fn close_steps<L: Ledger>(
    alloc: Global,
    steps: Vec<TakenBlocks<'_, '_>>,
    reads: &mut Steps<L>,
) -> Result<Closed, AllocError>
    requires { AllByRecursion IsTaking steps.items }
    ensures changes { IfOk result (λ closed. closed.changes.items ≡ map (λ step. change_of (ticked (taking step))) steps.entry.items) }
    ensures keys { IfOk result (λ closed. closed.sets.items ≡ map (λ step. keys (ticked (taking step)).new.rows) steps.entry.items) }
    ensures reads { reads.new ≤ reads.old + sum_by (λ step. step_reads (taking step)) steps.entry.items }
{
    let mut changes = Vec::with_capacity(alloc, steps.len())?;
    let mut sets = Vec::with_capacity(alloc, steps.len())?;
    for step in steps {
        let ClosedSource { change, keys } = step.close(alloc, reads)?;
        changes.push(change)?;
        sets.push(keys)?;
    }
    Ok(Closed { changes, sets })
}

/// Takes the blocks of a batch, in the order of the feed.
fn take_blocks<'t, 'b>(
    alloc: Global,
    plan: &Plan,
    blocks: &'b [Block],
    steps: &mut [TakenBlocks<'t, 'b>],
) -> Result<(), BatchFault>
    requires blocks { (texts : ℕ) × AllByRecursion (IsLawfulBlock plan.now texts) blocks.now }
    requires taking { AllByRecursion IsTaking steps.old }
    requires tables { AreSourceTables (sources_of plan.now.nodes) (map (λ step. (ticked (taking step)).new) steps.old) }
    ensures lawful { OnOk result (blocks_fault plan.now (map (λ step. ticked (taking step)) steps.old) blocks.now ≡ None) }
    ensures taking { OnOk result (AllByRecursion IsTaking steps.new) }
    ensures ticks { OnOk result (map (λ step. ticked (taking step)) steps.new ≡ after_blocks plan.now (map (λ step. ticked (taking step)) steps.old) blocks.now) }
    ensures reads { OnOk result (sum_by (λ step. step_reads (taking step)) steps.new ≤ sum_by (λ step. step_reads (taking step)) steps.old + sum_by (block_reads plan.now) blocks.now) }
    ensures cause { IfErr result (IsFault (blocks_fault plan.now (map (λ step. ticked (taking step)) steps.old) blocks.now)) }
{
    for block in blocks {
        let place = place_of(plan.nodes.as_slice(), block.table);
        match steps[place].take(alloc, block) {
            Ok(()) => {}
            Err(fault) => return Err(fault),
        }
    }
    Ok(())
}

impl SourceKeys {
    /// The keys with which the sources open.
    pub fn new(alloc: Global, opening: &Items<OpeningTable>) -> Result<SourceKeys, AllocError>
        requires { AllByRecursion IsOpenedTable opening.now }
        ensures { IfOk result (λ sources. sources ≡ map (λ table. keys table.rows) opening.now) }
    {
        let mut sets = Vec::with_capacity(alloc, opening.len())?;
        for table in opening.as_slice() {
            sets.push(first_keys(alloc, table.rows().len())?)?;
        }
        Ok(SourceKeys { sets })
    }

    /// The change that a batch makes of each source, in order of the sources, where these are their tables before the step. It
    /// reads the rows that the blocks add, and twice those that they modify; where it is refused, no more than these. After a
    /// refusal no keys are left.
    pub fn changes<'t, 'b, L: Ledger>(
        &mut self,
        alloc: Global,
        plan: &Plan,
        batch: &'b Batch,
        tables: &[&'t TickTable],
        reads: &mut Steps<L>,
    ) -> Result<Vec<Change>, BatchFault>
        requires blocks { (texts : ℕ) × AllByRecursion (IsLawfulBlock plan.now texts) batch.now.blocks }
        requires tables { AreSourceTables (sources_of plan.now.nodes) (map (λ table. table.now.new) tables.now) }
        requires keys { self.old ≡ map (λ table. keys table.now.new.rows) tables.now }
        ensures lawful { OnOk result (blocks_fault plan.now (map (λ table. unchanged table.now.new) tables.now) batch.now.blocks ≡ None) }
        ensures changes { IfOk result (λ changes. changes.items ≡ map change_of (after_blocks plan.now (map (λ table. unchanged table.now.new) tables.now) batch.now.blocks)) }
        ensures keys { OnOk result (self.new ≡ map (λ tick. keys tick.new.rows) (after_blocks plan.now (map (λ table. unchanged table.now.new) tables.now) batch.now.blocks)) }
        ensures reads { reads.new ≤ reads.old + sum_by (block_reads plan.now) batch.now.blocks }
        ensures refused { OnErr result (self.new ≡ []) }
        ensures cause { IfErr result (IsFault (blocks_fault plan.now (map (λ table. unchanged table.now.new) tables.now) batch.now.blocks)) }
    {
        let sets = mem::replace(&mut self.sets, Vec::new(alloc));
        let mut steps = unchanged_steps(alloc, tables, sets)?;
        take_blocks(alloc, plan, batch.blocks.as_slice(), &mut steps)?;
        let Closed { changes, sets } = close_steps(alloc, steps, reads)?;
        self.sets = sets;
        Ok(changes)
    }
}
