//! The steps of a feed, as they are gathered from its records.

ghost use Rattle.std.specs.Prelude.{◌≡◌, ◌++◌, ◌∷◌, [], ℕ, List, None, OnOk, length, option_to_list};
ghost use Rattle.std.specs.Option.{ForSome};
ghost use Rattle.feed_reader.specs.Gathered.{with_entry, gathered, kinds_of_block, raw_steps, AreNumberedSteps, FitsRow, IsNumberedEntry};
ghost use Rattle.feed_reader.specs.Raw.{kinds_at, raw_block, IsNumberedBlock};
ghost use Rattle.feed_reader.specs.Said.{said};
ghost use Rattle.tick_model.specs.declared.plan.Kind.{Kind};

use crate::entries::FeedEntry;
use std::alloc::{AllocError, Global};
use std::mem;
use tick_model::feed::{Batch, Block};
use tick_model::items::Items;
use tick_model::row_list::RowList;

/// The ended steps, the ended blocks of the step at hand, and its last block, which may go on.
#[derive(Drop)]
pub(crate) struct FeedBuilder {
    pub(crate) batches: Items<Batch>,
    blocks: Items<Block>,
    block: Option<Block>,
}

/// A block of a source, begun by the record of a number.
fn begin_block(alloc: Global, table: u32, number: u64) -> Block
    ensures { result ≡ record { table = table; number = number; removed = []; shifts = []; added = []; modified = [] } }
{
    Block {
        table,
        number,
        removed: Items::new(alloc),
        shifts: Items::new(alloc),
        added: RowList::new(alloc),
        modified: RowList::new(alloc),
    }
}

/// Puts a record of one of its parts into a block. The cells are those of a row.
fn put_part(block: &mut Block, entry: FeedEntry, cells: &[i64]) -> Result<(), AllocError>
    requires { FitsRow entry (length cells.now) block.old }
    ensures numbered { (kinds : List (List Kind)) (texts : ℕ) → IsNumberedBlock kinds texts block.old → IsNumberedEntry (kinds_at kinds block.old.table) texts cells.now entry
        → OnOk result (IsNumberedBlock kinds texts block.new) }
    ensures put { (texts : List (List ℕ)) (kinds : List (List Kind))
        → OnOk result (raw_block texts kinds block.new ≡ with_entry (said texts (kinds_at kinds block.old.table) cells.now entry) (raw_block texts kinds block.old)) }
{
    match entry {
        FeedEntry::Removed(range) => block.removed.push(range),
        FeedEntry::Shift(range) => block.shifts.push(range),
        FeedEntry::Added(key) => block.added.push(key, cells),
        FeedEntry::Modified(key) => block.modified.push(key, cells),
        FeedEntry::Block(_) | FeedEntry::End => Ok(()),
    }
}

impl FeedBuilder {
    pub(crate) fn new(alloc: Global) -> FeedBuilder
        ensures { result ≡ record { batches = []; blocks = []; block = None } }
    {
        FeedBuilder {
            batches: Items::new(alloc),
            blocks: Items::new(alloc),
            block: None,
        }
    }

    /// Ends the block at hand, if there is one.
    fn end_block(&mut self) -> Result<(), AllocError>
        ensures { OnOk result (self.new ≡ record self.old { blocks = self.old.blocks ++ option_to_list self.old.block; block = None }) }
    {
        match self.block.take() {
            Some(block) => self.blocks.push(block),
            None => Ok(()),
        }
    }

    /// Ends the step at hand.
    fn end_step(&mut self, alloc: Global) -> Result<(), AllocError>
        ensures { OnOk result (self.new ≡ record {
          batches = self.old.batches ++ (record { blocks = self.old.blocks ++ option_to_list self.old.block }) ∷ [];
          blocks = [];
          block = None;
        }) }
    {
        self.end_block()?;
        let blocks = mem::replace(&mut self.blocks, Items::new(alloc));
        self.batches.push(Batch { blocks })
    }

    /// Takes the record of a number. The cells are those of a row.
    pub(crate) fn put(
        &mut self,
        alloc: Global,
        number: u64,
        entry: FeedEntry,
        cells: &[i64],
    ) -> Result<(), AllocError>
        requires { ForSome self.old.block (FitsRow entry (length cells.now)) }
        ensures numbered { (kinds : List (List Kind)) (texts : ℕ) → AreNumberedSteps kinds texts self.old → IsNumberedEntry (kinds_of_block kinds self.old.block) texts cells.now entry
            → OnOk result (AreNumberedSteps kinds texts self.new) }
        ensures put { (texts : List (List ℕ)) (kinds : List (List Kind))
            → OnOk result (raw_steps texts kinds self.new ≡ gathered (raw_steps texts kinds self.old) number (said texts (kinds_of_block kinds self.old.block) cells.now entry)) }
    {
        match entry {
            FeedEntry::Block(table) => {
                self.end_block()?;
                self.block = Some(begin_block(alloc, table, number));
                Ok(())
            }
            FeedEntry::End => self.end_step(alloc),
            part => match &mut self.block {
                Some(block) => put_part(block, part, cells),
                None => Ok(()),
            },
        }
    }
}
