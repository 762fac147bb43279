//! What a table file and a feed say, before texts have ranks.
//!
//! Rows lie side by side, and a text cell is the number of its text. Contracts see the cells as they are written.

ghost use Rattle.std.specs.Prelude.{◌≡◌, [], flat_map};
ghost use Rattle.feed_reader.specs.Raw.{rows_texts, batch_texts, AreTold};

use std::alloc::Global;
use std::marker::Model;
use tick_model::feed::Batch;
use tick_model::items::Items;
use tick_model::name::Name;
use tick_model::plan::Kind;
use tick_model::row_list::RowList;
use tick_model::update::{KeyRange, ShiftRange};

/// A cell as it is written.
#[derive(Drop)]
pub enum RawCell {
    Null,
    Long(i64),
    Text(Name),
}

/// A row under its key.
#[derive(Drop)]
pub struct RawRow {
    pub key: u64,
    pub cells: Items<RawCell>,
}

/// The rows of a table file.
#[derive(Drop)]
pub struct RawTable {
    pub rows: RawRows,
}

/// What a feed changes of one source at once.
#[derive(Drop)]
pub struct RawBlock {
    /// The node number of the source.
    pub table: u32,
    /// The number of the record that begins the block.
    pub number: u64,
    pub removed: Items<KeyRange>,
    pub shifts: Items<ShiftRange>,
    pub added: Items<RawRow>,
    pub modified: Items<RawRow>,
}

/// The blocks of one step.
#[derive(Drop)]
pub struct RawBatch {
    pub blocks: Items<RawBlock>,
}

/// The steps of a feed.
#[derive(Drop)]
pub struct RawFeed {
    pub batches: RawBatches,
}

/// Rows in columns of these kinds, whose text cells are numbers of these texts. Contracts see the rows as they are written.
#[derive(Drop)]
pub struct RawRows {
    pub(crate) kinds: Items<Kind>,
    pub(crate) texts: Items<Name>,
    pub(crate) rows: RowList,
}

impl Model for RawRows {
    ghost use Rattle.std.specs.Prelude.{List, map};
    ghost use Rattle.feed_reader.specs.Raw.{raw_row, AreNumbered};
    ghost use Rattle.feed_reader.specs.declared.raw.RawRow.{RawRow};

    ghost Value = { List RawRow };

    ghost view = { λ a. map (raw_row a.texts a.kinds) a.rows };

    ghost invariant = { λ a. AreNumbered a.kinds a.texts a.rows };
}

impl RawRows {
    /// No rows.
    pub fn new(alloc: Global) -> RawRows
        ensures { result ≡ [] }
    {
        RawRows {
            kinds: Items::new(alloc),
            texts: Items::new(alloc),
            rows: RowList::new(alloc),
        }
    }

    /// The texts that stand in cells.
    pub(crate) fn cell_texts(&self) -> &[Name]
        ensures told { AreTold result.now (rows_texts self.now) }
        ensures all { AreTold (rows_texts self.now) result.now }
    {
        self.texts.as_slice()
    }
}

/// Steps over sources whose columns are of these kinds, by the sources' node numbers. Text cells are numbers of these texts. Contracts
/// see the steps as they are written.
#[derive(Drop)]
pub struct RawBatches {
    pub(crate) kinds: Items<Items<Kind>>,
    pub(crate) texts: Items<Name>,
    pub(crate) batches: Items<Batch>,
}

impl Model for RawBatches {
    ghost use Rattle.std.specs.Prelude.{List, map};
    ghost use Rattle.feed_reader.specs.Raw.{raw_batch, AreNumberedBatches};
    ghost use Rattle.feed_reader.specs.declared.raw.RawBatch.{RawBatch};

    ghost Value = { List RawBatch };

    ghost view = { λ a. map (raw_batch a.texts a.kinds) a.batches };

    ghost invariant = { λ a. AreNumberedBatches a.kinds a.texts a.batches };
}

impl RawBatches {
    /// The texts that stand in cells.
    pub(crate) fn cell_texts(&self) -> &[Name]
        ensures told { AreTold result.now (flat_map batch_texts self.now) }
        ensures all { AreTold (flat_map batch_texts self.now) result.now }
    {
        self.texts.as_slice()
    }
}
