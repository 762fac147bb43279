//! What a run is given: its plan, the opening of its sources, and the batches of its feed.

use crate::items::Items;
use crate::name::Name;
use crate::plan::Plan;
use crate::row_list::{OpeningTable, RowList};
use crate::update::{KeyRange, ShiftRange};

/// What the feed changes of one source.
#[derive(Debug, Drop)]
pub struct Block {
    pub table: u32,
    pub number: u64,
    pub removed: Items<KeyRange>,
    pub shifts: Items<ShiftRange>,
    pub added: RowList,
    pub modified: RowList,
}

/// What the feed changes in one step.
#[derive(Debug, Drop)]
pub struct Batch {
    pub blocks: Items<Block>,
}

/// All that a run is given.
#[derive(Debug)]
pub struct Run {
    pub plan: Plan,
    pub opening: Items<OpeningTable>,
    pub batches: Items<Batch>,
    pub texts: Items<Name>,
}

impl Drop for Run {
    fn drop(self) {
        let Self {
            plan: _,
            opening: _,
            batches: _,
            texts: _,
        } = self;
    }
}
