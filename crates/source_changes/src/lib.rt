//! What a batch of the feed changes of the sources.
//!
//! The blocks of a batch are taken in the order of the feed. Each is checked on the keys that the blocks before it have left
//! of its source (`SourceKeys`, which keeps the keys of every source through the steps). What the blocks of one source have
//! changed so far is gathered to one update (`PendingUpdate`) and the rows that they told (`ToldRows`); the change of the source is
//! made of it once, when all blocks are taken (`SourceStep`). A step costs the records of its batch, and never the rows of a
//! table. Beside that a block costs, where it moves no row, at most about the root of what the blocks of its source have changed
//! so far, and where it moves rows, all of that.
#![tactic(auto)]

mod blocks;
mod changes;
mod checks;
mod faults;
mod gathering;
mod opening;
mod records;
mod rows;
mod steps;
mod taking;
mod told;

pub use changes::SourceKeys;
pub use faults::BatchFault;
pub use opening::opening_change;
