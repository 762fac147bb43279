//! The entries of an output.

use tick_model::items::Items;
use tick_table::Change;
use update_text::Snapshot;

/// What an output tells at one place. A table is told by its place among the tables shown.
#[derive(Drop)]
pub enum OutputEntry {
    /// The change of a table from the step before, or the message before, to this step.
    Update {
        table: usize,
        step: u64,
        change: Change,
    },
    /// A snapshot of a table.
    Snapshot {
        table: usize,
        snapshot: Snapshot,
    },
    /// The end: the last step.
    Done {
        step: u64,
    },
    /// The end by a fault: the fields of its record behind the first, of which the first is the status.
    Fault {
        fields: Items<Items<u8>>,
    },
}
