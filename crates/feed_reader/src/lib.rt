//! Table files and feeds, read from their bytes.
//!
//! The records of both are those of the crate `csv`, with its default settings and records of any length: fields between commas, records
//! that end with a line feed, a carriage return or both, quoted fields, no record for an empty line, and a byte order mark dropped at the
//! start. What the records of a table file and of a feed say, and which is the first that is refused, and why, is said by the definitions
//! `table_of` and `feed_of` in `specs/`.
#![tactic(auto)]

mod assembled;
mod cells;
mod coded;
mod coding;
mod entries;
mod fault;
mod feeds;
mod gathered;
mod laws;
mod noted;
mod numbered;
mod place;
mod ranks;
mod raw;
mod records;
mod tables;
mod texts;

pub use assembled::assemble;
pub use coded::{Coded, code};
pub use fault::{TextFault, TextKind};
pub use feeds::read_feed;
pub use laws::{
    assembled_runs_are_lawful, read_feeds_are_lawful, read_runs_are_lawful,
    read_tables_are_openings,
};
pub use raw::{RawBatch, RawBatches, RawBlock, RawCell, RawFeed, RawRow, RawRows, RawTable};
pub use tables::{MOST_BYTES, read_table};
