//! What `run` and `watch` write, read back.
//!
//! `read_output` takes an output apart into its entries: updates, snapshots, and the end. The definitions of `specs/Entries.antt` say what the
//! text of entries is, and with it what is read.
#![tactic(auto)]

mod all_entries;
mod entry;
mod laws;
mod one_entry;
mod split;

pub use all_entries::read_output;
pub use entry::OutputEntry;
pub use laws::{
    entries_of_runs_are_told, nodes_of_runs_are_shown, runs_are_outputs, updates_make_tables,
};
