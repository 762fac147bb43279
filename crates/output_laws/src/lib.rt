//! Laws of what `run_feed` and `watch_feed` write: `read_output` gives the entries of the run back.
//!
//! The tables that are shown to it are the nodes of the run, and the texts are those of the run.
#![tactic(auto)]

mod laws;

pub use laws::{messages_make_slices, runs_are_read, verdicts_are_read, watches_are_read};
