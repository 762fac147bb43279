//! The run of a feed, from its opening to its end, with callers that take snapshots beside it.
//!
//! `run_feed` brings the graph of a run on step by step, and writes at each step what changed of each printed node. It ends with the last
//! step, or at the first step that is spoiled, of which nothing is written. The published tables of each step are put into a store, from
//! which callers in threads of their own take whole tables. What they took is written last. What the run answers and writes is said by the
//! definitions of `specs/`, of which `Outcomes` is the first to read.
#![tactic(auto)]

mod beside;
mod hands;
mod kept;
mod last_calls;
mod light;
mod limits;
mod opening;
mod outcome;
mod printed;
mod progress;
mod publishing;
mod readers;
mod rows;
mod run;
mod snapshots;
mod steps;
mod writing;

pub use hands::Hands;
pub use limits::check_limits;
pub use outcome::{Knobs, Outcome, Ran};
pub use printed::{PrintedNode, printed_node};
pub use readers::KeptSnapshot;
pub use run::{replay_feed, run_feed};
