//! The run of a feed of which the rows at some positions of one node are watched.
//!
//! `watch_feed` brings the graph of a run on step by step, and writes messages: which rows at these positions came, went, moved or changed
//! since the message before. There is one at the opening, one after so many steps each, and one at the last good step. What it writes is said
//! by the definitions of `specs/`, of which `Messages` is the first to read. A mirror takes every message before it is written.
#![tactic(auto)]

mod steps;
mod teller;
mod told;
mod watch;

pub use steps::watch_feed;
pub use watch::Watch;
