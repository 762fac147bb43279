//! The program's work: its words, its files, the run of a script over a feed with callers beside it, and the summary of a made run.
//!
//! `tick_main` does all of it. What it writes and answers is said by the definitions of `specs/`, of which `Headline` is the first to read.
//! `read_run` does its first part alone, for programs that bring the run on themselves.
#![tactic(auto)]

mod demo;
mod fault_records;
mod fault_words;
mod fields;
mod loading;
mod program;
mod readings;
mod refusal;
mod reports;
mod run;
mod summary;
mod tables;
mod watching;

pub use program::tick_main;
pub use refusal::{LoadStop, Refusal};
pub use run::read_run;
