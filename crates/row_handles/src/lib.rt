//! Handles of rows: numbers that rows keep while their keys move.
#![tactic(auto)]

mod block;
mod drops;
mod handles;
mod index;
mod joins;
mod moves;
mod search;

pub use handles::{Handle, Handles};
pub use index::short;
pub use search::{inside, likely_place};
