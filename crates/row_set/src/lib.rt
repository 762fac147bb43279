//! Ordered sets of row keys, kept as sorted ranges.
//!
//! A `RowSet` is seen as the rising list of its keys, each below 2 ^ 62 (`IsKeySet`, which every call that reads a set
//! ensures), and each call is a function of such lists: `specs/Sets.antt` has the words, `specs/Ranges.antt` those of
//! ranges. Lookups are binary searches over the ranges; the iterator takes them in turn, at a constant cost a key; edits
//! are made in place; the algebra of two sets is one merge of their ranges.
#![tactic(auto)]

mod algebra;
mod blocks;
mod changes;
mod edits;
mod gaps;
mod iter;
mod ranges;
mod rows;
mod runs;
mod search;
mod shifts;
mod sweeps;

pub use iter::Keys;
pub use ranges::Range;
pub use rows::RowSet;
