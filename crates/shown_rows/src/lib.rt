//! Operators whose rows are some of their input's, under their keys.
//!
//! Such an operator says which rows of a table these are (`Chooses`). In a step it is told the keys of those that it showed
//! before, and finds which of them are shown no more and which others are now; `shown_change` makes the change of it. Sets of
//! keys that a step needs are made by `keys_among` and `put_last`, and the rows that stay are told as pairs of keys
//! (`KeyPairs`). No call walks the keys of a whole table.
#![tactic(auto)]

mod crossing;
mod keys;
mod pairs;
mod rows;
mod shown;
mod staying;

pub use crossing::Crossing;
pub use keys::{keys_among, put_last, put_last_if};
pub use pairs::{KeyPairs, Pairs};
pub use rows::Chooses;
pub use shown::shown_change;
