//! The change of a table in one step, as sets of keys, a shift and the columns that differ.
//!
//! An `Update` is checked against the keys that the table has, and says which keys it has after it. Two updates, one
//! after the other, make one.
#![tactic(auto)]

mod coalesce;
mod columns;
mod in_place;
mod search;
mod update;

pub use columns::ColumnSet;
pub use tick_model::update::UpdateFault;
pub use update::Update;
