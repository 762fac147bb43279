//! The rows of a table in groups: those with equal key cells together, in order. Rows come, leave and move to other keys, and each
//! step costs the rows that it touches.
#![tactic(auto)]

mod group;
mod index;
mod leaving;
mod lists;
mod numbered;
mod numbers;
mod place;
mod search;
mod sequence;
mod table;

pub use group::Group;
pub use numbered::NumberedGroups;
