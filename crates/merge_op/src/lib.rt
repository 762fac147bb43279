//! `merge`: the rows of each input in turn, each input in a region of keys of its own.
//!
//! A region begins where that of the input before it ends, and is as long as the least multiple of 65,536 that is past the
//! input's last key. So the rows of an input move only where a region before it grows or shrinks. An input's own rows are
//! found by its changes alone; where a region moves, all its rows do, in one range for each stretch that the input itself moves
//! or leaves. `MergeOp` keeps the keys of its rows; `Merge` is it without them, for a caller that has a table of these rows.
#![tactic(auto)]

mod fault;
mod in_plan;
mod merge_op;
mod merging;
mod rows;
mod shifts;
mod starts;
mod touching;

pub use fault::MergeFault;
pub use merge_op::MergeOp;
pub use merging::Merge;
