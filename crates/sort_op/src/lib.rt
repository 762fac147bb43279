//! `sort`: the rows of a table in stable order, by columns that ascend or descend, under the keys 0, 1, 2 and so on.
//!
//! `SortOrder` keeps the sort cells and the key of each row in chunks, so that a place is found, and an entry put in or taken
//! out, without a walk over the others. It knows nothing of tables.
//!
//! `SortOp` has the rows of its input in a `RowOrder`, whose entries have no memory of their own and stay as they are where the
//! keys of rows move. A step finds the positions of the rows that the input's update names, before and now, and moves the rows
//! between them by ranges of positions.
#![tactic(auto)]

mod arrivals;
mod batch;
mod entry;
mod in_plan;
mod modified;
mod operator;
mod order;
mod order_keys;
mod positions;
mod row_order;
mod rows;
mod sort_cells;

pub use entry::Entry;
pub use operator::SortOp;
pub use order::SortOrder;
