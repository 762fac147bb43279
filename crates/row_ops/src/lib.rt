//! The operators whose rows come one by one from those of their input: `where` and `view`.
//!
//! Each has a constructor and a `step`. A step is given the input after it, and answers the operator after it and the change of
//! its own rows: the update between its table before and its table now, along the rows that stay, with the cells of the added
//! and the modified rows. It reads the added and the modified rows of the input alone. `WhereOp` keeps the keys of the rows that
//! it shows; `RowFilter` is it without them, for a caller that has a table of these rows.
#![tactic(auto)]

mod copies;
mod crossing;
mod in_plan;
mod row_filter;
mod view_op;
mod where_op;

pub use row_filter::RowFilter;
pub use view_op::ViewOp;
pub use where_op::WhereOp;
