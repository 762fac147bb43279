//! The operators that show the rows at one end of their input, under their keys: `head` the first rows, `tail` the last.
//!
//! Each has a constructor and a `step`. A step is given the input after it, and answers the operator after it and the change of
//! its own rows: the update between its table before and its table now, along the rows that stay, with the cells of the added
//! and the modified rows. Which rows leave and which come is found by position: from the rows that the input removes and adds,
//! and from the place that the last row shown has among those that stay. So a step looks at the touched rows and at those that
//! cross the edge alone, whatever number of rows is shown. `EndOp` keeps the keys of the rows that it shows; `EndRows` is it without
//! them, for a caller that has a table of these rows.
#![tactic(auto)]

mod crossing;
mod edges;
mod end;
mod end_op;
mod end_rows;
mod in_plan;
mod places;

pub use end::{AtEnd, AtFirst, AtLast, End};
pub use end_op::{EndOp, HeadOp, TailOp};
pub use end_rows::EndRows;
