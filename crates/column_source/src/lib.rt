//! The cells of one column by row key, as they are and as they were when the step began.
#![tactic(auto)]

mod cells;
mod edit;
mod version;

pub use cells::Column;
