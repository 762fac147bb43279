//! A subscription to a range of positions of a table, and the copy that its messages keep.
//!
//! A `Viewport` stands beside a table that ticks. It is given each step of the table (`pass`), and tells by a `message` how the
//! rows at its positions changed since the last one, with the chosen columns alone. Between two messages it keeps only what
//! became of the rows that the last one left: which of them were removed, and where the others moved. A `Mirror` takes the
//! messages one after the other, and has the rows of the slice after each of them. A pass costs the rows that the step touches
//! and the ranges of the slice's keys, and a message costs the slice; neither walks the table.
#![tactic(auto)]

mod laws;
mod mirror;
mod rows;
mod slice;
mod touched;
mod viewport;

pub use laws::{mirrors_follow_subscriptions, mirrors_take_ticks, viewports_follow_runs};
pub use mirror::{Mirror, MirrorFault};
pub use slice::Slice;
pub use viewport::Viewport;
