//! The plain evaluator: the tables of a plan's nodes, afresh from its sources, as the definitions have them.
//!
//! It is slow and short. The engine never calls it: it shows that the definitions compute, and tests hold the engine to it.
#![tactic(auto)]

mod evaluation;
mod groups;
mod joins;
mod merges;
mod operators;
mod rows;
mod selections;
mod sort;
mod sums;
mod views;

pub use evaluation::{EvalStop, Evaluated, evaluate};
pub use rows::rows_copied;
