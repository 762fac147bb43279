//! One type for every operator of a plan, so that a graph of them knows no single one.
//!
//! An operator is made of its description in the plan and the widths of its inputs. A step takes the inputs as they are after
//! it and gives the change of the operator's own rows. What that change is, and when there is none, is said by the definitions
//! of plans alone: the operator's table is the result of its inputs' tables, along the rows that it keeps.
#![tactic(auto)]

mod counts;
pub mod laws;
mod operator;
mod running;

pub use operator::Operator;
pub use table_operator::StepFault;
