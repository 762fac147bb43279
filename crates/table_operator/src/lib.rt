//! What every operator of a plan promises.
//!
//! An operator is made of its description in the plan and the widths of its inputs. A step takes the inputs as they are after
//! it, in a list, and the operator's own table as it is before it, so that no operator keeps its rows beside its table. It
//! gives the change of the operator's own rows. What that change is, and when there is none, is said by the definitions of
//! plans alone: the operator's table is the result of its inputs' tables, along the rows that it keeps.
#![tactic(auto)]

mod fault;
mod inputs;
mod operator;

pub use fault::StepFault;
pub use inputs::{copied, one_input, two_inputs};
pub use operator::TableOperator;
