//! Made runs: a plan over trades and their reference data, with as many steps of drawn trades as are asked for. Each is
//! lawful, and none of its steps is spoiled.
#![tactic(auto)]

pub mod draws;
pub mod laws;
pub mod opening;
pub mod plan;
pub mod run;
pub mod steps;
