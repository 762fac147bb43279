//! Laws of scripts: a script that is read keeps the rules of scripts, whatever its lines say. Each function does nothing: its contract is
//! the law.
#![tactic(auto)]

pub mod formulas;
pub mod plans;
