//! Laws of the definitions. Each function does nothing: its contract is the law.
#![tactic(auto)]

pub mod bounds;
pub mod checks;
pub mod nodes;
pub mod operators;
pub mod printing;
pub mod runs;
pub mod slices;
pub mod sources;
pub mod updates;
