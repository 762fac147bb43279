//! Lines of a script: from bytes to what a line says by itself, or why it is refused by itself.
#![tactic(auto)]

pub mod fault;
mod formulas;
mod grammar;
pub mod laws;
mod lexer;
pub mod line;
mod lists;
pub mod making;
mod members;
mod parts;
mod predicates;
pub mod reading;
pub mod token;
