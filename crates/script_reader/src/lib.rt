//! Scripts: from bytes to the plan that they say, or to the first line that is refused and why.
#![tactic(auto)]

mod binding;
mod columns;
mod drafts;
mod expressions;
pub mod fault;
mod known;
mod members;
mod nodes;
mod numbers;
pub mod reader;
pub mod script;
mod texts;
