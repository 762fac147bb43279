//! A crew of hands that work the nodes of a graph, step after step.
//!
//! A crew is made once for a run. Each of its hands has a deque of node numbers that is kept through all steps. In a step
//! the hands share the claims of `graph_words`, each with a seat of its own. A hand that has several ready nodes puts all but
//! one on offer and pushes their numbers on its own deque. A hand without a node takes a number from its own deque, or else
//! steals one from another hand's, and then asks the claims for that node. The claims alone decide who works a node, so a
//! number that is taken late does no harm.
//!
//! What is pushed on a deque and taken from it is under a rule (`deques`): each number that is taken was pushed in this step, and
//! each push is taken at most once. After a step every deque is empty.
#![tactic(auto)]

mod crew;
pub mod deques;
mod hand;
mod muster;
mod own;
mod progress;
mod raid;
mod raising;
mod ready;
mod rest;
mod team;
mod work;

pub use crew::Crew;
pub use ready::Ready;
pub use work::NodeWork;
