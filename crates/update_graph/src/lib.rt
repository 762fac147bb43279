//! The update graph: the nodes of a run, brought from step to step, each once and after its inputs.
//!
//! A step begins with the sources, which the step's batch changes. Each other node then makes its change from those of its
//! inputs, and applies it to its own table in place. With one worker the nodes are worked in order of their numbers. A crew works
//! them by claims: the first seat hands on the tables of the sources, and then each hand works the nodes that its own deliveries
//! made ready or that another hand has put on offer. A node that fails marks its dependents as undefined; all other nodes are
//! still worked, and the least node that failed is named.
#![tactic(auto)]

mod context;
mod crew_step;
mod edges;
mod first_seat;
mod graph;
mod in_order;
mod opening;
mod shares;
mod sources;
mod step_work;
mod stop;
mod sweep;
mod work;
mod worker;

pub use graph::Graph;
pub use shares::Share;
pub use stop::Stop;
pub use work::Work;
