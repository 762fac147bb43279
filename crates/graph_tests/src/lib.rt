//! Tests with ample memory of the public calls of `update_graph` over a crew of `steal_workers`, and of steps of `snapshot_store`, one that is
//! abandoned and one that is published.

#![tactic(auto)]

#[cfg(test)]
mod abandoned_steps;
#[cfg(test)]
mod made_cycles;
