//! What the calls of one step share.

use std::alloc::Global;
use tick_model::feed::Run;

/// A step of a run, and where its memory comes from.
#[derive(Drop)]
pub(crate) struct StepContext<'s> {
    pub(crate) alloc: Global,
    pub(crate) run: &'s Run,
    pub(crate) step: u64,
}

/// The same in a cycle, with the runtime that starts its threads, and the gate round the work of each node.
#[derive(Drop)]
pub(crate) struct CycleContext<'s, R, G> {
    pub(crate) at: StepContext<'s>,
    pub(crate) rt: &'s R,
    pub(crate) gate: &'s G,
}
