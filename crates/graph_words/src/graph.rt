//! Graphs, and the values that claims hand over.

ghost use Rattle.std.specs.Prelude.{ℕ, ⊤};
ghost use Rattle.tick_model.specs.declared.feed.Run.{Run};

use std::snapshot::Snapshot;

/// An edge of a graph, from one node to another.
#[derive(Drop)]
pub struct Edge {
    /// The node whose share goes along the edge.
    pub from: u32,
    /// The node that takes the share, which is greater than `from`.
    pub to: u32,
    /// The place of the edge among the inputs of `to`, from 0.
    pub port: u32,
}

/// A value that belongs to a node at a step of a run, and what it may become in the next step. All of it is for contracts alone.
pub trait Tagged: Send + Drop {
    ghost run: { Self → Run };

    ghost node: { Self → ℕ };

    ghost step: { Self → ℕ };

    /// The second is what the first may become in one step.
    ghost follows: { Self → Self → Type 0 } = { λ _ _. ⊤ };
}

/// What claims are made for: a graph and the works that were given, in order of the nodes. The first work's run and step are
/// those of all works, and the step of the claims is the one after it.
#[derive(Drop)]
pub struct ClaimPlan<W> {
    pub first: Snapshot<W>,
    pub works: Snapshot<Vec<W>>,
    pub nodes: u32,
    pub edges: Vec<Edge>,
}
