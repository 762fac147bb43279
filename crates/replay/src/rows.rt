//! How many rows the nodes have.
ghost use Rattle.std.specs.Prelude.{◌≡◌, IfOk, length};
ghost use Rattle.replay.specs.Outcomes.{row_counts};

use std::alloc::{AllocError, Global};
use tick_model::items::Items;
use update_graph::Graph;

/// How many rows each of so many nodes has at the step at which the graph stands.
pub(crate) fn row_counts(alloc: Global, graph: &Graph, nodes: u32) -> Result<Items<u64>, AllocError>
    requires { nodes ≡ length graph.now.run.plan.nodes }
    ensures { IfOk result (λ counts. counts ≡ row_counts graph.now.run graph.now.step) }
{
    let _step = graph.step();
    let mut counts = Items::new(alloc);
    for node in 0..nodes {
        counts.push(graph.table(node).rows().len())?;
    }
    Ok(counts)
}
