//! Which steps are too light to be shared among threads.

ghost use Rattle.std.specs.Prelude.{◌≡◌, ◌<◌, length};

use tick_model::feed::{Batch, Block, Run};
use tick_model::update::KeyRange;
use tick_table::TickTable;
use update_graph::Graph;

// A batch is small that names at most so many keys.
const FEW_KEYS: u64 = 256;

// A step is light in which at most so many rows of all nodes came, went or were modified. To start a thread takes longer than to
// work them.
const FEW_ROWS: u64 = 1024;

/// Whether the next step seems to be light: its batch is small, and the step before was light too. The first step never seems so,
/// since nothing tells how much follows from its batch.
pub(crate) fn seems_light(run: &Run, graph: &Graph) -> bool
    requires run { graph.now.run ≡ run.now }
{
    let step = graph.step();
    if step == 0 {
        return false;
    }
    is_small(run.batches.as_slice().get(step as usize)) && changed_rows(run, graph) <= FEW_ROWS
}

/// How many rows of all nodes came, went or were modified in the step at which the graph stands.
fn changed_rows(run: &Run, graph: &Graph) -> u64
    requires run { graph.now.run ≡ run.now }
{
    let _step = graph.step();
    let nodes = run.plan.nodes.len() as u32;
    let mut rows = 0u64;
    for node in 0..nodes {
        rows = rows.saturating_add(rows_of(graph.table(node)));
    }
    rows
}

fn rows_of(table: &TickTable) -> u64 {
    let update = table.update();
    let others = update.removed().len().saturating_add(update.added().len());
    others.saturating_add(update.modified().len())
}

fn is_small(batch: Option<&Batch>) -> bool {
    match batch {
        Some(batch) => keys_of(batch) <= FEW_KEYS,
        None => true,
    }
}

/// How many keys a batch names; a range of rows that moves counts as one, since it is moved at once.
fn keys_of(batch: &Batch) -> u64 {
    let mut keys = 0u64;
    for block in batch.blocks.as_slice() {
        keys = keys.saturating_add(keys_of_block(block));
    }
    keys
}

fn keys_of_block(block: &Block) -> u64 {
    let rows = (block.added.len() as u64).saturating_add(block.modified.len() as u64);
    rows.saturating_add(removed_keys(block.removed.as_slice()))
        .saturating_add(block.shifts.len() as u64)
}

fn removed_keys(ranges: &[KeyRange]) -> u64 {
    let mut keys = 0u64;
    for range in ranges {
        keys = keys.saturating_add(range.last.saturating_sub(range.first).saturating_add(1));
    }
    keys
}
