//! Published tables and their limits of rows.
ghost use Rattle.std.specs.Prelude.{◌≡◌, ◌+◌, ◌<◌, ◌≤◌, IfErr, IfNone, IfSome, MatchResult, OnOk, length, slice_index_or};
ghost use Rattle.snapshot_store.specs.Answers.{IsFull};
ghost use Rattle.snapshot_store.specs.Lines.{count};
ghost use Rattle.snapshot_store.specs.Models.{IsOf};
ghost use Rattle.replay.specs.Causes.{IsPast, rows_in};
ghost use Rattle.replay.specs.Standing.{IsWithin};

use crate::Outcome;
use snapshot_store::{Full, Phase, Store, Writer};
use tick_model::plan::Published;
use update_graph::Graph;

/// The rows of a published table and its limit, where there are more rows than that.
fn past_limit(graph: &Graph, table: &Published) -> Option<(u64, u64)>
    requires { table.now.node < length graph.now.run.plan.nodes }
    ensures within { IfNone result (rows_in graph.now table.now ≤ table.now.limit) }
    ensures past { IfSome result (λ full. (full.0 ≡ rows_in graph.now table.now) × (full.1 ≡ table.now.limit) × (table.now.limit < rows_in graph.now table.now)) }
{
    let _step = graph.step();
    let rows = graph.table(table.node).rows().len();
    let limit = u64::from(table.limit);
    if rows > limit {
        Some((rows, limit))
    } else {
        None
    }
}

/// Refuses a step at which a published table has more rows than its limit, and names the least one.
pub fn check_limits(graph: &Graph, published: &[Published]) -> Result<(), Outcome>
    requires { published.now ≡ graph.now.run.plan.published }
    ensures within { OnOk result (IsWithin graph.now.run graph.now.step) }
    ensures past { IfErr result (IsPast graph.now.run graph.now.step) }
{
    let step = graph.step();
    for (number, table) in published.iter().enumerate() {
        if let Some((rows, limit)) = past_limit(graph, table) {
            return Err(Outcome::Publish {
                step,
                number: number as u32,
                rows,
                limit,
            });
        }
    }
    Ok(())
}

/// Puts the next published table of the step that was begun into the store.
fn put_table(
    store: &Store,
    graph: &Graph,
    number: u32,
    table: &Published,
    writer: &mut Writer,
) -> Result<(), Full>
    requires own { IsOf store.now writer.old.table writer.old.run }
    requires run { store.now.run ≡ graph.now.run }
    requires number { number < count store.now.run }
    requires table { table.now ≡ slice_index_or graph.now.run.plan.published number table.now }
    requires step { graph.now.step ≡ writer.old.step + 1 }
    requires next { writer.old.phase ≡ Phase.Begun number }
    ensures own { IsOf store.now writer.new.table writer.new.run }
    ensures step { writer.new.step ≡ writer.old.step }
    ensures phase { MatchResult result (λ _. writer.new.phase ≡ Phase.Begun (number + 1)) (λ _. writer.new.phase ≡ Phase.Stopped) }
    ensures full { MatchResult result (λ _. rows_in graph.now table.now ≤ table.now.limit) (IsFull (rows_in graph.now table.now) table.now.limit) }
{
    let _step = graph.step();
    store.put(writer, number, graph.table(table.node))
}

/// Puts the published tables of the step that was begun into the store. Where one has more rows than its limit, the step can only be
/// abandoned, and the least such table is named.
pub(crate) fn put_tables(
    store: &Store,
    graph: &Graph,
    published: &[Published],
    writer: &mut Writer,
) -> Result<(), Outcome>
    requires own { IsOf store.now writer.old.table writer.old.run }
    requires run { store.now.run ≡ graph.now.run }
    requires published { published.now ≡ graph.now.run.plan.published }
    requires step { graph.now.step ≡ writer.old.step + 1 }
    requires begun { writer.old.phase ≡ Phase.Begun 0 }
    ensures own { IsOf store.now writer.new.table writer.new.run }
    ensures step { writer.new.step ≡ writer.old.step }
    ensures phase { MatchResult result (λ _. writer.new.phase ≡ Phase.Begun (count store.now.run)) (λ _. writer.new.phase ≡ Phase.Stopped) }
    ensures within { OnOk result (IsWithin graph.now.run graph.now.step) }
    ensures past { IfErr result (IsPast graph.now.run graph.now.step) }
{
    let step = graph.step();
    for (number, table) in published.iter().enumerate() {
        if let Err(full) = put_table(store, graph, number as u32, table, writer) {
            return Err(Outcome::Publish {
                step,
                number: number as u32,
                rows: full.rows,
                limit: full.limit,
            });
        }
    }
    Ok(())
}
