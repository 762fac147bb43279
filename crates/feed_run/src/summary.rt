//! The summary of a made run: how many records its updates have, and how many rows each node has at the end.

ghost use Rattle.std.specs.Prelude.{◌≡◌, ◌++◌, ◌∷◌, [], IfOk, OnOk, codes, slice_index_or};
ghost use Rattle.replay.specs.Outcomes.{IsDone};
ghost use Rattle.tick_model.specs.Texts.{records_text, summary_text};
ghost use Rattle.feed_run.specs.Summaries.{demo_record as demo_record_of, size_record as size_record_of, sizes};

use crate::fault_records::done_record;
use crate::fields::Fields;
use std::alloc::{AllocError, Global};
use tick_model::feed::Run;
use tick_model::items::Items;
use tick_model::plan::Node;

/// What a run is summed up by.
#[derive(Drop)]
pub(crate) struct Totals {
    /// How many records its updates have.
    pub(crate) records: u64,
    /// How many rows each node has at the end.
    pub(crate) rows: Items<u64>,
}

fn demo_record(alloc: Global, steps: u32, records: u64) -> Result<Fields, AllocError>
    ensures { IfOk result (λ fields. fields ≡ demo_record_of steps records) }
{
    Fields::of_demo(alloc)?
        .number(u64::from(steps))?
        .number(records)
}

fn size_record(alloc: Global, node: &Node, rows: u64) -> Result<Fields, AllocError>
    ensures { IfOk result (λ fields. fields ≡ size_record_of node.now.name rows) }
{
    Fields::of_size(alloc)?
        .text(node.name.as_str())?
        .number(rows)
}

fn rows_at(rows: &[u64], node: usize) -> u64
    ensures { result ≡ slice_index_or rows.now node 0 }
{
    match rows.get(node) {
        Some(count) => *count,
        None => 0,
    }
}

/// Puts the record of each node's size to those before it.
fn push_sizes(
    alloc: Global,
    records: &mut Items<Fields>,
    nodes: &[Node],
    rows: &[u64],
) -> Result<(), AllocError>
    ensures { OnOk result (records.new ≡ records.old ++ sizes rows.now 0 nodes.now) }
{
    for (number, node) in nodes.iter().enumerate() {
        records.push(size_record(alloc, node, rows_at(rows, number))?)?;
    }
    Ok(())
}

/// The records of the summary of a run of so many steps, by what it ends with.
pub(crate) fn summary(
    alloc: Global,
    run: &Run,
    steps: u32,
    totals: &Totals,
) -> Result<Items<Fields>, AllocError>
    requires { IsDone run.now steps totals.now.records totals.now.rows }
    ensures { IfOk result (λ records. records_text records ≡ summary_text run.now steps) }
{
    let mut records = Items::new(alloc);
    records.push(demo_record(alloc, steps, totals.records)?)?;
    push_sizes(
        alloc,
        &mut records,
        run.plan.nodes.as_slice(),
        totals.rows.as_slice(),
    )?;
    records.push(done_record(alloc, u64::from(steps))?)?;
    Ok(records)
}
