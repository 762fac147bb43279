//! What a step prints.
ghost use Rattle.std.specs.Io.KnownBytes.{append_known};
ghost use Rattle.std.specs.Prelude.{◌≡◌, ◌≤◌, ◌<◌, IfOk, IsErrOf, OnErr, OnOk, length, map};
ghost use Rattle.tick_io.specs.Counts.{Rose};
ghost use Rattle.tick_io.specs.Written.{AppendsPrefix};
ghost use Rattle.tick_model.specs.Texts.{node_records, records_text, step_records};
ghost use Rattle.replay.specs.Printed.{printed_of};

use crate::printed::PrintedNode;
use std::alloc::Global;
use tick_io::Sink;
use tick_model::items::Items;
use tick_model::name::Name;
use update_graph::Graph;
use update_text::{WriteFault, write_update};

/// Writes what a node prints at the step at which the graph stands, and gives the number of its records.
fn write_node<S: Sink>(
    alloc: Global,
    out: &mut S,
    graph: &Graph,
    texts: &Items<Name>,
    printed: &PrintedNode,
) -> Result<u64, WriteFault>
    requires texts { texts.now ≡ graph.now.run.texts }
    requires node { printed.now.node < length graph.now.run.plan.nodes }
    requires shown { printed.now ≡ printed_of graph.now.run printed.now.node }
    ensures count { IfOk result (λ count. count ≡ length (node_records graph.now.run graph.now.step printed.now.node)) }
    ensures whole { OnOk result (S.bytes out.new ≡ append_known (S.bytes out.old) (records_text (node_records graph.now.run graph.now.step printed.now.node))) }
    ensures err { OnErr result (AppendsPrefix (S.bytes out.old) (S.bytes out.new) (records_text (node_records graph.now.run graph.now.step printed.now.node))) }
    ensures failed { IsErrOf result WriteFault.Failed → Rose (S.failures out.old) (S.failures out.new) }
    ensures never_falls { S.failures out.old ≤ S.failures out.new }
    ensures steady { OnOk result (S.failures out.new ≡ S.failures out.old) }
{
    let step = graph.step();
    let table = graph.table(printed.node);
    write_update(alloc, out, step, &printed.shown, texts, table)
}

/// Writes what the printed nodes print at the step at which the graph stands, in their order, and gives the number of the records.
pub(crate) fn write_step<S: Sink>(
    alloc: Global,
    out: &mut S,
    graph: &Graph,
    texts: &Items<Name>,
    printed: &[PrintedNode],
) -> Result<u64, WriteFault>
    requires texts { texts.now ≡ graph.now.run.texts }
    requires printed { printed.now ≡ map (printed_of graph.now.run) graph.now.run.plan.printed }
    ensures count { IfOk result (λ count. count ≡ length (step_records graph.now.run graph.now.step)) }
    ensures whole { OnOk result (S.bytes out.new ≡ append_known (S.bytes out.old) (records_text (step_records graph.now.run graph.now.step))) }
    ensures err { OnErr result (AppendsPrefix (S.bytes out.old) (S.bytes out.new) (records_text (step_records graph.now.run graph.now.step))) }
    ensures failed { IsErrOf result WriteFault.Failed → Rose (S.failures out.old) (S.failures out.new) }
    ensures never_falls { S.failures out.old ≤ S.failures out.new }
    ensures steady { OnOk result (S.failures out.new ≡ S.failures out.old) }
{
    let _step = graph.step();
    let mut records = 0;
    for node in printed {
        records += write_node(alloc, out, graph, texts, node)?;
    }
    Ok(records)
}
