//! Step 0: each operator is made, and begins over no rows.

ghost use Rattle.std.specs.Prelude.{◌≡◌, ◌+◌, ◌<◌, ◌≤◌, IfOk, OnOk, length, true};
ghost use Rattle.std.specs.List.{AllByRecursion};
ghost use Rattle.table_operator.specs.Inputs.{tables};
ghost use Rattle.operators.specs.Planned.{input_widths};
ghost use Rattle.tick_model.specs.Operators.{inputs_of as inputs_in};
ghost use Rattle.tick_model.specs.LawfulRuns.{IsLawfulRun};
ghost use Rattle.tick_model.specs.Plans.{columns_at};
ghost use Rattle.tick_model.specs.States.{empty_at};
ghost use Rattle.update_graph.specs.Entered.{IsEntered};
ghost use Rattle.update_graph.specs.Graphs.{sources_shown};
ghost use Rattle.update_graph.specs.Stands.{IsReady};
ghost use Rattle.update_graph.specs.Sweeps.{IsSwept};
ghost use Rattle.update_graph.specs.Tags.{is_operator, op_at};

use crate::context::StepContext;
use crate::sweep::{Sweep, shares_for};
use crate::work::{LiveNode, advance_inside};
use new_counts::new_count;
use operators::Operator;
use std::alloc::{AllocError, Global};
use std::sync::Arc;
use std::sync::ledger::{Blank, Ledger};
use tick_io::{Gate, OpenGate};
use tick_model::feed::Run;
use tick_model::plan::Op;
use tick_model::sources::is_source;
use tick_table::{Shared, Steps, TickTable};

/// How many columns a node has.
fn width_of(run: &Run, node: u32) -> u32
    requires lawful { IsLawfulRun run.now }
    requires node { node < length run.now.plan.nodes }
    ensures width { result ≡ length (columns_at run.now.plan.nodes node) }
    ensures some { 1 ≤ result }
    ensures few { result ≤ 32 }
{
    let own = &run.plan.nodes.as_slice()[node as usize];
    own.columns.len() as u32
}

/// The widths of the nodes that an operator reads.
fn widths_of(alloc: Global, run: &Run, op: &Op) -> Result<Vec<u32>, AllocError>
    requires lawful { IsLawfulRun run.now }
    requires inputs { AllByRecursion (λ input. input < length run.now.plan.nodes) (inputs_in op.now) }
    ensures { IfOk result (λ widths. widths.items ≡ input_widths run.now.plan op.now) }
{
    let inputs = op.inputs();
    let inputs = inputs.as_slice();
    let mut widths = Vec::with_capacity(alloc, inputs.len())?;
    for input in inputs {
        let width = width_of(run, *input);
        widths.push(width)?;
    }
    Ok(widths)
}

/// The operator of a node, and its table, before step 0.
fn fresh(alloc: Global, run: &Run, node: u32, op: &Op) -> Result<LiveNode, AllocError>
    requires lawful { IsLawfulRun run.now }
    requires node { node < length run.now.plan.nodes }
    requires operator { is_operator run.now node ≡ true }
    requires op { op.now ≡ op_at run.now node }
    ensures { IfOk result (λ ready. IsReady run.now (empty_at run.now.plan) 0 node ready.operator ready.table) }
{
    let widths = widths_of(alloc, run, op)?;
    let own = TickTable::new(alloc, width_of(run, node))?;
    let table = Arc::new(alloc, own)?;
    match Operator::new(alloc, op, &widths) {
        Ok(operator) => Ok(LiveNode { operator, table }),
        Err(error) => Err(error),
    }
}

/// The next node at step 0: a source hands on its table, and an operator is made and worked.
fn open_node<L: Ledger>(
    alloc: Global,
    run: &Run,
    sources: &[Shared],
    sweep: &mut Sweep,
    reads: &mut Steps<L>,
) -> Result<(), AllocError>
    requires entered { IsEntered run.now 0 }
    requires sources { tables sources.now ≡ sources_shown run.now 0 }
    requires swept { IsSwept run.now 0 (length sweep.old.works.items) sweep.old }
    requires node { length sweep.old.works.items < length run.now.plan.nodes }
    ensures { OnOk result (IsSwept run.now 0 (length sweep.old.works.items + 1) sweep.new) }
{
    let node = &run.plan.nodes.as_slice()[sweep.works.len()];
    if is_source(node) {
        return sweep.put_source(run, 0, sources);
    }
    let number = sweep.works.len() as u32;
    let shares = shares_for(alloc, run, 0, &node.op, &sweep.shares)?;
    let ready = fresh(alloc, run, number, &node.op)?;
    let gate = OpenGate;
    let context = StepContext {
        alloc,
        run,
        step: 0,
    };
    let inside = gate.admit(number);
    let opened = advance_inside(&context, number, ready, shares, reads, &inside);
    gate.dismiss(inside);
    let (work, share) = opened?;
    sweep.put(run, 0, work, share)
}

/// All nodes at step 0.
pub(crate) fn open_all<L: Ledger>(
    alloc: Global,
    run: &Run,
    sources: &[Shared],
    blank: Blank,
) -> Result<Sweep, AllocError>
    requires name { blank.name ≡ L.name }
    requires parts { blank.parts ≡ L.parts }
    requires some { 0 < blank.parts }
    requires entered { IsEntered run.now 0 }
    requires sources { tables sources.now ≡ sources_shown run.now 0 }
    ensures { IfOk result (IsSwept run.now 0 (length run.now.plan.nodes)) }
{
    let mut reads = Steps::<L>::new(blank, new_count());
    let mut sweep = Sweep::new(alloc);
    for _ in 0..run.plan.nodes.len() {
        open_node(alloc, run, sources, &mut sweep, &mut reads)?;
    }
    Ok(sweep)
}
