//! A step of all nodes by one thread, in order of their numbers. So each is worked after its inputs, and no claim is made.

ghost use Rattle.std.specs.Prelude.{◌≡◌, ◌+◌, ◌-◌, ◌<◌, ◌≤◌, IfOk, OnOk, length, map};
ghost use Rattle.table_operator.specs.Inputs.{tables};
ghost use Rattle.update_graph.specs.Entered.{IsEntered};
ghost use Rattle.update_graph.specs.Graphs.{sources_shown};
ghost use Rattle.update_graph.specs.Stands.{Follows, ForEach};
ghost use Rattle.update_graph.specs.Sweeps.{GrowsBy, IsSwept};
ghost use Rattle.update_graph.specs.Tags.{named, tag, tags};

use crate::context::CycleContext;
use crate::sweep::{Sweep, inputs_stay, shares_for};
use crate::work::{Work, advance_inside, stay};
use new_counts::new_count;
use std::alloc::AllocError;
use std::sync::ledger::{Blank, Ledger};
use tick_io::Gate;
use tick_model::sources::is_source;
use tick_table::{Shared, Steps};

/// The next node: a source hands on its table, and a node with an operator is advanced, with the gate round it.
fn advance_node<R, G: Gate, L: Ledger>(
    context: &CycleContext<'_, R, G>,
    work: Work,
    sources: &[Shared],
    sweep: &mut Sweep,
    reads: &mut Steps<L>,
) -> Result<(), AllocError>
    requires entered { IsEntered context.now.at.run.now context.now.at.step }
    requires later { 1 ≤ context.now.at.step }
    requires sources { tables sources.now ≡ sources_shown context.now.at.run.now context.now.at.step }
    requires swept { IsSwept context.now.at.run.now context.now.at.step (length sweep.old.works.items) sweep.old }
    requires node { length sweep.old.works.items < length context.now.at.run.now.plan.nodes }
    requires work { named work ≡ tag context.now.at.run.now (context.now.at.step - 1) (length sweep.old.works.items) }
    ensures swept { OnOk result (IsSwept context.now.at.run.now context.now.at.step (length sweep.old.works.items + 1) sweep.new) }
    ensures follows { OnOk result (GrowsBy (Follows work) sweep.old.works.items sweep.new.works.items) }
{
    let at = &context.at;
    let run = at.run;
    let step = at.step;
    let node = &run.plan.nodes.as_slice()[sweep.works.len()];
    if is_source(node) {
        drop(work);
        return sweep.put_source(run, step, sources);
    }
    let number = sweep.works.len() as u32;
    let ready = work.into_ready(run, step, number);
    if inputs_stay(run, step, &node.op, &sweep.shares) {
        let inside = context.gate.admit(number);
        let stayed = stay(at, number, ready, &inside);
        context.gate.dismiss(inside);
        let (work, share) = stayed?;
        return sweep.put(run, step, work, share);
    }
    let shares = shares_for(at.alloc, run, step, &node.op, &sweep.shares)?;
    let ready = Box::into_inner(ready);
    let inside = context.gate.admit(number);
    let advanced = advance_inside(at, number, ready, shares, reads, &inside);
    context.gate.dismiss(inside);
    let (work, share) = advanced?;
    sweep.put(run, step, work, share)
}

/// All nodes at a step, from what they keep at the step before. The tables are those of the sources at the step.
pub(crate) fn advance_all<R, G: Gate, L: Ledger>(
    context: &CycleContext<'_, R, G>,
    works: Vec<Work>,
    sources: &[Shared],
    blank: Blank,
) -> Result<Sweep, AllocError>
    requires name { blank.name ≡ L.name }
    requires parts { blank.parts ≡ L.parts }
    requires some { 0 < blank.parts }
    requires entered { IsEntered context.now.at.run.now context.now.at.step }
    requires later { 1 ≤ context.now.at.step }
    requires sources { tables sources.now ≡ sources_shown context.now.at.run.now context.now.at.step }
    requires works { map named works.items ≡ tags context.now.at.run.now (context.now.at.step - 1) (length context.now.at.run.now.plan.nodes) }
    ensures swept { IfOk result (IsSwept context.now.at.run.now context.now.at.step (length context.now.at.run.now.plan.nodes)) }
    ensures follows { IfOk result (λ sweep. ForEach Follows works.items sweep.works.items) }
{
    let mut reads = Steps::<L>::new(blank, new_count());
    let mut sweep = Sweep::new(context.at.alloc);
    for work in works {
        advance_node(context, work, sources, &mut sweep, &mut reads)?;
    }
    Ok(sweep)
}
