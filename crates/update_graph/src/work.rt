//! What a node keeps from step to step, and how a step advances it.

ghost use Rattle.std.specs.Prelude.{◌≡◌, ◌+◌, ◌<◌, ◌≤◌, IfOk, None, OnOk, false, length, map, true};
ghost use Rattle.std.specs.Arc.{arc_value};
ghost use Rattle.std.specs.List.{AllByRecursion};
ghost use Rattle.operators.specs.Operating.{idled};
ghost use Rattle.tick_laws.specs.Reached.{table_before};
ghost use Rattle.tick_model.specs.Evaluation.{Fault, outcome_at, source_number, table_at};
ghost use Rattle.tick_model.specs.Operators.{fault_of, inputs_of};
ghost use Rattle.tick_model.specs.Sources.{unchanged};
ghost use Rattle.tick_model.specs.States.{state as state_of};
ghost use Rattle.tick_model.specs.declared.table.NodeFault.{NodeFault};
ghost use Rattle.tick_table.specs.Exact.{IsExact, ticking};
ghost use Rattle.tick_table.specs.Ticking.{Ticking};
ghost use Rattle.update_graph.specs.Entered.{IsEntered};
ghost use Rattle.update_graph.specs.Faults.{fault_in};
ghost use Rattle.update_graph.specs.Graphs.{AreSources};
ghost use Rattle.update_graph.specs.Stands.{Follows, HasReadOnce, HasStepped, IsKept, IsReady, Stays, all_defined, is_defined, most_reads, most_tried, reads_of, shown};
ghost use Rattle.update_graph.specs.Tags.{is_operator, named, op_at, tag};

use crate::context::StepContext;
use crate::shares::{Share, Shares};
use crate::sources::{change_table, rest_table};
use graph_words::Tagged;
use operators::{Operator, StepFault};
use std::alloc::{AllocError, Global};
use std::marker::Model;
use std::snapshot::Snapshot;
use std::sync::ledger::Ledger;
use tick_io::{Gate, Inside, OpenGate};
use tick_model::feed::Run;
use tick_model::items::Items;
use tick_model::table::NodeFault;
use tick_table::{Shared, Steps};

/// A node's operator, and the table that it changes.
#[derive(Drop)]
pub(crate) struct LiveNode {
    pub(crate) operator: Operator,
    pub(crate) table: Shared,
}

/// What is kept of a node.
#[derive(Drop)]
pub(crate) enum State {
    /// It is a source, whose table is kept with those of all sources, at this place.
    Source(usize),
    /// It has a table. What it keeps lies in a place of its own, which changes hands where the node is idle.
    Defined(Box<LiveNode>),
    /// It has none although its inputs have theirs.
    Failed(NodeFault),
    /// It has none since an input has none.
    Undefined,
}

/// What a node keeps at a step. A contract sees the node, the step and the run, which say what is kept: an operator that stands
/// for the tables of the inputs at that step and the node's own table, or why there are none. And it sees what the operator has
/// read in each of its steps.
pub struct Work {
    run: Snapshot<Run>,
    node: u32,
    step: u64,
    state: State,
}

impl Drop for Work {
    fn drop(self) {
        let Self {
            run: _,
            node: _,
            step: _,
            state: _,
        } = self;
    }
}

impl Model for Work {
    ghost use Rattle.std.specs.Coded.{codes};
    ghost use Rattle.tick_model.specs.contracts.plan.Expr as expr_type;
    ghost use Rattle.tick_model.specs.contracts.plan.Pred as pred_type;
    ghost use Rattle.update_graph.specs.Stands.{IsKept, reads_of};
    ghost use Rattle.update_graph.specs.Tags.{Kept};

    ghost Value = { Kept };

    ghost coded = { Prim.hlevel (codes, expr_type.the_row.coded, pred_type.the_row.coded) };

    ghost view = { λ work. record { run = work.run.value; node = work.node; step = work.step; reads = reads_of work.state } };

    ghost invariant = { λ work. IsKept work.run.value work.step work.node work.state };
}

impl Tagged for Work {
    ghost run = { λ work. work.run };

    ghost node = { λ work. work.node };

    ghost step = { λ work. work.step };

    ghost follows = { Follows };
}

impl Work {
    /// What is kept of a node.
    fn new(run: &Run, node: u32, step: u64, state: State) -> Work
        requires { IsKept run.now step node state }
        ensures work { named result ≡ tag run.now step node }
        ensures reads { result.reads ≡ reads_of state }
    {
        Work {
            run: Snapshot::of(run),
            node,
            step,
            state,
        }
    }

    /// What is kept of a source.
    pub(crate) fn of_source(run: &Run, node: u32, step: u64, place: usize) -> Work
        requires source { is_operator run.now node ≡ false }
        requires defined { is_defined run.now step node ≡ true }
        requires place { place ≡ source_number run.now.plan.nodes node }
        ensures { named result ≡ tag run.now step node }
    {
        Work::new(run, node, step, State::Source(place))
    }

    /// What is kept of a node with an operator at the next step, and what it hands on. Its operator steps once, or does nothing
    /// where no input changes or one has no table. A graph advances its nodes inside the gate of its cycle; this call is inside a gate
    /// that holds up nothing. After a refusal the work is given up. Whatever the answer, also where the node fails, no more is read
    /// than for the change that its operator makes or would make of those of its inputs.
    pub fn advance<L: Ledger>(
        self,
        alloc: Global,
        run: &Run,
        shares: Items<Share>,
        reads: &mut Steps<L>,
    ) -> Result<(Work, Share), AllocError>
        requires run { self.run ≡ run.now }
        requires entered { IsEntered run.now (self.step + 1) }
        requires node { self.node < length run.now.plan.nodes }
        requires operator { is_operator run.now self.node ≡ true }
        requires shares { shares ≡ map (tag run.now (self.step + 1)) (inputs_of (op_at run.now self.node)) }
        ensures work { IfOk result (λ out. named out.0 ≡ tag run.now (self.step + 1) self.node) }
        ensures follows { IfOk result (λ out. Follows self out.0) }
        ensures share { IfOk result (λ out. out.1 ≡ tag run.now (self.step + 1) self.node) }
        ensures reads { is_defined run.now (self.step + 1) self.node ≡ true → reads.new ≤ reads.old + most_reads run.now (self.step + 1) self.node }
        ensures tried { reads.new ≤ reads.old + most_tried run.now (self.step + 1) self.node }
        ensures none { all_defined shares ≡ false → reads.new ≡ reads.old }
    {
        let gate = OpenGate;
        let context = StepContext {
            alloc,
            run,
            step: self.step + 1,
        };
        let node = self.node;
        let shares = Shares::of(alloc, shares)?;
        let inside = gate.admit(node);
        let advanced = self.take_step(&context, node, shares, reads, &inside);
        gate.dismiss(inside);
        advanced
    }

    /// The same, where the gate of the step was entered for the node and is not left yet.
    pub(crate) fn take_step<L: Ledger>(
        self,
        context: &StepContext<'_>,
        node: u32,
        shares: Shares,
        reads: &mut Steps<L>,
        inside: &Inside,
    ) -> Result<(Work, Share), AllocError>
        requires inside { inside.now.node ≡ node }
        requires work { named self ≡ tag context.now.run.now self.step node }
        requires next { self.step + 1 ≡ context.now.step }
        requires entered { IsEntered context.now.run.now context.now.step }
        requires node { node < length context.now.run.now.plan.nodes }
        requires operator { is_operator context.now.run.now node ≡ true }
        requires shares { shares ≡ map (tag context.now.run.now context.now.step) (inputs_of (op_at context.now.run.now node)) }
        ensures work { IfOk result (λ out. named out.0 ≡ tag context.now.run.now context.now.step node) }
        ensures follows { IfOk result (λ out. Follows self out.0) }
        ensures share { IfOk result (λ out. out.1 ≡ tag context.now.run.now context.now.step node) }
        ensures tried { reads.new ≤ reads.old + most_tried context.now.run.now context.now.step node }
        ensures none { all_defined shares ≡ false → reads.new ≡ reads.old }
    {
        let ready = self.into_ready(context.run, context.step, node);
        if shares.all_stay() {
            drop(shares);
            return stay(context, node, ready, inside);
        }
        let ready = Box::into_inner(ready);
        advance_inside(context, node, ready, shares, reads, inside)
    }

    /// The operator and the table of a node, before a step that the run enters. Each node has its table then.
    pub(crate) fn into_ready(self, run: &Run, step: u64, node: u32) -> Box<LiveNode>
        requires work { named self ≡ tag run.now self.step node }
        requires next { self.step + 1 ≡ step }
        requires entered { IsEntered run.now step }
        requires node { node < length run.now.plan.nodes }
        requires operator { is_operator run.now node ≡ true }
        ensures ready { IsReady run.now (table_before run.now step) step node result.value.operator result.value.table }
        ensures exact { IsExact (arc_value {X = Ticking} result.value.table) }
        ensures clear { fault_of (op_at run.now node) (table_before run.now step) ≡ None }
        ensures reads { result.value.operator.reads ≡ self.reads }
    {
        let _ = run;
        let Work {
            run: _,
            node: _,
            step: _,
            state,
        } = self;
        match state {
            State::Defined(ready) => ready,
            State::Source(_) => unreachable!(),
            State::Failed(_) => unreachable!(),
            State::Undefined => unreachable!(),
        }
    }

    /// The table of a node that has one. That of a source is among these.
    pub(crate) fn table<'a>(&'a self, sources: &'a [Shared]) -> &'a Shared
        requires entered { IsEntered self.now.run self.now.step }
        requires node { self.now.node < length self.now.run.plan.nodes }
        requires defined { is_defined self.now.run self.now.step self.now.node ≡ true }
        requires sources { AreSources self.now.run self.now.step sources.now }
        ensures { arc_value {X = Ticking} result.now ≡ shown self.now.run self.now.step self.now.node }
    {
        match &self.state {
            State::Source(place) => &sources[*place],
            State::Defined(ready) => &ready.table,
            State::Failed(_) => unreachable!(),
            State::Undefined => unreachable!(),
        }
    }

    /// The operator of a node that has a table.
    pub(crate) fn operator(&self) -> &Operator
        requires operator { is_operator self.now.run self.now.node ≡ true }
        requires defined { is_defined self.now.run self.now.step self.now.node ≡ true }
        ensures op { result.now.op ≡ op_at self.now.run self.now.node }
        ensures reads { result.now.reads ≡ self.now.reads }
        ensures stepped { HasStepped self.now.run (self.now.step + 1) self.now.node result.now.reads }
    {
        match &self.state {
            State::Source(_) => unreachable!(),
            State::Defined(ready) => &ready.operator,
            State::Failed(_) => unreachable!(),
            State::Undefined => unreachable!(),
        }
    }

    /// Why the node has no table although its inputs have theirs. Where it has one, and an operator, this has taken its steps.
    pub(crate) fn fault(&self) -> Option<NodeFault>
        ensures fault { result ≡ fault_in (outcome_at (state_of self.now.run self.now.step) self.now.node) }
        ensures stepped { is_operator self.now.run self.now.node ≡ true → is_defined self.now.run self.now.step self.now.node ≡ true
            → HasStepped self.now.run (self.now.step + 1) self.now.node self.now.reads }
    {
        match &self.state {
            State::Source(_) => None,
            State::Defined(_) => None,
            State::Failed(fault) => Some(*fault),
            State::Undefined => None,
        }
    }
}

/// A node that has no table, for this reason.
fn without_table(run: &Run, node: u32, step: u64, state: State) -> (Work, Share)
    requires kept { IsKept run.now step node state }
    requires undefined { is_defined run.now step node ≡ false }
    ensures work { named result.0 ≡ tag run.now step node }
    ensures share { result.1 ≡ tag run.now step node }
{
    (
        Work::new(run, node, step, state),
        Share::new(run, node, step, None),
    )
}

/// A node that has a table.
fn with_table(
    alloc: Global,
    run: &Run,
    node: u32,
    step: u64,
    ready: LiveNode,
) -> Result<(Work, Share), AllocError>
    requires defined { is_defined run.now step node ≡ true }
    requires ready { IsReady run.now (table_at (state_of run.now step)) (step + 1) node ready.operator ready.table }
    requires table { arc_value {X = Ticking} ready.table ≡ shown run.now step node }
    ensures work { IfOk result (λ out. named out.0 ≡ tag run.now step node) }
    ensures reads { IfOk result (λ out. out.0.reads ≡ ready.operator.reads) }
    ensures share { IfOk result (λ out. out.1 ≡ tag run.now step node) }
{
    let held = Box::new(alloc, ready)?;
    holding(run, node, step, held)
}

/// A node that has a table, with its operator where it lies.
fn holding(
    run: &Run,
    node: u32,
    step: u64,
    ready: Box<LiveNode>,
) -> Result<(Work, Share), AllocError>
    requires defined { is_defined run.now step node ≡ true }
    requires ready { IsReady run.now (table_at (state_of run.now step)) (step + 1) node ready.value.operator ready.value.table }
    requires table { arc_value {X = Ticking} ready.value.table ≡ shown run.now step node }
    ensures work { IfOk result (λ out. named out.0 ≡ tag run.now step node) }
    ensures reads { IfOk result (λ out. out.0.reads ≡ ready.value.operator.reads) }
    ensures share { IfOk result (λ out. out.1 ≡ tag run.now step node) }
{
    let table = ready.table.clone()?;
    Ok((
        Work::new(run, node, step, State::Defined(ready)),
        Share::new(run, node, step, Some(table)),
    ))
}

/// What a node keeps after a step in which nothing of it changes: its operator takes a step in which it does nothing, and its
/// table tells of no change.
fn rest(alloc: Global, ready: Box<LiveNode>) -> Result<Box<LiveNode>, AllocError>
    requires { IsExact (arc_value {X = Ticking} ready.value.table) }
    ensures operator { IfOk result (λ resting. resting.value.operator ≡ idled ready.value.operator) }
    ensures table { IfOk result (λ resting. arc_value {X = Ticking} resting.value.table ≡ ticking (unchanged (arc_value {X = Ticking} ready.value.table).new)) }
{
    let mut ready = ready;
    ready.operator.idle();
    if ready.table.update().is_empty() {
        return Ok(ready);
    }
    rest_table(alloc, &mut ready.table)?;
    Ok(ready)
}

/// A node none of whose inputs changes in a step: its operator does nothing, and its table stays as it is.
pub(crate) fn stay(
    context: &StepContext<'_>,
    node: u32,
    ready: Box<LiveNode>,
    inside: &Inside,
) -> Result<(Work, Share), AllocError>
    requires inside { inside.now.node ≡ node }
    requires entered { IsEntered context.now.run.now context.now.step }
    requires node { node < length context.now.run.now.plan.nodes }
    requires operator { is_operator context.now.run.now node ≡ true }
    requires clear { fault_of (op_at context.now.run.now node) (table_before context.now.run.now context.now.step) ≡ None }
    requires ready { IsReady context.now.run.now (table_before context.now.run.now context.now.step) context.now.step node ready.value.operator ready.value.table }
    requires exact { IsExact (arc_value {X = Ticking} ready.value.table) }
    requires inputs { AllByRecursion (Stays context.now.run.now context.now.step) (inputs_of (op_at context.now.run.now node)) }
    ensures work { IfOk result (λ out. named out.0 ≡ tag context.now.run.now context.now.step node) }
    ensures once { IfOk result (λ out. HasReadOnce ready.value.operator.reads out.0.reads) }
    ensures share { IfOk result (λ out. out.1 ≡ tag context.now.run.now context.now.step node) }
{
    let _ = inside;
    let ready = rest(context.alloc, ready)?;
    holding(context.run, node, context.step, ready)
}

/// What it is for a node that a step of its operator is refused.
fn without_step(
    run: &Run,
    node: u32,
    step: u64,
    fault: StepFault,
) -> Result<(Work, Share), AllocError>
    requires { (kind : NodeFault) → fault ≡ StepFault.Node kind → outcome_at (state_of run.now step) node ≡ Fault kind }
    ensures work { IfOk result (λ out. named out.0 ≡ tag run.now step node) }
    ensures share { IfOk result (λ out. out.1 ≡ tag run.now step node) }
    ensures undefined { OnOk result (is_defined run.now step node ≡ false) }
{
    match fault {
        StepFault::Memory => Err(AllocError),
        StepFault::Node(kind) => Ok(without_table(run, node, step, State::Failed(kind))),
    }
}

/// A node with an operator after a step, from what it has before it, and what it hands on. The shares are those of its inputs.
pub(crate) fn advance_inside<L: Ledger>(
    context: &StepContext<'_>,
    node: u32,
    ready: LiveNode,
    shares: Shares,
    reads: &mut Steps<L>,
    inside: &Inside,
) -> Result<(Work, Share), AllocError>
    requires inside { inside.now.node ≡ node }
    requires entered { IsEntered context.now.run.now context.now.step }
    requires node { node < length context.now.run.now.plan.nodes }
    requires operator { is_operator context.now.run.now node ≡ true }
    requires ready { IsReady context.now.run.now (table_before context.now.run.now context.now.step) context.now.step node ready.operator ready.table }
    requires shares { shares ≡ map (tag context.now.run.now context.now.step) (inputs_of (op_at context.now.run.now node)) }
    ensures work { IfOk result (λ out. named out.0 ≡ tag context.now.run.now context.now.step node) }
    ensures once { IfOk result (λ out. is_defined context.now.run.now context.now.step node ≡ true → HasReadOnce ready.operator.reads out.0.reads) }
    ensures share { IfOk result (λ out. out.1 ≡ tag context.now.run.now context.now.step node) }
    ensures tried { reads.new ≤ reads.old + most_tried context.now.run.now context.now.step node }
    ensures none { all_defined shares ≡ false → reads.new ≡ reads.old }
{
    let _ = inside;
    let handed = shares.tables(context.alloc)?;
    drop(shares);
    match handed {
        Some(inputs) => {
            let LiveNode {
                operator,
                mut table,
            } = ready;
            match operator.step(context.alloc, &table, &inputs, reads) {
                Ok((operator, change)) => {
                    change_table(context.alloc, &mut table, change)?;
                    let ready = LiveNode { operator, table };
                    with_table(context.alloc, context.run, node, context.step, ready)
                }
                Err(fault) => without_step(context.run, node, context.step, fault),
            }
        }
        None => {
            drop(ready);
            Ok(without_table(context.run, node, context.step, State::Undefined))
        }
    }
}
