//! The nodes of a step, one after the other.

ghost use Rattle.std.specs.Prelude.{◌≡◌, ◌+◌, ◌<◌, ◌≤◌, ◌++◌, ◌∷◌, IfOk, OnOk, [], false, length, map, true};
ghost use Rattle.std.specs.List.{AllByRecursion};
ghost use Rattle.table_operator.specs.Inputs.{tables};
ghost use Rattle.tick_model.specs.Evaluation.{source_number};
ghost use Rattle.tick_model.specs.Operators.{inputs_of as inputs_in};
ghost use Rattle.tick_model.specs.LawfulRuns.{IsLawfulRun};
ghost use Rattle.update_graph.specs.Entered.{IsEntered};
ghost use Rattle.update_graph.specs.Graphs.{AreSources, sources_shown};
ghost use Rattle.update_graph.specs.Stands.{Stays};
ghost use Rattle.update_graph.specs.Sweeps.{GrowsBy, IsSwept};
ghost use Rattle.update_graph.specs.Tags.{is_operator, named, tag, tags};

use crate::shares::{Share, Shares};
use crate::work::Work;
use std::alloc::{AllocError, Global};
use tick_model::feed::Run;
use tick_model::plan::Op;
use tick_table::Shared;

/// The nodes that a step has reached, in order of their numbers.
#[derive(Drop)]
pub(crate) struct Sweep {
    /// What each keeps.
    pub(crate) works: Vec<Work>,
    /// What each hands on.
    pub(crate) shares: Vec<Share>,
    /// Those that have an operator.
    pub(crate) ran: Vec<u32>,
    /// How many of them are sources.
    pub(crate) sources: usize,
}

/// What the inputs of an operator hand to it.
pub(crate) fn shares_for(
    alloc: Global,
    run: &Run,
    step: u64,
    op: &Op,
    shares: &[Share],
) -> Result<Shares, AllocError>
    requires shares { shares.now ≡ tags run.now step (length shares.now) }
    requires inputs { AllByRecursion (λ input. input < length shares.now) (inputs_in op.now) }
    ensures { IfOk result (λ handed. handed ≡ map (tag run.now step) (inputs_in op.now)) }
{
    let _ = step;
    let mut handed = Shares::new(alloc);
    let inputs = op.inputs();
    let inputs = inputs.as_slice();
    for input in inputs {
        let share = shares[*input as usize].copy(run)?;
        handed.push(share)?;
    }
    Ok(handed)
}

/// Whether a node has a table that a step does not change.
fn node_stays(run: &Run, step: u64, node: u32, shares: &[Share]) -> bool
    requires shares { shares.now ≡ tags run.now step (length shares.now) }
    requires node { node < length shares.now }
    ensures { result ≡ true → Stays run.now step node }
{
    let _ = run;
    let _ = step;
    shares[node as usize].stays()
}

/// Whether no input of an operator changes in a step. Each of them has a table then.
pub(crate) fn inputs_stay(run: &Run, step: u64, op: &Op, shares: &[Share]) -> bool
    requires shares { shares.now ≡ tags run.now step (length shares.now) }
    requires inputs { AllByRecursion (λ input. input < length shares.now) (inputs_in op.now) }
    ensures { result ≡ true → AllByRecursion (Stays run.now step) (inputs_in op.now) }
{
    all_stay(run, step, op.inputs().as_slice(), shares)
}

/// Whether none of these nodes changes in a step. Each of them has a table then.
fn all_stay(run: &Run, step: u64, nodes: &[u32], shares: &[Share]) -> bool
    requires shares { shares.now ≡ tags run.now step (length shares.now) }
    requires nodes { AllByRecursion (λ node. node < length shares.now) nodes.now }
    ensures { result ≡ true → AllByRecursion (Stays run.now step) nodes.now }
{
    for node in nodes {
        if !node_stays(run, step, *node, shares) {
            return false;
        }
    }
    true
}

/// What a source keeps and hands on at a step.
pub(crate) fn source_at(
    run: &Run,
    step: u64,
    node: u32,
    sources: &[Shared],
    place: usize,
) -> Result<(Work, Share), AllocError>
    requires entered { IsEntered run.now step }
    requires sources { AreSources run.now step sources.now }
    requires node { node < length run.now.plan.nodes }
    requires source { is_operator run.now node ≡ false }
    requires place { place ≡ source_number run.now.plan.nodes node }
    ensures work { IfOk result (λ out. named out.0 ≡ tag run.now step node) }
    ensures share { IfOk result (λ out. out.1 ≡ tag run.now step node) }
{
    let table = sources[place].clone()?;
    let work = Work::of_source(run, node, step, place);
    let share = Share::new(run, node, step, Some(table));
    Ok((work, share))
}

impl Sweep {
    /// No node.
    pub(crate) fn new(alloc: Global) -> Sweep
        ensures works { result.works.items ≡ [] }
        ensures shares { result.shares.items ≡ [] }
        ensures ran { result.ran.items ≡ [] }
        ensures sources { result.sources ≡ 0 }
    {
        Sweep {
            works: Vec::new(alloc),
            shares: Vec::new(alloc),
            ran: Vec::new(alloc),
            sources: 0,
        }
    }

    /// The next node is a source, and hands on its table.
    pub(crate) fn put_source(
        &mut self,
        run: &Run,
        step: u64,
        sources: &[Shared],
    ) -> Result<(), AllocError>
        requires entered { IsEntered run.now step }
        requires swept { IsSwept run.now step (length self.old.works.items) self.old }
        requires node { length self.old.works.items < length run.now.plan.nodes }
        requires source { is_operator run.now (length self.old.works.items) ≡ false }
        requires sources { tables sources.now ≡ sources_shown run.now step }
        ensures swept { OnOk result (IsSwept run.now step (length self.old.works.items + 1) self.new) }
        ensures works { OnOk result (GrowsBy (λ next. is_operator next.run next.node ≡ false) self.old.works.items self.new.works.items) }
    {
        let node = self.works.len() as u32;
        let (work, share) = source_at(run, step, node, sources, self.sources)?;
        self.works.push(work)?;
        self.shares.push(share)?;
        self.sources += 1;
        Ok(())
    }

    /// The next node has an operator, and was worked.
    pub(crate) fn put(
        &mut self,
        run: &Run,
        step: u64,
        work: Work,
        share: Share,
    ) -> Result<(), AllocError>
        requires swept { IsSwept run.now step (length self.old.works.items) self.old }
        requires node { length self.old.works.items < length run.now.plan.nodes }
        requires lawful { IsLawfulRun run.now }
        requires operator { is_operator run.now (length self.old.works.items) ≡ true }
        requires work { named work ≡ tag run.now step (length self.old.works.items) }
        requires share { share ≡ tag run.now step (length self.old.works.items) }
        ensures swept { OnOk result (IsSwept run.now step (length self.old.works.items + 1) self.new) }
        ensures works { OnOk result (self.new.works.items ≡ self.old.works.items ++ work ∷ []) }
    {
        let _ = run;
        let _ = step;
        let node = self.works.len() as u32;
        self.works.push(work)?;
        self.shares.push(share)?;
        self.ran.push(node)?;
        Ok(())
    }
}
