//! The edges of a plan.

ghost use Rattle.std.specs.Prelude.{◌≡◌, ◌∷◌, [], ◌+◌, ◌++◌, ◌<◌, ◌≤◌, ◌^◌, ℕ, IfOk, OnOk, length};
ghost use mathlib.Core.Option.{some};
ghost use lib.ListN.{get_elem?};
ghost use Rattle.graph_words.specs.declared.graph.Edge.{Edge};
ghost use Rattle.tick_model.specs.LawfulRuns.{IsLawfulRun};
ghost use Rattle.update_graph.specs.Edges.{comes_from, edges_of, goes_to, input_edges, numbers_at, numbers_of};

use graph_words::Edge;
use std::alloc::{AllocError, Global};
use std::marker::Model;
use tick_model::feed::Run;

/// Adds the edges from the inputs of a node.
fn add_edges(edges: &mut Vec<Edge>, node: u32, inputs: &[u32]) -> Result<(), AllocError>
    requires { length inputs.now ≤ 4294967295 }
    ensures { OnOk result (edges.new.items ≡ edges.old.items ++ input_edges node 0 inputs.now) }
{
    for (port, input) in inputs.iter().enumerate() {
        edges.push(Edge {
            from: *input,
            to: node,
            port: port as u32,
        })?;
    }
    Ok(())
}

/// All edges, in order of the nodes that they go to and of the places among their inputs.
fn all_edges(alloc: Global, run: &Run) -> Result<Vec<Edge>, AllocError>
    requires { IsLawfulRun run.now }
    ensures { IfOk result (λ edges. edges.items ≡ edges_of run.now.plan) }
{
    let mut edges = Vec::new(alloc);
    for (node, own) in run.plan.nodes.as_slice().iter().enumerate() {
        let inputs = own.op.inputs();
        add_edges(&mut edges, node as u32, inputs.as_slice())?;
    }
    Ok(edges)
}

/// So many empty lists.
fn empty_lists(alloc: Global, count: usize) -> Result<Vec<Vec<u32>>, AllocError>
    ensures length { IfOk result (λ lists. length lists.items ≡ count) }
    ensures empty { IfOk result (λ lists. (node : ℕ) → numbers_at lists.items node ≡ []) }
{
    let mut lists = Vec::with_capacity(alloc, count)?;
    for _ in 0..count {
        lists.push(Vec::new(alloc))?;
    }
    Ok(lists)
}

/// Adds the number of an edge to the list of a node.
fn add_number(lists: &mut Vec<Vec<u32>>, node: u32, number: u32) -> Result<(), AllocError>
    requires { node < length lists.old.items }
    ensures length { OnOk result (length lists.new.items ≡ length lists.old.items) }
    ensures added { OnOk result (numbers_at lists.new.items node ≡ numbers_at lists.old.items node ++ number ∷ []) }
    ensures others { OnOk result ((other : ℕ) → (other ≡ node → ⊥) → numbers_at lists.new.items other ≡ numbers_at lists.old.items other) }
{
    lists[node as usize].push(number)?;
    Ok(())
}

/// The edges of a plan, with the numbers of those that go to each node and of those that come from it. A contract sees the edges.
#[derive(Drop)]
pub(crate) struct Edges {
    all: Vec<Edge>,
    inputs: Vec<Vec<u32>>,
    outputs: Vec<Vec<u32>>,
}

impl Model for Edges {
    ghost use Rattle.std.specs.Prelude.{List};
    ghost use Rattle.graph_words.specs.declared.graph.Edge.{Edge};
    ghost use Rattle.update_graph.specs.Edges.{AreNumbers, comes_from, goes_to};

    ghost Value = { List Edge };

    ghost view = { λ edges. edges.all.items };

    ghost invariant = { λ edges. AreNumbers goes_to edges.all.items edges.inputs.items × AreNumbers comes_from edges.all.items edges.outputs.items };
}

impl Edges {
    /// All edges, in order of the nodes that they go to and of the places among their inputs.
    pub(crate) fn of(alloc: Global, run: &Run) -> Result<Edges, AllocError>
        requires { IsLawfulRun run.now }
        ensures { IfOk result (λ edges. edges ≡ edges_of run.now.plan) }
    {
        let all = all_edges(alloc, run)?;
        let nodes = run.plan.nodes.len();
        let mut inputs = empty_lists(alloc, nodes)?;
        let mut outputs = empty_lists(alloc, nodes)?;
        let edges = all.as_slice();
        for (number, edge) in edges.iter().enumerate() {
            add_number(&mut inputs, edge.to, number as u32)?;
            add_number(&mut outputs, edge.from, number as u32)?;
        }
        Ok(Edges {
            all,
            inputs,
            outputs,
        })
    }

    /// The numbers of the edges that go to a node.
    pub(crate) fn inputs(&self, node: u32) -> &[u32]
        ensures { result.now ≡ numbers_of (goes_to node) 0 self.now }
    {
        match self.inputs.get(node as usize) {
            Some(numbers) => numbers,
            None => &[],
        }
    }

    /// The numbers of the edges that come from a node.
    pub(crate) fn outputs(&self, node: u32) -> &[u32]
        ensures { result.now ≡ numbers_of (comes_from node) 0 self.now }
    {
        match self.outputs.get(node as usize) {
            Some(numbers) => numbers,
            None => &[],
        }
    }

    /// The node that an edge goes to.
    pub(crate) fn to(&self, number: u32) -> u32
        requires { number < length self.now }
        ensures { (x : Edge) → get_elem? self.now number ≡ some x → result ≡ x.to }
    {
        self.all[number as usize].to
    }

    /// The same edges once more.
    pub(crate) fn copied(&self, alloc: Global) -> Result<Vec<Edge>, AllocError>
        ensures { IfOk result (λ copied. copied.items ≡ self.now) }
    {
        let edges = self.all.as_slice();
        let mut copied = Vec::with_capacity(alloc, edges.len())?;
        for edge in edges {
            copied.push(Edge {
                from: edge.from,
                to: edge.to,
                port: edge.port,
            })?;
        }
        Ok(copied)
    }
}
