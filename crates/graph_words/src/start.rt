//! The start of the claims: words, slots and the first seat.

ghost use Rattle.std.specs.Prelude.{◌≡◌, ◌<◌, ◌≤◌, ◌+◌, ◌^◌, ◌==◌, ◌++◌, ℕ, IfOk, vec_len, length, map, replicate, slice_index, count_by};
ghost use Rattle.std.specs.List.{list_any};
ghost use mathlib.Core.Option.{some};
ghost use lib.ListN.{get_elem?};
ghost use Rattle.graph_words.specs.declared.graph.Edge.{Edge};
ghost use Rattle.graph_words.specs.declared.table.Slot.TheVariants.{Empty, Work};
ghost use Rattle.graph_words.specs.Marks.{inputs};
ghost use Rattle.graph_words.specs.Rule.{IsTagged, tags};
ghost use Rattle.graph_words.specs.Views.{first_view};
ghost use Rattle.graph_words.specs.Seats.{IsSeatOf};

use crate::claims::{ClaimSeat, Claims};
use crate::graph::{ClaimPlan, Edge, Tagged};
use crate::table::Slot;
use atomic_table::Table;
use std::alloc::{AllocError, Global};
use std::snapshot::Snapshot;

// The table's words: for each node how many of the edges go to it, and 0 for each edge and for the tickets.
fn count_inputs(alloc: Global, edges: &[Edge], nodes: u32) -> Result<Vec<u64>, AllocError>
    requires few { length edges.now < 2 ^ 32 }
    requires ends { (e : ℕ) (x : Edge) → get_elem? edges.now e ≡ some x → x.to < nodes }
    ensures { IfOk result (λ v. (length v.items ≡ nodes + length edges.now + 1) × ((n : ℕ) → n < length v.items → slice_index v.items n ≡ count_by (λ x. x.to == n) edges.now)) }
{
    let mut counts = vec![in alloc; 0u64; nodes as usize + edges.len() + 1]?;
    for edge in edges {
        counts[edge.to as usize] += 1;
    }
    Ok(counts)
}

// The works, and after them so many empty slots.
fn lay_slots<W: Drop, H: Drop>(
    alloc: Global,
    work: Vec<W>,
    count: usize,
) -> Result<Vec<Slot<W, H>>, AllocError>
    requires { length work.items + count < 2 ^ 40 }
    ensures { IfOk result (λ v. v.items ≡ map Work work.items ++ replicate count Empty) }
{
    let mut slots = Vec::with_capacity(alloc, work.len() + count)?;
    for one in work {
        slots.push_reserved(Slot::Work(one));
    }
    for _ in 0..count {
        slots.push_reserved(Slot::Empty);
    }
    Ok(slots)
}

impl<W: Tagged, H: Tagged> Claims<W, H> {
    /// The claims of the step after that of the works, and the first seat. It has all 1,024 parts and every node without
    /// input edges.
    ///
    /// There are 1 to 256 nodes and a work for each, in order of the nodes, all of one run and one step. Each edge goes from
    /// a lesser to a greater node.
    pub fn start(
        alloc: Global,
        nodes: u32,
        edges: Vec<Edge>,
        work: Vec<W>,
    ) -> Result<(Claims<W, H>, ClaimSeat<W, H>), AllocError>
        requires nodes { (0 < nodes) × (nodes ≤ 256) × (length work.items ≡ nodes) }
        requires tagged { (n m : ℕ) (w u : _) → get_elem? work.items n ≡ some w → get_elem? work.items m ≡ some u → IsTagged (tags W.run W.node W.step W.follows) (W.run u) n (W.step u) w }
        requires edges { (length edges.items < 2 ^ 32) × ((e : ℕ) (x : Edge) → get_elem? edges.items e ≡ some x → (x.from < x.to) × (x.to < nodes)) }
        ensures plan { IfOk result (λ t. (t.0.plan.nodes ≡ nodes) × (t.0.plan.edges.items ≡ edges.items) × (get_elem? work.items 0 ≡ some t.0.plan.first.value)) }
        ensures works { IfOk result (λ t. t.0.plan.works.value.items ≡ work.items) }
        ensures seat { IfOk result (λ t. IsSeatOf t.0 t.1 × (t.1.view ≡ first_view t.0.plan)) }
    {
        let first = Snapshot::of(&work[0]);
        let works = Snapshot::of(&work);
        let words = count_inputs(alloc, edges.as_slice(), nodes)?;
        let slots = lay_slots(alloc, work, edges.len())?;
        let plan = ClaimPlan {
            first,
            works,
            nodes,
            edges,
        };
        let Ok((table, seat)) = Table::new(alloc, words.as_slice(), slots, &plan) else {
            return Err(AllocError);
        };
        let ClaimPlan {
            first: _,
            works: _,
            nodes,
            edges,
        } = plan;
        let claims = Claims {
            nodes,
            edges,
            inputs: words,
            alloc,
            table,
        };
        Ok((claims, ClaimSeat { seat }))
    }

    /// True where some edge goes to the node.
    pub fn has_inputs(&self, node: u32) -> bool
        requires { node < self.now.plan.nodes }
        ensures { result ≡ list_any (λ x. x.to == node) self.now.plan.edges.items }
    {
        self.inputs[node as usize] > 0
    }
}
