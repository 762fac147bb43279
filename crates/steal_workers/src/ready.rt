//! Lists of nodes that are ready to be worked.

ghost use Rattle.std.specs.Prelude.{◌≡◌, ◌<◌, ◌++◌, [], ◌∷◌, ℕ, false, eqb, IfSome, MatchOption, length};
ghost use Rattle.std.specs.List.{list_any, IsDistinct};
ghost use Rattle.std.proofs.Props.{props};
ghost use Rattle.steal_workers.specs.Lists.{IsListed};

use arrayvec::ArrayVec;

// Nodes are numbered below this.
const MOST_NODES: usize = 256;

/// A list of at most 256 nodes, all of them different. It takes no memory.
pub struct Ready {
    pub(crate) nodes: ArrayVec<u32, MOST_NODES>,
    ghost distinct: { IsDistinct eqb nodes.items } by { Prim.hlevel props },
    ghost below: { (n : ℕ) → IsListed nodes.items n → n < 256 },
}

impl Drop for Ready {
    fn drop(self) {
        let Self { nodes: _ } = self;
    }
}

impl Ready {
    /// The empty list.
    pub fn new() -> Ready
        ensures { result.nodes.items ≡ [] }
    {
        Ready {
            nodes: ArrayVec::new(),
        }
    }

    /// Appends a node, which is below 256 and not in the list.
    pub fn add(&mut self, node: u32)
        requires below { node < 256 }
        requires fresh { list_any (eqb node) self.old.nodes.items ≡ false }
        ensures { self.new.nodes.items ≡ self.old.nodes.items ++ node ∷ [] }
    {
        self.nodes.push(node);
    }

    /// The nodes, in the order in which they were added.
    pub fn nodes(&self) -> &[u32]
        ensures { result.now ≡ self.now.nodes.items }
    {
        self.nodes.as_slice()
    }

    /// Takes the last node off the list.
    pub(crate) fn pop(&mut self) -> Option<u32>
        ensures nodes { MatchOption result ((self.old.nodes.items ≡ []) × (self.new.nodes.items ≡ [])) (λ node. self.old.nodes.items ≡ self.new.nodes.items ++ node ∷ []) }
        ensures fresh { IfSome result (λ node. list_any (eqb node) self.new.nodes.items ≡ false) }
        ensures below { IfSome result (λ node. node < 256) }
    {
        self.nodes.pop()
    }
}
