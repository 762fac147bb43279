//! The gate through which the work of a node goes, so that a test can hold it up.

ghost use Rattle.std.specs.Prelude.{◌≡◌, ℕ};

/// What is called round the work of a node, from any thread.
///
/// In a cycle, `enter` and `leave` are called round the work of each operator node, with the node's number, which is below 256.
/// Beside a feed, the caller of number c calls `enter(256 + c)` before its first snapshot and `leave(256 + c)` after the last one that it
/// takes beside the feed.
pub trait Gate: Sync {
    /// That the gate was entered, which code over any gate knows from `enter` alone.
    ghost entered: { Self → ℕ → Type 0 } = { λ _ _. Unit {0} };

    /// That it was left, which such code knows from `leave` alone.
    ghost left: { Self → ℕ → Type 0 } = { λ _ _. Unit {0} };

    /// Before the work.
    fn enter(&self, node: u32)
        ensures { entered self.now node };

    /// After the work.
    fn leave(&self, node: u32)
        requires { entered self.now node }
        ensures { left self.now node };

    /// Enters for a node.
    fn admit(&self, node: u32) -> Inside
        ensures node { result.node ≡ node }
        ensures entered { entered self.now result.node }
    {
        self.enter(node);
        Inside { node }
    }

    /// Leaves for a node that has entered.
    fn dismiss(&self, inside: Inside)
        requires { entered self.now inside.node }
        ensures { left self.now inside.node }
    {
        let Inside { node } = inside;
        self.leave(node);
    }
}

/// A node for which a gate was entered that is not left yet. It can be neither copied nor let go: `dismiss` alone uses it up. So what
/// is done with one at hand is done between `enter` and `leave` of a gate.
pub struct Inside {
    pub(crate) node: u32,
}

/// A gate that holds up nothing.
#[derive(Clone, Copy, Default)]
pub struct OpenGate;

impl Gate for OpenGate {
    fn enter(&self, _node: u32) {}

    fn leave(&self, _node: u32) {}
}
