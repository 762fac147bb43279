//! How far a step is, so that a hand that looks for a node can tell that none will come.

use std::sync::atomic::{AtomicU64, Ordering};

/// How many nodes of a step are worked, and how many there are to work.
#[derive(Drop)]
pub(crate) struct Progress {
    worked: AtomicU64,
    all: u64,
}

impl Progress {
    /// No node is worked, and so many are to be.
    pub(crate) fn new(all: u64) -> Progress {
        Progress {
            worked: AtomicU64::new(0),
            all,
        }
    }

    /// A node was worked.
    pub(crate) fn count(&self) {
        self.worked.fetch_add(1, Ordering::SeqCst);
    }

    /// The step ends early: no node is to be looked for.
    pub(crate) fn end(&self) {
        self.worked.fetch_add(self.all, Ordering::SeqCst);
    }

    /// Whether no node is to be looked for.
    pub(crate) fn is_over(&self) -> bool {
        self.worked.load(Ordering::SeqCst) >= self.all
    }
}
