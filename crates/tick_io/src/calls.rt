//! The calls of an object in memory, some of which are to fail.

use std::marker::Model;

/// Counts calls, and knows by their numbers, from 1, which of them fail.
#[derive(Drop)]
pub(crate) struct CallCounter {
    failing: Vec<u64>,
    made: u64,
    failures: u64,
}

impl Model for CallCounter {
    ghost use Rattle.tick_io.specs.Calls.{Calls};

    ghost Value = { Calls };

    ghost view = { λ c. record { failing = c.failing.items; made = c.made; failures = c.failures } };
}

impl CallCounter {
    ghost use Rattle.std.specs.Prelude.{◌≡◌, ◌≤◌};
    ghost use Rattle.std.specs.Bool.{OnTrue, OnFalse};
    ghost use Rattle.tick_io.specs.Counts.{Rose};
    ghost use Rattle.tick_io.specs.Calls.{no_calls, next_fails, after_call};

    /// No call has been made. Those of these numbers are to fail.
    pub(crate) fn new(failing: Vec<u64>) -> Self
        ensures { result ≡ no_calls failing.items }
    {
        CallCounter {
            failing,
            made: 0,
            failures: 0,
        }
    }

    /// Whether the next call is one of those that fail.
    pub(crate) fn next_fails(&self) -> bool
        ensures { result ≡ next_fails self.now }
    {
        self.failing.contains(&self.made.saturating_add(1))
    }

    /// Counts a call, and whether it failed.
    pub(crate) fn count(&mut self, failed: bool)
        ensures after { self.new ≡ after_call failed self.old }
        ensures rose { OnTrue failed (Rose self.old.failures self.new.failures) }
        ensures never_falls { self.old.failures ≤ self.new.failures }
        ensures steady { OnFalse failed (self.new.failures ≡ self.old.failures) }
    {
        self.made = self.made.saturating_add(1);
        if failed {
            self.failures = self.failures.saturating_add(1);
        }
    }
}
