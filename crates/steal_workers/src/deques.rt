//! What is known of the deques of a crew: which numbers were pushed, and which were taken.

ghost use Rattle.std.specs.Prelude.{◌≡◌, [], ℕ, List};
ghost use lib.ListN.{get_elem?};
ghost use mathlib.Core.Option.{some};
ghost use Rattle.steal_workers.specs.declared.deques.Log.{Log};
ghost use Rattle.steal_workers.specs.Deques.{AllBlank, AllIdle, IsBalanced, IsTakenOnce, log, total};

use crossbeam_deque::protocol::{Join, Lesson, Outcome, Protocol, Split};
use crossbeam_deque::{Stealer, Worker};
use std::alloc::Global;
use std::collections::LinkedList;

/// What a pass of a deque knows: its parts of the right to know the whole, the numbers that were pushed with it, and those
/// that were taken with it. No value of it is made.
pub struct Log {
    pub parts: u64,
    pub pushed: LinkedList<u32>,
    pub taken: LinkedList<u32>,
}

/// The rule of a deque: each number that was pushed was taken once, or is there.
pub struct Tally;

impl Protocol<u32, Log> for Tally {
    ghost use Rattle.std.specs.Prelude.{[]};
    ghost use Rattle.steal_workers.specs.Deques.{IsTallied, log};

    ghost holds = { IsTallied };

    ghost first = { log 1024 [] [] };

    ghost guest = { log 0 [] [] };
}

/// Numbers were pushed.
pub(crate) struct Pushed;

impl Outcome<u32, Log> for Pushed {
    ghost use Rattle.std.specs.Prelude.{◌≡◌, ◌++◌};
    ghost use Rattle.steal_workers.specs.Deques.{log};

    ghost then = { λ v xs w. w ≡ log v.parts (v.pushed ++ xs) v.taken };
}

/// Numbers were taken by the owner, who knows the whole where it has all parts.
pub(crate) struct Popped;

impl Outcome<u32, Log> for Popped {
    ghost use Rattle.std.specs.Prelude.{◌≡◌, ◌++◌};
    ghost use Rattle.steal_workers.specs.Deques.{IsEven, log};

    ghost then = { λ v xs w. w ≡ log v.parts v.pushed (v.taken ++ xs) };

    ghost empty = { λ v. v.parts ≡ 1024 → IsEven v };
}

/// Numbers were taken by another.
pub(crate) struct Stolen;

impl Outcome<u32, Log> for Stolen {
    ghost use Rattle.std.specs.Prelude.{◌≡◌, ◌++◌};
    ghost use Rattle.steal_workers.specs.Deques.{log};

    ghost then = { λ v xs w. w ≡ log v.parts v.pushed (v.taken ++ xs) };
}

/// How many numbers are there, where all parts are.
pub(crate) struct Left;

impl Lesson<u32, Log> for Left {
    ghost use Rattle.std.specs.Prelude.{◌≡◌, ◌+◌, length};

    ghost fact = { λ v items. length v.pushed ≡ length v.taken + length items };
}

/// One part is cut off, and comes back.
pub(crate) struct LogSplit;

impl Split<Log> for LogSplit {
    ghost use Rattle.std.specs.Prelude.{◌-◌, []};
    ghost use Rattle.steal_workers.specs.Deques.{log};

    ghost left = { λ v. log (v.parts - 1) v.pushed v.taken };

    ghost right = { λ v. log 1 [] [] };
}

impl Join<Log> for LogSplit {
    ghost use Rattle.std.specs.Prelude.{◌+◌, ◌++◌, []};
    ghost use Rattle.steal_workers.specs.Deques.{log};

    ghost both = { λ v w. log (v.parts + w.parts) (v.pushed ++ w.pushed) (v.taken ++ w.taken) };

    ghost spent = { log 0 [] [] };
}

/// The log of an empty deque begins anew.
pub(crate) struct Renewal;

impl Split<Log> for Renewal {
    ghost use Rattle.std.specs.Prelude.{[]};
    ghost use Rattle.steal_workers.specs.Deques.{log};

    ghost left = { λ v. log v.parts [] [] };

    ghost right = { λ v. log 0 [] [] };
}

/// A deque of node numbers under the rule.
pub type Deque = Worker<u32, Global, Log, Tally>;

/// The end of a deque at which any hand takes numbers.
pub type Thief = Stealer<u32, Global, Log, Tally>;

/// The parts of all logs are 1,024 together, and a log without parts has nothing.
pub fn parts_of_logs_stay_together()
    ensures all { (items : List ℕ) (logs : List Log) → ⟦<Tally as Protocol<u32, Log>>⟧.holds items logs → total (λ v. v.parts) logs ≡ 1024 }
    ensures idle { (items : List ℕ) (logs : List Log) → ⟦<Tally as Protocol<u32, Log>>⟧.holds items logs → AllIdle logs }
{}

/// The numbers that were pushed are those that were taken and those that are there, each as often. So each is taken at most as
/// often as it is pushed.
pub fn numbers_are_taken_once()
    ensures balance { (items : List ℕ) (logs : List Log) → ⟦<Tally as Protocol<u32, Log>>⟧.holds items logs → IsBalanced items logs }
    ensures once { (items : List ℕ) (logs : List Log) → ⟦<Tally as Protocol<u32, Log>>⟧.holds items logs → IsTakenOnce logs }
{}

/// Where a log that begins a run has all parts, the deque has no number, and nothing was pushed or taken.
pub fn runs_begin_with_nothing()
    ensures { (items : List ℕ) (logs : List Log) (port : ℕ) → ⟦<Tally as Protocol<u32, Log>>⟧.holds items logs → get_elem? logs port ≡ some (log 1024 [] []) → (items ≡ []) × AllBlank logs }
{}
