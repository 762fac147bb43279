//! The deque of a hand, as its hand uses it.

ghost use Rattle.std.specs.Prelude.{◌≡◌, ◌+◌, ◌<◌, [], ◌∷◌, IfOk, MatchOption, true, false, ⊤};
ghost use Rattle.crossbeam_deque.specs.Handles.{view, IsPassOf, stealer_deque, worker_deque, worker_view};
ghost use Rattle.steal_workers.specs.Deques.{IsEven, IsPushed, IsRested, IsSameDeque, IsTaken, log};

use crate::deques::{Deque, Left, Log, LogSplit, Popped, Pushed, Renewal, Thief};
use crossbeam_deque::Pass;
use std::alloc::{AllocError, Global};

// A deque's slots at the start: as many as there are nodes, so that it need not grow.
const SLOTS: usize = 256;

/// A hand's own deque of node numbers. The hand has some of its parts.
#[derive(Drop)]
pub(crate) struct Own {
    pub(crate) deque: Deque,
    ghost some_parts: { 0 < (worker_view deque).parts },
}

impl Own {
    /// An empty deque, with all of its parts.
    pub(crate) fn new(alloc: Global) -> Result<Own, AllocError>
        ensures { IfOk result (λ own. IsRested own.deque) }
    {
        let deque = Deque::fifo_as(alloc, SLOTS)?;
        Ok(Own { deque })
    }

    /// The end at which others take numbers.
    pub(crate) fn thief(&self) -> Result<Thief, AllocError>
        ensures { IfOk result (λ thief. stealer_deque thief ≡ worker_deque self.now.deque) }
    {
        self.deque.stealer()
    }

    /// Pushes a number. True where the deque has it then, and else memory ran out.
    pub(crate) fn push(&mut self, number: u32) -> bool
        ensures same { IsSameDeque self.old.deque self.new.deque }
        ensures pushed { result ≡ true → IsPushed (worker_view self.old.deque) (worker_view self.new.deque) number }
        ensures refused { result ≡ false → worker_view self.new.deque ≡ worker_view self.old.deque }
    {
        self.deque.push_as::<Pushed>(number).is_ok()
    }

    /// Takes the first number. Where there is none, the hand knows so if it has all parts.
    pub(crate) fn take(&mut self) -> Option<u32>
        ensures same { IsSameDeque self.old.deque self.new.deque }
        ensures taken { MatchOption result (worker_view self.new.deque ≡ worker_view self.old.deque) (IsTaken (worker_view self.old.deque) (worker_view self.new.deque)) }
        ensures none { MatchOption result ((worker_view self.old.deque).parts ≡ 1024 → IsEven (worker_view self.old.deque)) (λ number. ⊤) }
    {
        self.deque.pop_as::<Popped>()
    }

    /// A pass of one part, which is cut off.
    pub(crate) fn cut(&mut self) -> Pass<u32, Log>
        requires { 1 < (worker_view self.old.deque).parts }
        ensures deque { worker_deque self.new.deque ≡ worker_deque self.old.deque }
        ensures parts { (worker_view self.new.deque).parts + 1 ≡ (worker_view self.old.deque).parts }
        ensures of { IsPassOf (worker_deque self.old.deque) result }
        ensures pass { view result ≡ log 1 [] [] }
    {
        self.deque.another::<LogSplit>()
    }

    /// Takes the parts of a pass back.
    pub(crate) fn join(&mut self, pass: Pass<u32, Log>)
        requires { IsPassOf (worker_deque self.old.deque) pass }
        ensures deque { worker_deque self.new.deque ≡ worker_deque self.old.deque }
        ensures parts { (worker_view self.new.deque).parts ≡ (worker_view self.old.deque).parts + (view pass).parts }
    {
        self.deque.absorb::<LogSplit>(pass);
    }

    /// Takes all numbers out of the deque, of which all parts are here, and begins its log anew.
    pub(crate) fn empty(&mut self)
        requires { (worker_view self.old.deque).parts ≡ 1024 }
        ensures deque { worker_deque self.new.deque ≡ worker_deque self.old.deque }
        ensures rested { IsRested self.new.deque }
    {
        self.drain();
        drop(self.deque.another::<Renewal>());
    }

    /// Takes all numbers out of the deque, of which all parts are here.
    fn drain(&mut self)
        requires { (worker_view self.old.deque).parts ≡ 1024 }
        ensures same { IsSameDeque self.old.deque self.new.deque }
        ensures even { IsEven (worker_view self.new.deque) }
    {
        for _ in 0..self.deque.len_as::<Left>() {
            match self.take() {
                Some(_) => {}
                None => return,
            }
        }
    }
}
