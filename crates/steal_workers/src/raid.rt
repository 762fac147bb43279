//! Ways to take numbers from the deques of the hands.

ghost use Rattle.std.specs.Prelude.{◌≡◌, IfSome, MatchOption, is_some, true, false};
ghost use Rattle.std.proofs.Props.{props};
ghost use Rattle.crossbeam_deque.specs.Handles.{view, IsPassOf, stealer_deque};
ghost use Rattle.steal_workers.specs.Deques.{IsTaken, pass_log};

use crate::deques::{Log, Stolen, Thief};
use crossbeam_deque::Pass;

/// A way to take numbers from the deque of a hand. It has a pass of that deque while a step runs.
#[derive(Drop)]
pub(crate) struct Raid {
    pub(crate) thief: Thief,
    pub(crate) pass: Option<Pass<u32, Log>>,
    ghost of: { IfSome pass (λ p. IsPassOf (stealer_deque thief) p × ((view p).parts ≡ 1)) } by { Prim.hlevel props },
}

impl Raid {
    /// A raid on the deque of the stealer, without a pass.
    pub(crate) fn new(thief: Thief) -> Raid
        ensures deque { stealer_deque result.thief ≡ stealer_deque thief }
        ensures idle { is_some result.pass ≡ false }
    {
        Raid { thief, pass: None }
    }

    /// Whether it has a pass.
    pub(crate) fn is_armed(&self) -> bool
        ensures { result ≡ is_some self.now.pass }
    {
        self.pass.is_some()
    }

    /// It gets a pass.
    pub(crate) fn arm(&mut self, pass: Pass<u32, Log>)
        requires of { IsPassOf (stealer_deque self.old.thief) pass }
        requires part { (view pass).parts ≡ 1 }
        ensures deque { stealer_deque self.new.thief ≡ stealer_deque self.old.thief }
        ensures armed { is_some self.new.pass ≡ true }
    {
        self.pass = Some(pass);
    }

    /// Its pass, which it has no more.
    pub(crate) fn disarm(&mut self) -> Option<Pass<u32, Log>>
        ensures deque { stealer_deque self.new.thief ≡ stealer_deque self.old.thief }
        ensures idle { is_some self.new.pass ≡ false }
        ensures pass { MatchOption result (is_some self.old.pass ≡ false) (λ p. (is_some self.old.pass ≡ true) × IsPassOf (stealer_deque self.old.thief) p × ((view p).parts ≡ 1)) }
    {
        self.pass.take()
    }

    /// Takes the first number of the deque, where there is one and no other hand takes one just now.
    pub(crate) fn steal(&mut self) -> Option<u32>
        ensures deque { stealer_deque self.new.thief ≡ stealer_deque self.old.thief }
        ensures armed { is_some self.new.pass ≡ is_some self.old.pass }
        ensures taken { MatchOption result (pass_log self.new.pass ≡ pass_log self.old.pass) (IsTaken (pass_log self.old.pass) (pass_log self.new.pass)) }
    {
        match &mut self.pass {
            Some(pass) => self.thief.steal_as::<Stolen>(pass).success(),
            None => None,
        }
    }
}
