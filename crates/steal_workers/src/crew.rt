//! A crew, which is kept through the steps of a run.

ghost use Rattle.std.specs.Prelude.{◌≡◌, ◌≤◌, IfOk, vec_capacity, vec_len};
ghost use Rattle.graph_words.specs.Rule.{tags};
ghost use Rattle.graph_words.specs.Seats.{IsSeatOf};
ghost use Rattle.steal_workers.specs.Lists.{IsListed};
ghost use Rattle.steal_workers.specs.Holdings.{AllBack, AllLate, IsFor, IsGoneOn, IsHeld, NoNode, SourcesBack};
ghost use Rattle.steal_workers.specs.Hands.{AllEmpty, AllRested, hand_marks};
ghost use Rattle.steal_workers.specs.Musters.{IsCrewed, nothing};

use crate::deques::{Log, Tally};
use crate::hand::{Hand, offer_all, pass_on};
use crate::muster::{arm, rest};
use crate::progress::Progress;
use crate::raising::new_hands;
use crate::ready::Ready;
use crate::rest::work_rest;
use crate::team::work_together;
use crate::work::NodeWork;
use crossbeam_deque::protocol::Protocol;
use graph_words::{ClaimSeat, Claims, Tagged};
use std::alloc::{AllocError, Global};
use std::mem;
use std::thread::Threads;

/// Hands that work the nodes of each step of a run. Each has a deque of node numbers, which is kept through the steps.
pub struct Crew {
    alloc: Global,
    pub(crate) size: u32,
    pub(crate) hands: Vec<Hand>,
    ghost count: { vec_len hands ≡ size },
    ghost few: { size ≤ 64 },
    ghost crew: { IsCrewed nothing (hand_marks hands.items) },
    ghost rested: { AllRested hands.items },
}

impl Drop for Crew {
    fn drop(self) {
        let Self {
            alloc: _,
            size: _,
            hands: _,
        } = self;
    }
}

impl Crew {
    /// A crew of so many hands.
    pub fn new(alloc: Global, workers: u32) -> Result<Crew, AllocError>
        requires { (1 ≤ workers) × (workers ≤ 64) }
        ensures { IfOk result (λ crew. crew.size ≡ workers) }
    {
        let hands = new_hands(alloc, workers as usize)?;
        Ok(Crew {
            alloc,
            size: workers,
            hands,
        })
    }

    /// The number of hands that the crew was made with.
    pub fn size(&self) -> u32
        ensures { result ≡ self.now.size }
    {
        self.size
    }

    /// Works the nodes with input edges, and gives the seat back with every work put back, and each edge handed on after that.
    /// All threads have ended then. An error is that memory ran out, and then the claims are given up.
    ///
    /// Each deque is empty before and after, after an error too, and its log begins anew: nothing was pushed or taken then.
    ///
    /// The seat has all parts. It has put the works of the nodes without input edges back. The list has the other nodes that
    /// it has, which it has not begun.
    pub fn run<R: Threads + Sync, W: Tagged, H: Tagged, N: NodeWork<W, H>>(
        &mut self,
        rt: &R,
        claims: &Claims<W, H>,
        seat: ClaimSeat<W, H>,
        ready: Ready,
        work: &N,
    ) -> Result<ClaimSeat<W, H>, AllocError>
        requires meant { IsFor (tags W.run W.node W.step W.follows) (N.run work.now) (N.step work.now) (N.edges work.now) claims.now.plan }
        requires of { IsSeatOf claims.now seat }
        requires alone { seat.view.parts ≡ 1024 }
        requires held { IsHeld claims.now.plan seat.view (IsListed ready.nodes.items) }
        requires sources { SourcesBack claims.now.plan seat.view }
        ensures size { self.new.size ≡ self.old.size }
        ensures hands { vec_len self.new.hands ≡ vec_len self.old.hands }
        ensures begun { AllRested self.old.hands.items }
        ensures empty { AllEmpty ⟦<Tally as Protocol<u32, Log>>⟧.holds self.new.hands.items }
        ensures rested { AllRested self.new.hands.items }
        ensures of { IfOk result (λ worked. IsSeatOf claims.now worked) }
        ensures all { IfOk result (λ worked. AllBack claims.now.plan worked.view) }
        ensures late { IfOk result (λ worked. AllLate claims.now.plan worked.view) }
    {
        let mut hands = mem::replace(&mut self.hands, Vec::new(self.alloc));
        arm(&mut hands);
        let progress = Progress::new(nodes_to_work(claims));
        let (hands, worked) = work_all(rt, claims, work, &progress, hands, seat, ready);
        let mut hands = hands;
        rest(&mut hands);
        self.hands = hands;
        let mut seat = worked?;
        work_rest(claims, &mut seat, work)?;
        Ok(seat)
    }
}

/// All hands at work, of which the last is the first to begin: it passes on what is ready, before the others start. A crew
/// without hands puts the nodes on offer.
fn work_all<R: Threads + Sync, W: Tagged, H: Tagged, N: NodeWork<W, H>>(
    rt: &R,
    claims: &Claims<W, H>,
    work: &N,
    progress: &Progress,
    hands: Vec<Hand>,
    seat: ClaimSeat<W, H>,
    ready: Ready,
) -> (Vec<Hand>, Result<ClaimSeat<W, H>, AllocError>)
    requires meant { IsFor (tags W.run W.node W.step W.follows) (N.run work.now) (N.step work.now) (N.edges work.now) claims.now.plan }
    requires of { IsSeatOf claims.now seat }
    requires held { IsHeld claims.now.plan seat.view (IsListed ready.nodes.items) }
    requires parts { vec_len hands ≤ seat.view.parts }
    ensures hands { (vec_len result.0 ≡ vec_len hands) × (vec_capacity result.0 ≡ vec_capacity hands) }
    ensures marks { hand_marks result.0.items ≡ hand_marks hands.items }
    ensures of { IfOk result.1 (λ worked. IsSeatOf claims.now worked) }
    ensures held { IfOk result.1 (λ worked. IsHeld claims.now.plan worked.view NoNode) }
    ensures on { IfOk result.1 (λ worked. IsGoneOn seat.view worked.view) }
{
    let mut hands = hands;
    let mut seat = seat;
    let mut ready = ready;
    let Some(first) = hands.pop() else {
        offer_all(claims, &mut seat, &mut ready);
        return (hands, Ok(seat));
    };
    let mut first = first;
    let mut kept = Ready::new();
    let offered = pass_on(claims, &mut seat, &mut first.own, &mut ready, &mut kept);
    let (first, hands, worked) = work_together(
        rt, claims, work, progress, first, hands, offered, seat, kept,
    );
    let mut hands = hands;
    hands.push_reserved(first);
    (hands, worked)
}

/// The number of nodes with input edges.
fn nodes_to_work<W: Tagged, H: Tagged>(claims: &Claims<W, H>) -> u64 {
    let mut count = 0u64;
    for node in 0..claims.nodes() {
        if claims.has_inputs(node) {
            count = count.saturating_add(1);
        }
    }
    count
}
