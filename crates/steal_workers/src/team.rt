//! The hands of a crew at work, each with a seat of its own.

ghost use Rattle.std.specs.Prelude.{◌≡◌, ◌+◌, ◌≤◌, ◌<◌, ◌++◌, IfOk, OnOk, vec_len, vec_capacity};
ghost use Rattle.std.specs.Thread.{IsSync};
ghost use Rattle.graph_words.specs.Rule.{tags};
ghost use Rattle.graph_words.specs.Seats.{IsSeatOf};
ghost use Rattle.steal_workers.specs.Lists.{IsListed};
ghost use Rattle.steal_workers.specs.Hands.{hand_mark, hand_marks};
ghost use Rattle.steal_workers.specs.Holdings.{IsFor, IsGoneOn, IsHeld, IsJoined, NoNode, less_parts, some_parts};

use crate::hand::{Hand, has_node, offer_all, work_out, work_seat};
use crate::progress::Progress;
use crate::ready::Ready;
use crate::work::NodeWork;
use graph_words::{ClaimSeat, Claims, Tagged};
use std::alloc::AllocError;
use std::thread::{Threads, join};

/// A seat with one part of this one, and so many more, and no node.
fn split_parts<W: Tagged, H: Tagged>(
    claims: &Claims<W, H>,
    seat: &mut ClaimSeat<W, H>,
    more: usize,
) -> ClaimSeat<W, H>
    requires of { IsSeatOf claims.now seat.old }
    requires parts { more + 1 < seat.old.view.parts }
    ensures old { IsSeatOf claims.now seat.new × (seat.new.view ≡ less_parts (more + 1) seat.old.view) }
    ensures new { IsSeatOf claims.now result × (result.view ≡ some_parts (more + 1) seat.old.view) }
{
    let mut other = claims.split(seat);
    for _ in 0..more {
        let part = claims.split(seat);
        claims.join(&mut other, part);
    }
    other
}

/// A seat that has all that two hands' seats have.
fn join_seats<W: Tagged, H: Tagged>(
    claims: &Claims<W, H>,
    one: Result<ClaimSeat<W, H>, AllocError>,
    other: Result<ClaimSeat<W, H>, AllocError>,
) -> Result<ClaimSeat<W, H>, AllocError>
    requires of { IfOk one (λ seat. IsSeatOf claims.now seat) }
    requires other_of { IfOk other (λ seat. IsSeatOf claims.now seat) }
    ensures of { IfOk result (λ seat. IsSeatOf claims.now seat) }
    ensures joined { IfOk result (λ seat. IsJoined claims.now.plan one other seat) }
{
    let mut seat = one?;
    let other = other?;
    claims.look(&mut seat);
    claims.join(&mut seat, other);
    Ok(seat)
}

/// The later half of the hands, with the middle one. None where memory runs out.
fn take_half(hands: &mut Vec<Hand>) -> Vec<Hand>
    ensures items { hands.old.items ≡ hands.new.items ++ result.items }
    ensures len { vec_len hands.old ≡ vec_len hands.new + vec_len result }
    ensures capacity { vec_capacity hands.new ≡ vec_capacity hands.old }
{
    let alloc = *hands.allocator();
    match hands.split_off(hands.len() / 2) {
        Ok(half) => half,
        Err(_) => Vec::new(alloc),
    }
}

/// Puts hands behind others, where there is room for them.
fn put_behind(hands: &mut Vec<Hand>, more: Vec<Hand>)
    requires { vec_len hands.old + vec_len more ≤ vec_capacity hands.old }
    ensures items { hands.new.items ≡ hands.old.items ++ more.items }
    ensures len { vec_len hands.new ≡ vec_len hands.old + vec_len more }
    ensures capacity { vec_capacity hands.new ≡ vec_capacity hands.old }
{
    for hand in more {
        hands.push_reserved(hand);
    }
}

/// A hand at work until nodes wait for another hand: `waiting` of them do already. How many wait. Where there are none, the hand is
/// done and keeps no node. One without a node first finds one: that for which it was started.
fn work_first<W: Tagged, H: Tagged, N: NodeWork<W, H>>(
    claims: &Claims<W, H>,
    seat: &mut ClaimSeat<W, H>,
    work: &N,
    first: &mut Hand,
    kept: &mut Ready,
    progress: &Progress,
    waiting: u64,
) -> Result<u64, AllocError>
    requires meant { IsFor (tags W.run W.node W.step W.follows) (N.run work.now) (N.step work.now) (N.edges work.now) claims.now.plan }
    requires of { IsSeatOf claims.now seat.old }
    requires held { IsHeld claims.now.plan seat.old.view (IsListed kept.old.nodes.items) }
    ensures of { OnOk result (IsSeatOf claims.now seat.new) }
    ensures held { OnOk result (IsHeld claims.now.plan seat.new.view (IsListed kept.new.nodes.items)) }
    ensures none { IfOk result (λ waiting. waiting ≡ 0 → IsHeld claims.now.plan seat.new.view NoNode) }
    ensures on { OnOk result (IsGoneOn seat.old.view seat.new.view) }
    ensures first { hand_mark first.new ≡ hand_mark first.old }
{
    if !has_node(claims, seat, first, kept, progress) {
        return Ok(0);
    }
    if waiting > 0 {
        return Ok(waiting);
    }
    let waiting = work_seat(claims, seat, work, first, kept, progress)?;
    if waiting == 0 {
        offer_all(claims, seat, kept);
    }
    Ok(waiting)
}

/// Hands at work: the first in this thread, and the others in threads of their own, which have ended when this returns. Another
/// hand is started for each node that waits for one, and no sooner: `waiting` of them wait already. It gets half of the hands
/// that are left, which it starts in the same way, first for the nodes that wait already. The rest of the hands do nothing.
#[cycle(hands)]
pub(crate) fn work_together<R: Threads + Sync, W: Tagged, H: Tagged, N: NodeWork<W, H>>(
    rt: &R,
    claims: &Claims<W, H>,
    work: &N,
    progress: &Progress,
    first: Hand,
    others: Vec<Hand>,
    waiting: u64,
    seat: ClaimSeat<W, H>,
    kept: Ready,
) -> (Hand, Vec<Hand>, Result<ClaimSeat<W, H>, AllocError>)
    requires meant { IsFor (tags W.run W.node W.step W.follows) (N.run work.now) (N.step work.now) (N.edges work.now) claims.now.plan }
    requires of { IsSeatOf claims.now seat }
    requires held { IsHeld claims.now.plan seat.view (IsListed kept.nodes.items) }
    requires parts { vec_len others < seat.view.parts }
    ensures first { hand_mark result.0 ≡ hand_mark first }
    ensures others { (vec_len result.1 ≡ vec_len others) × (vec_capacity result.1 ≡ vec_capacity others) }
    ensures marks { hand_marks result.1.items ≡ hand_marks others.items }
    ensures of { IfOk result.2 (λ worked. IsSeatOf claims.now worked) }
    ensures held { IfOk result.2 (λ worked. IsHeld claims.now.plan worked.view NoNode) }
    ensures on { IfOk result.2 (λ worked. IsGoneOn seat.view worked.view) }
{
    let mut first = first;
    let mut others = others;
    let mut seat = seat;
    let mut kept = kept;
    let waiting = match work_first(
        claims, &mut seat, work, &mut first, &mut kept, progress, waiting,
    ) {
        Ok(0) => return (first, others, Ok(seat)),
        Ok(waiting) => waiting,
        Err(error) => return (first, others, Err(error)),
    };
    let Some(hand) = others.pop() else {
        return match work_out(claims, &mut seat, work, &mut first, &mut kept, progress) {
            Ok(()) => (first, others, Ok(seat)),
            Err(error) => (first, others, Err(error)),
        };
    };
    let half = take_half(&mut others);
    let theirs = (waiting - 1).min(half.len() as u64);
    let mine = waiting - 1 - theirs;
    let other = split_parts(claims, &mut seat, half.len());
    let ((hand, half, other), (first, others, worked)) = join(
        rt,
        || -> (Hand, Vec<Hand>, Result<ClaimSeat<W, H>, AllocError>)
            requires sync { IsSync R.row }
            requires meant { IsFor (tags W.run W.node W.step W.follows) (N.run work.now) (N.step work.now) (N.edges work.now) claims.now.plan }
            requires of { IsSeatOf claims.now other }
            requires held { IsHeld claims.now.plan other.view NoNode }
            requires parts { vec_len half < other.view.parts }
            ensures first { hand_mark result.0 ≡ hand_mark hand }
            ensures others { (vec_len result.1 ≡ vec_len half) × (vec_capacity result.1 ≡ vec_capacity half) }
            ensures marks { hand_marks result.1.items ≡ hand_marks half.items }
            ensures of { IfOk result.2 (λ worked. IsSeatOf claims.entry.now worked) }
            ensures held { IfOk result.2 (λ worked. IsHeld claims.entry.now.plan worked.view NoNode) }
            ensures on { IfOk result.2 (λ worked. IsGoneOn other.view worked.view) }
        {
            work_together(
                rt,
                claims,
                work,
                progress,
                hand,
                half,
                theirs,
                other,
                Ready::new(),
            )
        },
        || -> (Hand, Vec<Hand>, Result<ClaimSeat<W, H>, AllocError>)
            requires sync { IsSync R.row }
            requires meant { IsFor (tags W.run W.node W.step W.follows) (N.run work.now) (N.step work.now) (N.edges work.now) claims.now.plan }
            requires of { IsSeatOf claims.now seat }
            requires held { IsHeld claims.now.plan seat.view (IsListed kept.nodes.items) }
            requires parts { vec_len others < seat.view.parts }
            ensures first { hand_mark result.0 ≡ hand_mark first }
            ensures others { (vec_len result.1 ≡ vec_len others) × (vec_capacity result.1 ≡ vec_capacity others) }
            ensures marks { hand_marks result.1.items ≡ hand_marks others.items }
            ensures of { IfOk result.2 (λ worked. IsSeatOf claims.entry.now worked) }
            ensures held { IfOk result.2 (λ worked. IsHeld claims.entry.now.plan worked.view NoNode) }
            ensures on { IfOk result.2 (λ worked. IsGoneOn seat.view worked.view) }
        { work_together(rt, claims, work, progress, first, others, mine, seat, kept) },
    );
    let mut others = others;
    put_behind(&mut others, half);
    others.push_reserved(hand);
    (first, others, join_seats(claims, worked, other))
}
