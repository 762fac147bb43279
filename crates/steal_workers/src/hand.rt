//! One hand of a crew: what it passes on, and where it looks for a node.

ghost use Rattle.std.specs.Prelude.{◌≡◌, ◌⊎◌, None, ◌<◌, ◌++◌, [], ◌∷◌, ℕ, eqb, false, map, vec_len, IfSome, MatchOption, OnOk};
ghost use Rattle.std.specs.List.{list_any};
ghost use Rattle.crossbeam_deque.specs.Handles.{worker_view};
ghost use Rattle.graph_words.specs.declared.table.Mark.TheVariants.{Unmarked, PutBack};
ghost use Rattle.graph_words.specs.Marks.{at, inputs};
ghost use Rattle.graph_words.specs.Rule.{tags};
ghost use Rattle.graph_words.specs.Seats.{Has, IsSeatOf};
ghost use Rattle.graph_words.specs.Views.{InputsDelivered, gets, mark_node};
ghost use Rattle.steal_workers.specs.Lists.{IsListed};
ghost use Rattle.steal_workers.specs.Deques.{IsPushed, IsSameDeque};
ghost use Rattle.steal_workers.specs.Hands.{hand_mark, raid_mark};
ghost use Rattle.steal_workers.specs.Holdings.{IsFor, IsGoneOn, IsHeld, IsReady, NoNode, OnlyNode};

use crate::own::Own;
use crate::progress::Progress;
use crate::raid::Raid;
use crate::ready::Ready;
use crate::work::NodeWork;
use graph_words::{ClaimSeat, Claims, Tagged};
use std::alloc::AllocError;
use std::thread::yield_now;

// How often in a row a hand looks through all deques in vain.
const MOST_ROUNDS: u32 = 10_000;

/// A hand: its place in the crew, its deque of node numbers, and its raids on all deques, in order of the hands.
#[derive(Drop)]
pub(crate) struct Hand {
    pub(crate) place: usize,
    pub(crate) own: Own,
    pub(crate) raids: Vec<Raid>,
}

/// Puts a node on offer and pushes its number once. Where the push is refused the offer is taken back.
///
/// True where the hand still has the node.
fn offer_node<W: Tagged, H: Tagged>(
    claims: &Claims<W, H>,
    seat: &mut ClaimSeat<W, H>,
    own: &mut Own,
    node: u32,
) -> bool
    requires of { IsSeatOf claims.now seat.old }
    requires ready { IsReady claims.now.plan seat.old.view node }
    ensures of { IsSeatOf claims.now seat.new }
    ensures view { seat.new.view ≡ gets result node (mark_node seat.old.view node Unmarked) }
    ensures own { IsSameDeque own.old.deque own.new.deque }
    ensures pushed { IsPushed (worker_view own.old.deque) (worker_view own.new.deque) node ⊎ (worker_view own.new.deque ≡ worker_view own.old.deque) }
{
    claims.offer(seat, node);
    if own.push(node) {
        return false;
    }
    claims.accept(seat, node)
}

/// Keeps a node that became ready, where the hand has no other, and else puts it on offer. Whether it is on offer then.
fn pass_node<W: Tagged, H: Tagged>(
    claims: &Claims<W, H>,
    seat: &mut ClaimSeat<W, H>,
    own: &mut Own,
    node: u32,
    found: &Ready,
    kept: &mut Ready,
) -> bool
    requires of { IsSeatOf claims.now seat.old }
    requires held { IsHeld claims.now.plan seat.old.view (λ m. (m ≡ node) ⊎ (IsListed kept.old.nodes.items m ⊎ IsListed found.now.nodes.items m)) }
    requires apart { (list_any (eqb node) kept.old.nodes.items ≡ false) × (list_any (eqb node) found.now.nodes.items ≡ false) }
    requires below { node < 256 }
    ensures of { IsSeatOf claims.now seat.new }
    ensures held { IsHeld claims.now.plan seat.new.view (λ m. IsListed kept.new.nodes.items m ⊎ IsListed found.now.nodes.items m) }
    ensures kept { (m : ℕ) → IsListed kept.new.nodes.items m → (m ≡ node) ⊎ IsListed kept.old.nodes.items m }
    ensures on { IsGoneOn seat.old.view seat.new.view }
    ensures own { IsSameDeque own.old.deque own.new.deque }
{
    let _ = found;
    if kept.nodes().is_empty() {
        kept.add(node);
        return false;
    }
    if !offer_node(claims, seat, own, node) {
        return true;
    }
    kept.add(node);
    false
}

/// Of the nodes that became ready the hand keeps one, where it has no other, and puts the others on offer. It also keeps those
/// whose numbers could not be pushed. How many it put on offer.
pub(crate) fn pass_on<W: Tagged, H: Tagged>(
    claims: &Claims<W, H>,
    seat: &mut ClaimSeat<W, H>,
    own: &mut Own,
    found: &mut Ready,
    kept: &mut Ready,
) -> u64
    requires of { IsSeatOf claims.now seat.old }
    requires held { IsHeld claims.now.plan seat.old.view (λ m. IsListed kept.old.nodes.items m ⊎ IsListed found.old.nodes.items m) }
    requires apart { (m : ℕ) → IsListed kept.old.nodes.items m → IsListed found.old.nodes.items m → ⊥ }
    ensures of { IsSeatOf claims.now seat.new }
    ensures held { IsHeld claims.now.plan seat.new.view (IsListed kept.new.nodes.items) }
    ensures empty { found.new.nodes.items ≡ [] }
    ensures on { IsGoneOn seat.old.view seat.new.view }
    ensures own { IsSameDeque own.old.deque own.new.deque }
{
    let mut offered = 0u64;
    while let Some(node) = found.pop() {
        if pass_node(claims, seat, own, node, found, kept) {
            offered = offered.saturating_add(1);
        }
    }
    offered
}

/// Puts a node on offer, beside others that the hand keeps.
fn offer_one<W: Tagged, H: Tagged>(
    claims: &Claims<W, H>,
    seat: &mut ClaimSeat<W, H>,
    node: u32,
    rest: &Ready,
)
    requires of { IsSeatOf claims.now seat.old }
    requires held { IsHeld claims.now.plan seat.old.view (λ m. (m ≡ node) ⊎ IsListed rest.now.nodes.items m) }
    requires fresh { list_any (eqb node) rest.now.nodes.items ≡ false }
    ensures of { IsSeatOf claims.now seat.new }
    ensures held { IsHeld claims.now.plan seat.new.view (IsListed rest.now.nodes.items) }
    ensures on { IsGoneOn seat.old.view seat.new.view }
{
    let _ = rest;
    claims.offer(seat, node);
}

/// Puts all nodes of a list on offer, without pushing their numbers.
pub(crate) fn offer_all<W: Tagged, H: Tagged>(
    claims: &Claims<W, H>,
    seat: &mut ClaimSeat<W, H>,
    found: &mut Ready,
)
    requires of { IsSeatOf claims.now seat.old }
    requires held { IsHeld claims.now.plan seat.old.view (IsListed found.old.nodes.items) }
    ensures of { IsSeatOf claims.now seat.new }
    ensures held { IsHeld claims.now.plan seat.new.view NoNode }
    ensures empty { found.new.nodes.items ≡ [] }
    ensures on { IsGoneOn seat.old.view seat.new.view }
{
    while let Some(node) = found.pop() {
        offer_one(claims, seat, node, found);
    }
}

/// Asks the claims for the node of a number. `None` where the number is no node's, or the node is not on offer.
pub(crate) fn accept_node<W: Tagged, H: Tagged>(
    claims: &Claims<W, H>,
    seat: &mut ClaimSeat<W, H>,
    number: u32,
) -> Option<u32>
    requires of { IsSeatOf claims.now seat.old }
    requires held { IsHeld claims.now.plan seat.old.view NoNode }
    ensures of { IsSeatOf claims.now seat.new }
    ensures node { IfSome result (λ node. node ≡ number) }
    ensures held { MatchOption result (IsHeld claims.now.plan seat.new.view NoNode) (λ node. IsHeld claims.now.plan seat.new.view (OnlyNode node)) }
    ensures on { IsGoneOn seat.old.view seat.new.view }
    ensures alone { number < claims.now.plan.nodes → 0 < inputs number claims.now.plan.edges.items → seat.old.view.parts ≡ 1024 → InputsDelivered claims.now.plan seat.old.view number → Has seat.new.view number }
{
    if number >= claims.nodes() {
        return None;
    }
    if !claims.has_inputs(number) {
        return None;
    }
    if claims.accept(seat, number) {
        Some(number)
    } else {
        None
    }
}

/// Takes a number from the hand's own deque.
fn take_own<W: Tagged, H: Tagged>(
    claims: &Claims<W, H>,
    seat: &mut ClaimSeat<W, H>,
    own: &mut Own,
) -> Option<u32>
    requires of { IsSeatOf claims.now seat.old }
    requires held { IsHeld claims.now.plan seat.old.view NoNode }
    ensures of { IsSeatOf claims.now seat.new }
    ensures held { MatchOption result (IsHeld claims.now.plan seat.new.view NoNode) (λ node. IsHeld claims.now.plan seat.new.view (OnlyNode node)) }
    ensures on { IsGoneOn seat.old.view seat.new.view }
    ensures own { IsSameDeque own.old.deque own.new.deque }
{
    match own.take() {
        Some(number) => accept_node(claims, seat, number),
        None => None,
    }
}

/// Steals a number from the deque of a hand.
fn steal_from<W: Tagged, H: Tagged>(
    claims: &Claims<W, H>,
    seat: &mut ClaimSeat<W, H>,
    raid: &mut Raid,
) -> Option<u32>
    requires of { IsSeatOf claims.now seat.old }
    requires held { IsHeld claims.now.plan seat.old.view NoNode }
    ensures of { IsSeatOf claims.now seat.new }
    ensures held { MatchOption result (IsHeld claims.now.plan seat.new.view NoNode) (λ node. IsHeld claims.now.plan seat.new.view (OnlyNode node)) }
    ensures on { IsGoneOn seat.old.view seat.new.view }
    ensures raid { raid_mark raid.new ≡ raid_mark raid.old }
{
    match raid.steal() {
        Some(number) => accept_node(claims, seat, number),
        None => None,
    }
}

/// Steals a number from the deque of the hand with this number, if it is another.
fn steal_at<W: Tagged, H: Tagged>(
    claims: &Claims<W, H>,
    seat: &mut ClaimSeat<W, H>,
    place: usize,
    raids: &mut Vec<Raid>,
    number: usize,
) -> Option<u32>
    requires of { IsSeatOf claims.now seat.old }
    requires held { IsHeld claims.now.plan seat.old.view NoNode }
    requires within { number < vec_len raids.old }
    ensures of { IsSeatOf claims.now seat.new }
    ensures held { MatchOption result (IsHeld claims.now.plan seat.new.view NoNode) (λ node. IsHeld claims.now.plan seat.new.view (OnlyNode node)) }
    ensures on { IsGoneOn seat.old.view seat.new.view }
    ensures len { vec_len raids.new ≡ vec_len raids.old }
    ensures raids { map raid_mark raids.new.items ≡ map raid_mark raids.old.items }
{
    if number == place {
        return None;
    }
    steal_from(claims, seat, &mut raids[number])
}

/// Steals a number from the deque of one of the other hands.
fn steal_node<W: Tagged, H: Tagged>(
    claims: &Claims<W, H>,
    seat: &mut ClaimSeat<W, H>,
    place: usize,
    raids: &mut Vec<Raid>,
) -> Option<u32>
    requires of { IsSeatOf claims.now seat.old }
    requires held { IsHeld claims.now.plan seat.old.view NoNode }
    ensures of { IsSeatOf claims.now seat.new }
    ensures held { MatchOption result (IsHeld claims.now.plan seat.new.view NoNode) (λ node. IsHeld claims.now.plan seat.new.view (OnlyNode node)) }
    ensures on { IsGoneOn seat.old.view seat.new.view }
    ensures raids { map raid_mark raids.new.items ≡ map raid_mark raids.old.items }
{
    for number in 0..raids.len() {
        match steal_at(claims, seat, place, raids, number) {
            Some(node) => return Some(node),
            None => {}
        }
    }
    None
}

/// A round over all deques.
fn look_round<W: Tagged, H: Tagged>(
    claims: &Claims<W, H>,
    seat: &mut ClaimSeat<W, H>,
    hand: &mut Hand,
) -> Option<u32>
    requires of { IsSeatOf claims.now seat.old }
    requires held { IsHeld claims.now.plan seat.old.view NoNode }
    ensures of { IsSeatOf claims.now seat.new }
    ensures held { MatchOption result (IsHeld claims.now.plan seat.new.view NoNode) (λ node. IsHeld claims.now.plan seat.new.view (OnlyNode node)) }
    ensures on { IsGoneOn seat.old.view seat.new.view }
    ensures hand { hand_mark hand.new ≡ hand_mark hand.old }
{
    match take_own(claims, seat, &mut hand.own) {
        Some(node) => Some(node),
        None => steal_node(claims, seat, hand.place, &mut hand.raids),
    }
}

/// Rounds over all deques until one gives a node, but not without end.
fn look_for_node<W: Tagged, H: Tagged>(
    claims: &Claims<W, H>,
    seat: &mut ClaimSeat<W, H>,
    hand: &mut Hand,
    progress: &Progress,
) -> Option<u32>
    requires of { IsSeatOf claims.now seat.old }
    requires held { IsHeld claims.now.plan seat.old.view NoNode }
    ensures of { IsSeatOf claims.now seat.new }
    ensures held { MatchOption result (IsHeld claims.now.plan seat.new.view NoNode) (λ node. IsHeld claims.now.plan seat.new.view (OnlyNode node)) }
    ensures on { IsGoneOn seat.old.view seat.new.view }
    ensures hand { hand_mark hand.new ≡ hand_mark hand.old }
{
    for _ in 0..MOST_ROUNDS {
        if progress.is_over() {
            return None;
        }
        match look_round(claims, seat, hand) {
            Some(node) => return Some(node),
            None => yield_now(),
        }
    }
    None
}

/// The next node of a hand: one that it has kept, or else one of its own deque.
fn next_node<W: Tagged, H: Tagged>(
    claims: &Claims<W, H>,
    seat: &mut ClaimSeat<W, H>,
    own: &mut Own,
    kept: &mut Ready,
) -> Option<u32>
    requires of { IsSeatOf claims.now seat.old }
    requires held { IsHeld claims.now.plan seat.old.view (IsListed kept.old.nodes.items) }
    ensures of { IsSeatOf claims.now seat.new }
    ensures held { MatchOption result (IsHeld claims.now.plan seat.new.view NoNode) (λ node. IsHeld claims.now.plan seat.new.view (λ m. (m ≡ node) ⊎ IsListed kept.new.nodes.items m)) }
    ensures fresh { IfSome result (λ node. list_any (eqb node) kept.new.nodes.items ≡ false) }
    ensures none { result ≡ None → kept.new.nodes.items ≡ [] }
    ensures on { IsGoneOn seat.old.view seat.new.view }
    ensures own { IsSameDeque own.old.deque own.new.deque }
{
    match kept.pop() {
        Some(node) => Some(node),
        None => take_own(claims, seat, own),
    }
}

/// Works a node that the seat has, beside others that it keeps.
pub(crate) fn work_node<W: Tagged, H: Tagged, N: NodeWork<W, H>>(
    claims: &Claims<W, H>,
    seat: &mut ClaimSeat<W, H>,
    work: &N,
    node: u32,
    kept: &Ready,
    found: &mut Ready,
) -> Result<(), AllocError>
    requires meant { IsFor (tags W.run W.node W.step W.follows) (N.run work.now) (N.step work.now) (N.edges work.now) claims.now.plan }
    requires of { IsSeatOf claims.now seat.old }
    requires held { IsHeld claims.now.plan seat.old.view (λ m. (m ≡ node) ⊎ IsListed kept.now.nodes.items m) }
    requires fresh { list_any (eqb node) kept.now.nodes.items ≡ false }
    requires empty { found.old.nodes.items ≡ [] }
    ensures of { OnOk result (IsSeatOf claims.now seat.new) }
    ensures held { OnOk result (IsHeld claims.now.plan seat.new.view (λ m. IsListed kept.now.nodes.items m ⊎ IsListed found.new.nodes.items m)) }
    ensures apart { OnOk result ((m : ℕ) → IsListed kept.now.nodes.items m → IsListed found.new.nodes.items m → ⊥) }
    ensures on { OnOk result (IsGoneOn seat.old.view seat.new.view) }
    ensures back { OnOk result (at seat.new.view.nodes node ≡ PutBack) }
{
    let _ = kept;
    work.work(claims, seat, node, found)?;
    Ok(())
}

/// Works a node that the hand has, and passes on what that makes ready. How many nodes it put on offer. Where memory runs out, the
/// others do not look for nodes that it would have made ready.
fn work_one<W: Tagged, H: Tagged, N: NodeWork<W, H>>(
    claims: &Claims<W, H>,
    seat: &mut ClaimSeat<W, H>,
    work: &N,
    node: u32,
    hand: &mut Hand,
    kept: &mut Ready,
    progress: &Progress,
) -> Result<u64, AllocError>
    requires meant { IsFor (tags W.run W.node W.step W.follows) (N.run work.now) (N.step work.now) (N.edges work.now) claims.now.plan }
    requires of { IsSeatOf claims.now seat.old }
    requires held { IsHeld claims.now.plan seat.old.view (λ m. (m ≡ node) ⊎ IsListed kept.old.nodes.items m) }
    requires fresh { list_any (eqb node) kept.old.nodes.items ≡ false }
    ensures of { OnOk result (IsSeatOf claims.now seat.new) }
    ensures held { OnOk result (IsHeld claims.now.plan seat.new.view (IsListed kept.new.nodes.items)) }
    ensures on { OnOk result (IsGoneOn seat.old.view seat.new.view) }
    ensures hand { hand_mark hand.new ≡ hand_mark hand.old }
{
    let mut found = Ready::new();
    match work_node(claims, seat, work, node, kept, &mut found) {
        Ok(()) => progress.count(),
        Err(error) => {
            progress.end();
            return Err(error);
        }
    }
    Ok(pass_on(claims, seat, &mut hand.own, &mut found, kept))
}

/// Whether a hand has a node: one that it has kept, or else one that it finds, which it keeps then.
pub(crate) fn has_node<W: Tagged, H: Tagged>(
    claims: &Claims<W, H>,
    seat: &mut ClaimSeat<W, H>,
    hand: &mut Hand,
    kept: &mut Ready,
    progress: &Progress,
) -> bool
    requires of { IsSeatOf claims.now seat.old }
    requires held { IsHeld claims.now.plan seat.old.view (IsListed kept.old.nodes.items) }
    ensures of { IsSeatOf claims.now seat.new }
    ensures held { IsHeld claims.now.plan seat.new.view (IsListed kept.new.nodes.items) }
    ensures none { result ≡ false → IsHeld claims.now.plan seat.new.view NoNode }
    ensures on { IsGoneOn seat.old.view seat.new.view }
    ensures hand { hand_mark hand.new ≡ hand_mark hand.old }
{
    if !kept.nodes().is_empty() {
        return true;
    }
    match look_for_node(claims, seat, hand, progress) {
        Some(node) => {
            claims.bound_nodes();
            kept.add(node);
            true
        }
        None => false,
    }
}

/// Works nodes until there are some for another hand, or until the hand has no node and finds none. How many there are for another
/// hand: those that it put on offer, or one where it found a node, since the others have more than they work.
pub(crate) fn work_seat<W: Tagged, H: Tagged, N: NodeWork<W, H>>(
    claims: &Claims<W, H>,
    seat: &mut ClaimSeat<W, H>,
    work: &N,
    hand: &mut Hand,
    kept: &mut Ready,
    progress: &Progress,
) -> Result<u64, AllocError>
    requires meant { IsFor (tags W.run W.node W.step W.follows) (N.run work.now) (N.step work.now) (N.edges work.now) claims.now.plan }
    requires of { IsSeatOf claims.now seat.old }
    requires held { IsHeld claims.now.plan seat.old.view (IsListed kept.old.nodes.items) }
    ensures of { OnOk result (IsSeatOf claims.now seat.new) }
    ensures held { OnOk result (IsHeld claims.now.plan seat.new.view (IsListed kept.new.nodes.items)) }
    ensures on { OnOk result (IsGoneOn seat.old.view seat.new.view) }
    ensures hand { hand_mark hand.new ≡ hand_mark hand.old }
{
    for _ in 0..claims.nodes() {
        match next_node(claims, seat, &mut hand.own, kept) {
            Some(node) => {
                let offered = work_one(claims, seat, work, node, hand, kept, progress)?;
                if offered > 0 {
                    return Ok(offered);
                }
            }
            None => return Ok(u64::from(has_node(claims, seat, hand, kept, progress))),
        }
    }
    Ok(0)
}

/// Works nodes until the hand has none and finds none.
pub(crate) fn work_out<W: Tagged, H: Tagged, N: NodeWork<W, H>>(
    claims: &Claims<W, H>,
    seat: &mut ClaimSeat<W, H>,
    work: &N,
    hand: &mut Hand,
    kept: &mut Ready,
    progress: &Progress,
) -> Result<(), AllocError>
    requires meant { IsFor (tags W.run W.node W.step W.follows) (N.run work.now) (N.step work.now) (N.edges work.now) claims.now.plan }
    requires of { IsSeatOf claims.now seat.old }
    requires held { IsHeld claims.now.plan seat.old.view (IsListed kept.old.nodes.items) }
    ensures of { OnOk result (IsSeatOf claims.now seat.new) }
    ensures held { OnOk result (IsHeld claims.now.plan seat.new.view NoNode) }
    ensures on { OnOk result (IsGoneOn seat.old.view seat.new.view) }
    ensures hand { hand_mark hand.new ≡ hand_mark hand.old }
{
    for _ in 0..claims.nodes() {
        if work_seat(claims, seat, work, hand, kept, progress)? == 0 {
            break;
        }
    }
    offer_all(claims, seat, kept);
    Ok(())
}
