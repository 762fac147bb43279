//! New hands, with their deques and their raids.

ghost use Rattle.std.specs.Prelude.{◌≡◌, ◌<◌, [], IfOk, map, vec_len};
ghost use Rattle.steal_workers.specs.Deques.{IsRested};
ghost use Rattle.steal_workers.specs.Hands.{AllRested, hand_marks, raid_mark};
ghost use Rattle.steal_workers.specs.Musters.{IsCrewed, idle_on, nothing};

use crate::hand::Hand;
use crate::own::Own;
use crate::raid::Raid;
use std::alloc::{AllocError, Global};

/// A hand with an empty deque and without raids.
fn bare_hand(alloc: Global, place: usize) -> Result<Hand, AllocError>
    ensures rested { IfOk result (λ hand. IsRested hand.own.deque) }
    ensures bare { IfOk result (λ hand. hand.raids.items ≡ []) }
{
    Ok(Hand {
        place,
        own: Own::new(alloc)?,
        raids: Vec::new(alloc),
    })
}

/// So many hands with empty deques and without raids.
fn bare_hands(alloc: Global, count: usize) -> Result<Vec<Hand>, AllocError>
    ensures count { IfOk result (λ hands. vec_len hands ≡ count) }
    ensures crew { IfOk result (λ hands. IsCrewed nothing (hand_marks hands.items)) }
    ensures rested { IfOk result (λ hands. AllRested hands.items) }
{
    let mut hands = Vec::with_capacity(alloc, count)?;
    for place in 0..count {
        hands.push_reserved(bare_hand(alloc, place)?);
    }
    Ok(hands)
}

/// Raids on the deques of all hands, without passes.
fn raids_on(alloc: Global, hands: &Vec<Hand>) -> Result<Vec<Raid>, AllocError>
    ensures { IfOk result (λ raids. map raid_mark raids.items ≡ map idle_on (hand_marks hands.now.items)) }
{
    let mut raids = Vec::with_capacity(alloc, hands.len())?;
    for hand in hands.iter() {
        raids.push_reserved(Raid::new(hand.own.thief()?));
    }
    Ok(raids)
}

/// Gives a hand raids without passes.
fn give_raids(hands: &mut Vec<Hand>, place: usize, raids: Vec<Raid>)
    requires within { place < vec_len hands.old }
    requires crew { IsCrewed nothing (hand_marks hands.old.items) }
    requires rested { AllRested hands.old.items }
    requires idle { map raid_mark raids.items ≡ map idle_on (hand_marks hands.old.items) }
    ensures len { vec_len hands.new ≡ vec_len hands.old }
    ensures crew { IsCrewed nothing (hand_marks hands.new.items) }
    ensures rested { AllRested hands.new.items }
{
    hands[place].raids = raids;
}

/// So many hands with empty deques, each with a raid on every deque.
pub(crate) fn new_hands(alloc: Global, count: usize) -> Result<Vec<Hand>, AllocError>
    ensures count { IfOk result (λ hands. vec_len hands ≡ count) }
    ensures crew { IfOk result (λ hands. IsCrewed nothing (hand_marks hands.items)) }
    ensures rested { IfOk result (λ hands. AllRested hands.items) }
{
    let mut hands = bare_hands(alloc, count)?;
    for place in 0..count {
        let raids = raids_on(alloc, &hands)?;
        give_raids(&mut hands, place, raids);
    }
    Ok(hands)
}
