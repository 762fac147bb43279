//! The hands get passes of all deques before a step, and give them back after it.

ghost use Rattle.std.specs.Prelude.{◌≡◌, ◌≢◌, ◌≤◌, ◌<◌, ℕ, vec_len, vec_capacity};
ghost use lib.ListN.{get_elem?};
ghost use mathlib.Core.Option.{some};
ghost use Rattle.steal_workers.specs.declared.hand.Hand.{Hand};
ghost use Rattle.steal_workers.specs.Deques.{IsRested};
ghost use Rattle.steal_workers.specs.Hands.{AllRested, hand_marks};
ghost use Rattle.steal_workers.specs.Musters.{IsCrewed, nothing, passes_of};

use crate::hand::Hand;

/// Gives a hand a pass of another's deque, where it has none.
fn arm_one(hands: &mut Vec<Hand>, place: usize, other: usize)
    requires within { (place < vec_len hands.old) × (other < vec_len hands.old) × (vec_len hands.old ≤ 64) }
    requires crew { IsCrewed nothing (hand_marks hands.old.items) }
    ensures len { (vec_len hands.new ≡ vec_len hands.old) × (vec_capacity hands.new ≡ vec_capacity hands.old) }
    ensures crew { IsCrewed nothing (hand_marks hands.new.items) }
{
    if other >= hands[place].raids.len() {
        return;
    }
    if hands[place].raids[other].is_armed() {
        return;
    }
    let pass = hands[other].own.cut();
    hands[place].raids[other].arm(pass);
}

/// Gives each hand a pass of every deque.
pub(crate) fn arm(hands: &mut Vec<Hand>)
    requires few { vec_len hands.old ≤ 64 }
    requires crew { IsCrewed nothing (hand_marks hands.old.items) }
    ensures len { (vec_len hands.new ≡ vec_len hands.old) × (vec_capacity hands.new ≡ vec_capacity hands.old) }
    ensures crew { IsCrewed nothing (hand_marks hands.new.items) }
{
    let count = hands.len();
    'places: for place in 0..count {
        'others: for other in 0..count {
            arm_one(hands, place, other);
        }
    }
}

/// Takes a hand's pass of another's deque back, where it has one.
fn disarm_one(hands: &mut Vec<Hand>, place: usize, other: usize)
    requires within { (place < vec_len hands.old) × (other < vec_len hands.old) × (vec_len hands.old ≤ 64) }
    requires crew { IsCrewed nothing (hand_marks hands.old.items) }
    ensures len { (vec_len hands.new ≡ vec_len hands.old) × (vec_capacity hands.new ≡ vec_capacity hands.old) }
    ensures crew { IsCrewed nothing (hand_marks hands.new.items) }
    ensures gone { passes_of (hand_marks hands.new.items) place other ≡ 0 }
    ensures less { (i k : ℕ) → passes_of (hand_marks hands.new.items) i k ≤ passes_of (hand_marks hands.old.items) i k }
{
    if other >= hands[place].raids.len() {
        return;
    }
    match hands[place].raids[other].disarm() {
        Some(pass) => hands[other].own.join(pass),
        None => {}
    }
}

/// Takes all passes back.
fn disarm(hands: &mut Vec<Hand>)
    requires few { vec_len hands.old ≤ 64 }
    requires crew { IsCrewed nothing (hand_marks hands.old.items) }
    ensures len { (vec_len hands.new ≡ vec_len hands.old) × (vec_capacity hands.new ≡ vec_capacity hands.old) }
    ensures crew { IsCrewed nothing (hand_marks hands.new.items) }
    ensures gone { (i k : ℕ) → i < vec_len hands.new → k < vec_len hands.new → passes_of (hand_marks hands.new.items) i k ≡ 0 }
{
    let count = hands.len();
    'places: for place in 0..count {
        'others: for other in 0..count {
            disarm_one(hands, place, other);
        }
    }
}

/// Empties a hand's deque, of which the hand has all parts.
fn rest_one(hands: &mut Vec<Hand>, place: usize)
    requires within { place < vec_len hands.old }
    requires crew { IsCrewed nothing (hand_marks hands.old.items) }
    requires gone { (i k : ℕ) → i < vec_len hands.old → k < vec_len hands.old → passes_of (hand_marks hands.old.items) i k ≡ 0 }
    ensures len { (vec_len hands.new ≡ vec_len hands.old) × (vec_capacity hands.new ≡ vec_capacity hands.old) }
    ensures marks { hand_marks hands.new.items ≡ hand_marks hands.old.items }
    ensures rested { (hand : Hand) → get_elem? hands.new.items place ≡ some hand → IsRested hand.own.deque }
    ensures others { (k : ℕ) → k ≢ place → get_elem? hands.new.items k ≡ get_elem? hands.old.items k }
{
    hands[place].own.empty();
}

/// Takes all passes back, and empties all deques.
pub(crate) fn rest(hands: &mut Vec<Hand>)
    requires few { vec_len hands.old ≤ 64 }
    requires crew { IsCrewed nothing (hand_marks hands.old.items) }
    ensures len { (vec_len hands.new ≡ vec_len hands.old) × (vec_capacity hands.new ≡ vec_capacity hands.old) }
    ensures crew { IsCrewed nothing (hand_marks hands.new.items) }
    ensures rested { AllRested hands.new.items }
{
    disarm(hands);
    for place in 0..hands.len() {
        rest_one(hands, place);
    }
}
