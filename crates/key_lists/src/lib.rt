//! Lists of keys: what it is for a key to be among others and for keys to rise, and what follows from it.
//!
//! The definitions stand in `specs/Keys.antt`, and the lemmas that the crates above share in `proofs/`: `Every` for
//! what holds of each element, `Parts` for lists cut and changed at a place, `Among` for numbers among others, `Rising`
//! for numbers that rise, `Ranges` for numbers that follow one another, `Booleans` for tests.
#![tactic(auto)]

ghost use Rattle.std.specs.Prelude.{◌≡◌, ℕ, List};
ghost use Rattle.key_lists.specs.Keys.{IsRising, is_among, without};

/// Rising lists that hold the same keys are one list.
pub fn rising_lists_are_sets()
    ensures { (xs ys : List ℕ) → IsRising xs → IsRising ys → ((key : ℕ) → is_among key xs ≡ is_among key ys) → xs ≡ ys }
{}

/// Keys still rise where some are left out.
pub fn keys_rise_without_others()
    ensures { (others keys : List ℕ) → IsRising keys → IsRising (without others keys) }
{}
