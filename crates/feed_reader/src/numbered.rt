//! Texts under numbers, in the order in which they come.

ghost use Rattle.std.specs.Prelude.{◌≡◌, ◌<◌, ◌^◌, [], IfOk, OnOk, slice_get, Some};
ghost use Rattle.feed_reader.specs.Raw.{IsNumbering};

use std::alloc::{AllocError, Global};
use std::marker::Model;
use tick_model::items::Items;
use tick_model::name::Name;

/// A text that is not found after so many slots is numbered anew: so no texts make a search long.
const MOST_PROBES: usize = 8;

const FIRST_SLOTS: usize = 64;

/// The number of no text.
const VACANT: u32 = u32::MAX;

/// Texts under numbers. Contracts see the texts, in the order of their numbers.
#[derive(Drop)]
pub(crate) struct NumberedTexts {
    texts: Vec<Name>,
    /// Numbers of texts, near the slots that their bytes are led to. They are no more than guesses: the text that is found is looked at.
    slots: Vec<u32>,
}

impl Model for NumberedTexts {
    ghost use Rattle.std.specs.Prelude.{List, ℕ};

    ghost Value = { List (List ℕ) };

    ghost view = { λ a. a.texts.items };
}

/// A number that is made of all bytes of a text.
fn mixed(text: &[u8]) -> usize {
    let mut sum = 0u64;
    for byte in text {
        sum = (sum ^ u64::from(*byte)).wrapping_mul(0x9E37_79B9_7F4A_7C15);
    }
    (sum >> 32) as usize
}

/// So many vacant slots.
fn vacant_slots(alloc: Global, count: usize) -> Result<Vec<u32>, AllocError> {
    let mut slots = Vec::with_capacity(alloc, count)?;
    for _ in 0..count {
        slots.push(VACANT)?;
    }
    Ok(slots)
}

impl NumberedTexts {
    /// No texts.
    pub(crate) fn new(alloc: Global) -> NumberedTexts
        ensures { result ≡ [] }
    {
        NumberedTexts {
            texts: Vec::new(alloc),
            slots: Vec::new(alloc),
        }
    }

    /// The number of a text, or the slot that is to have it.
    fn find(&self, text: &str) -> Result<usize, usize>
        ensures number { IfOk result (λ number. slice_get self.now number ≡ Some text.now) }
        ensures small { IfOk result (λ number. number < 2 ^ 63) }
    {
        let mut slot = mixed(text.as_bytes());
        for _ in 0..MOST_PROBES {
            slot &= self.slots.len().wrapping_sub(1);
            let Some(number) = self.slots.get(slot) else {
                return Err(slot);
            };
            let number = *number as usize;
            match self.texts.get(number) {
                Some(own) if own.as_str() == text => return Ok(number),
                Some(_) => slot = slot.wrapping_add(1),
                None => return Err(slot),
            }
        }
        Err(slot)
    }

    /// Puts the number of a text into the slot that is to have it.
    fn enter(&mut self, slot: usize, number: usize)
        ensures { self.new ≡ self.old }
    {
        if let Some(own) = self.slots.get_mut(slot) {
            *own = u32::try_from(number).unwrap_or(VACANT);
        }
    }

    /// Makes room for one more text.
    fn make_room(&mut self, alloc: Global) -> Result<(), AllocError>
        ensures { OnOk result (self.new ≡ self.old) }
    {
        let count = self.texts.len();
        if count < self.slots.len() / 2 {
            return Ok(());
        }
        self.slots = vacant_slots(alloc, FIRST_SLOTS.max(self.slots.len().wrapping_mul(4)))?;
        for number in 0..count {
            if let Err(slot) = self.find(self.texts[number].as_str()) {
                self.enter(slot, number);
            }
        }
        Ok(())
    }

    /// The number of a text, which it is given where it has none.
    pub(crate) fn number(&mut self, alloc: Global, text: &str) -> Result<usize, AllocError>
        ensures number { IfOk result (λ number. slice_get self.new number ≡ Some text.now) }
        ensures small { IfOk result (λ number. number < 2 ^ 63) }
        ensures texts { OnOk result (IsNumbering text.now self.old self.new) }
    {
        if let Ok(number) = self.find(text) {
            return Ok(number);
        }
        self.make_room(alloc)?;
        let number = self.texts.len();
        if let Err(slot) = self.find(text) {
            self.enter(slot, number);
        }
        self.texts.push(Name::of(String::from_str(alloc, text)?))?;
        Ok(number)
    }

    /// The texts.
    pub(crate) fn into_texts(self) -> Items<Name>
        ensures { result ≡ self }
    {
        let NumberedTexts { texts, slots: _ } = self;
        Items::of(texts)
    }
}
