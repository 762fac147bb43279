//! Distinct texts, numbered in the order in which they came.

ghost use Rattle.std.specs.Prelude.{◌≡◌, [], position, OnOk, OnErr, IfOk};
ghost use Rattle.std.specs.List.{position_or_len};
ghost use Rattle.std.specs.Str.{bytes_eq};
ghost use Rattle.script_reader.specs.Checks.{place_of, with_text};

use indexmap::IndexSet;
use std::alloc::{AllocError, Global};
use std::marker::Model;
use tick_model::items::Items;
use tick_model::name::Name;

/// Distinct texts, numbered in the order in which they came.
#[derive(Drop)]
pub(crate) struct Texts {
    alloc: Global,
    texts: IndexSet<String>,
}

impl Model for Texts {
    ghost use Rattle.std.specs.Prelude.{List, ℕ, map, string_bytes};

    ghost Value = { List (List ℕ) };

    ghost view = { λ a. map string_bytes a.texts.keys };
}

impl Texts {
    /// No texts.
    pub(crate) fn new(alloc: Global) -> Texts
        ensures { result ≡ [] }
    {
        Texts {
            alloc,
            texts: IndexSet::new(alloc),
        }
    }

    /// The number of a text, if it is there.
    pub(crate) fn place(&self, text: &str) -> Option<usize>
        ensures { result ≡ position (bytes_eq text.now) self.now }
    {
        self.texts.get_index_of(text)
    }

    /// The number of a text, which comes last where it is new. A text that is there is not copied again.
    pub(crate) fn number(&mut self, text: &str) -> Result<usize, AllocError>
        ensures place { IfOk result (λ place. place ≡ place_of text.now self.old) }
        ensures ok { OnOk result (self.new ≡ with_text self.old text.now) }
        ensures err { OnErr result (self.new ≡ self.old) }
    {
        match self.texts.get_index_of(text) {
            Some(place) => Ok(place),
            None => {
                let copy = String::from_str(self.alloc, text)?;
                let (place, _new) = self.texts.insert_full(copy)?;
                Ok(place)
            }
        }
    }

    /// The texts as names, in order.
    pub(crate) fn into_names(self) -> Result<Items<Name>, AllocError>
        ensures { IfOk result (λ names. names ≡ self) }
    {
        let Texts { alloc, texts } = self;
        let mut names = Items::new(alloc);
        for text in texts {
            names.push(Name::of(text))?;
        }
        Ok(names)
    }
}
