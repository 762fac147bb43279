//! The ranks of texts.

ghost use Rattle.std.specs.Prelude.{◌≡◌, ◌<◌, ◌^◌, IfOk};
ghost use Rattle.feed_reader.specs.Coding.{rank_of};

use std::alloc::{AllocError, Global};
use std::collections::HashMap;
use std::marker::Model;
use tick_model::name::Name;

/// The ranks of texts: their places in a list. Contracts see the list.
#[derive(Drop)]
pub(crate) struct Ranks<'a> {
    texts: &'a [Name],
    ranks: HashMap<&'a str, usize>,
}

impl<'a> Model for Ranks<'a> {
    ghost use Rattle.std.specs.Prelude.{List, ℕ};
    ghost use Rattle.feed_reader.specs.Ranked.{FindsFrom};

    ghost Value = { List (List ℕ) };

    ghost view = { λ a. a.texts.now };

    ghost invariant = { λ a. FindsFrom 0 a.texts.now a.ranks };
}

impl<'a> Ranks<'a> {
    pub(crate) fn of(alloc: Global, texts: &'a [Name]) -> Result<Ranks<'a>, AllocError>
        ensures { IfOk result (λ ranks. ranks ≡ texts.now) }
    {
        let mut ranks = HashMap::new(alloc);
        let mut rank = texts.len();
        while rank > 0 {
            rank -= 1;
            ranks.insert(texts[rank].as_str(), rank)?;
        }
        Ok(Ranks { texts, ranks })
    }

    /// The place of a text, and the number of texts where it is none of them.
    pub(crate) fn rank(&self, text: &str) -> usize
        ensures place { result ≡ rank_of self.now text.now }
        ensures small { result < 2 ^ 63 }
    {
        let count = self.texts.len();
        match self.ranks.get(text) {
            Some(rank) => *rank,
            None => count,
        }
    }
}
