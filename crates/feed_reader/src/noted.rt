//! Texts that are noted, each once.

ghost use Rattle.std.specs.Prelude.{◌≡◌, [], OnOk, IfOk};
ghost use Rattle.feed_reader.specs.Coding.{with_text};

use std::alloc::{AllocError, Global};
use std::collections::BTreeSet;
use std::marker::Model;
use tick_model::items::Items;
use tick_model::name::Name;

/// The distinct texts that are noted. Contracts see them in byte order.
#[derive(Drop)]
pub(crate) struct NotedTexts<'a> {
    ordered: BTreeSet<&'a str>,
}

impl<'a> Model for NotedTexts<'a> {
    ghost use Rattle.std.specs.Prelude.{List, ℕ};
    ghost use Rattle.tick_model.specs.LawfulRuns.{AreTexts};
    ghost use Rattle.feed_reader.specs.Noted.{noted};

    ghost Value = { List (List ℕ) };

    ghost view = { λ a. noted a.ordered };

    ghost invariant = { λ a. AreTexts (noted a.ordered) };
}

impl<'a> NotedTexts<'a> {
    /// No texts.
    pub(crate) fn new(alloc: Global) -> NotedTexts<'a>
        ensures { result ≡ [] }
    {
        NotedTexts {
            ordered: BTreeSet::new(alloc),
        }
    }

    /// Notes a text; it stays where it is, and one that is known takes no memory.
    pub(crate) fn note(&mut self, text: &'a str) -> Result<(), AllocError>
        ensures { OnOk result (self.new ≡ with_text self.old text.now) }
    {
        if text.is_empty() {
            return Ok(());
        }
        self.ordered.insert(text)?;
        Ok(())
    }

    /// The texts as names.
    pub(crate) fn names(&self, alloc: Global) -> Result<Items<Name>, AllocError>
        ensures { IfOk result (λ names. names ≡ self.now) }
    {
        let mut names = Items::new(alloc);
        for text in &self.ordered {
            names.push(Name::of(String::from_str(alloc, text)?))?;
        }
        Ok(names)
    }
}
