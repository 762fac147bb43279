//! The tokens of a line. They borrow the script's text.

ghost use Rattle.std.specs.Prelude.{◌≡◌};

use std::marker::Model;

/// A piece of the script's text, which contracts see as its bytes.
#[derive(Drop)]
pub struct Word<'a> {
    text: &'a str,
}

impl<'a> Model for Word<'a> {
    ghost use Rattle.std.specs.Prelude.{List, ℕ};

    ghost Value = { List ℕ };

    ghost view = { λ a. a.text.now };
}

impl<'a> Word<'a> {
    /// The piece as a word.
    pub fn of(text: &'a str) -> Word<'a>
        ensures { result ≡ text.now }
    {
        Word { text }
    }

    /// The piece of the text.
    pub fn as_str(&self) -> &'a str
        ensures { result.now ≡ self.now }
    {
        self.text
    }

    /// The same piece.
    pub fn again(&self) -> Word<'a>
        ensures { result ≡ self.now }
    {
        Word::of(self.text)
    }
}

/// A token of a line.
#[derive(Drop)]
pub enum Token<'a> {
    /// A name or a word that is reserved.
    Word(Word<'a>),
    Number(i64),
    /// What stands between two double quotes.
    Text(Word<'a>),
    /// One or two marks that are one symbol, as `<=`.
    Mark(Word<'a>),
}
