//! The smallest parts of a line: a word, a mark, a name.

ghost use Rattle.std.specs.Prelude.{◌≡◌, Ok};
ghost use Rattle.std.specs.Option.{option_copied};
ghost use Rattle.script_lines.specs.Answers.{Reads};
ghost use Rattle.script_lines.specs.Formulas.{after_word as after_word_of, after_mark as after_mark_of, word_expected as word_expected_of, mark_expected as mark_expected_of, name_at};

use crate::fault::Misread;
use crate::token::{Token, Word};
use tick_model::names::is_name;

/// The most tokens of a line. No line has more parts of one kind, nor parts that stand deeper in one another.
pub(crate) const MOST_TOKENS: usize = 512;

/// A line that is not of the grammar.
pub(crate) const BAD_LINE: Misread = Misread::BadLine;

/// What was read, and the tokens after it.
pub(crate) type Reading<'a, 't, X> = Result<(X, &'t [Token<'a>]), Misread>;

/// The tokens after a word, where they begin with it.
#[tactic(auto, unfolding(crate::specs::Formulas::after_word))]
pub(crate) fn after_word<'a, 't>(word: &str, tokens: &'t [Token<'a>]) -> Option<&'t [Token<'a>]>
    ensures { option_copied result ≡ after_word_of word.now tokens.now }
{
    let (first, rest) = tokens.split_first()?;
    match first {
        Token::Word(other) => {
            if other.as_str() == word {
                Some(rest)
            } else {
                None
            }
        }
        Token::Number(_) | Token::Text(_) | Token::Mark(_) => None,
    }
}

/// The tokens after a mark, where they begin with it.
#[tactic(auto, unfolding(crate::specs::Formulas::after_mark))]
pub(crate) fn after_mark<'a, 't>(mark: &str, tokens: &'t [Token<'a>]) -> Option<&'t [Token<'a>]>
    ensures { option_copied result ≡ after_mark_of mark.now tokens.now }
{
    let (first, rest) = tokens.split_first()?;
    match first {
        Token::Mark(other) => {
            if other.as_str() == mark {
                Some(rest)
            } else {
                None
            }
        }
        Token::Number(_) | Token::Text(_) | Token::Word(_) => None,
    }
}

/// The tokens after a word that has to stand there.
#[tactic(auto, unfolding(crate::specs::Formulas::word_expected))]
pub(crate) fn word_expected<'a, 't>(
    word: &str,
    tokens: &'t [Token<'a>],
) -> Result<&'t [Token<'a>], Misread>
    ensures { Reads (λ rest. rest.now) result (word_expected_of word.now tokens.now) }
{
    match after_word(word, tokens) {
        Some(rest) => Ok(rest),
        None => Err(BAD_LINE),
    }
}

/// The tokens after a mark that has to stand there.
#[tactic(auto, unfolding(crate::specs::Formulas::mark_expected))]
pub(crate) fn mark_expected<'a, 't>(
    mark: &str,
    tokens: &'t [Token<'a>],
) -> Result<&'t [Token<'a>], Misread>
    ensures { Reads (λ rest. rest.now) result (mark_expected_of mark.now tokens.now) }
{
    match after_mark(mark, tokens) {
        Some(rest) => Ok(rest),
        None => Err(BAD_LINE),
    }
}

/// A name.
#[tactic(auto, unfolding(crate::specs::Formulas::name_at))]
pub(crate) fn name<'a, 't>(tokens: &'t [Token<'a>]) -> Reading<'a, 't, Word<'a>>
    ensures { Reads (λ x. (x.0, x.1.now)) result (name_at tokens.now) }
{
    let Some((first, rest)) = tokens.split_first() else {
        return Err(BAD_LINE);
    };
    match first {
        Token::Word(word) => {
            if is_name(word.as_str()) {
                Ok((word.again(), rest))
            } else {
                Err(BAD_LINE)
            }
        }
        Token::Number(_) | Token::Text(_) | Token::Mark(_) => Err(BAD_LINE),
    }
}
