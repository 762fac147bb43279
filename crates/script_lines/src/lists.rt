//! Lists of a line.

ghost use Rattle.std.specs.Prelude.{◌≡◌, map};
ghost use Rattle.std.specs.Option.{option_copied};
ghost use Rattle.script_lines.specs.Answers.{Reads};
ghost use Rattle.script_lines.specs.Members.{ends_bare as ends_bare_at, next_at, more_at, list_at, option_at};

use crate::fault::Misread;
use crate::parts::{BAD_LINE, MOST_TOKENS, Reading, after_mark, after_word};
use crate::token::Token;
use std::alloc::Global;
use tick_model::items::Items;

/// What stands between the members of a list.
#[derive(Clone, Copy, PartialEq, Eq)]
pub enum Separator {
    Comma,
    /// Nothing: the list goes on to the end of the line, or to the word `from`.
    Nothing,
}

/// What a list may have as members.
pub(crate) trait Member<'a>: Sized + Drop {
    ghost use Rattle.std.specs.Prelude.{List};
    ghost use Rattle.script_lines.specs.Answers.{Reads};
    ghost use Rattle.script_lines.specs.Formulas.{Reading};
    ghost use Rattle.script_lines.specs.declared.token.Token.{Token};

    /// The member without where its parts lie in memory.
    ghost shown: { Self → Self };

    /// What a member is over tokens.
    ghost member_at: { List Token → Reading Self };

    /// A member, and the tokens after it.
    fn read<'t>(alloc: Global, tokens: &'t [Token<'a>]) -> Reading<'a, 't, Self>
        ensures { Reads (λ x. (shown x.0, x.1.now)) result (member_at tokens.now) };
}

/// Whether a list without separators ends here.
fn ends_bare(tokens: &[Token]) -> bool
    ensures { result ≡ ends_bare_at tokens.now }
{
    let Some((first, _rest)) = tokens.split_first() else {
        return true;
    };
    match first {
        Token::Word(word) => word.as_str() == "from",
        Token::Number(_) | Token::Text(_) | Token::Mark(_) => false,
    }
}

/// Where the next member begins, if there is one.
#[tactic(auto, unfolding(crate::specs::Members::next_at))]
fn next_member<'a, 't>(separator: Separator, tokens: &'t [Token<'a>]) -> Option<&'t [Token<'a>]>
    ensures { option_copied result ≡ next_at separator tokens.now }
{
    match separator {
        Separator::Comma => after_mark(",", tokens),
        Separator::Nothing => {
            if ends_bare(tokens) {
                None
            } else {
                Some(tokens)
            }
        }
    }
}

/// One member or more.
pub(crate) fn list<'a, 't, M: Member<'a>>(
    alloc: Global,
    separator: Separator,
    tokens: &'t [Token<'a>],
) -> Result<(Items<M>, &'t [Token<'a>]), Misread>
    ensures { Reads (λ x. (map M.shown x.0, x.1.now)) result (list_at M.member_at separator tokens.now) }
{
    let (first, mut rest) = M::read(alloc, tokens)?;
    let mut members = Items::new(alloc);
    members.push(first)?;
    for _ in 0..MOST_TOKENS {
        match next_member(separator, rest) {
            None => return Ok((members, rest)),
            Some(after) => {
                let (member, after) = M::read(alloc, after)?;
                members.push(member)?;
                rest = after;
            }
        }
    }
    Err(BAD_LINE)
}

/// A word and then a list, or nothing.
#[tactic(auto, unfolding(crate::specs::Members::option_at))]
pub(crate) fn optional_list<'a, 't, M: Member<'a>>(
    alloc: Global,
    word: &str,
    tokens: &'t [Token<'a>],
) -> Result<(Items<M>, &'t [Token<'a>]), Misread>
    ensures { Reads (λ x. (map M.shown x.0, x.1.now)) result (option_at M.member_at word.now tokens.now) }
{
    match after_word(word, tokens) {
        Some(rest) => list(alloc, Separator::Comma, rest),
        None => Ok((Items::new(alloc), tokens)),
    }
}
