//! The forms of lines.

ghost use Rattle.script_lines.specs.Answers.{Reads};
ghost use Rattle.script_lines.specs.Grammar.{node_at, file_name_at, file_at, source_at, print_at, publish_at, form_at, line_at};
ghost use Rattle.script_lines.specs.Bare.{bare_line};

use crate::fault::Misread;
use crate::line::Line;
use crate::lists::{Separator, list};
use crate::making::any_making;
use crate::members::digits;
use crate::parts::{BAD_LINE, Reading, after_word, mark_expected, name};
use crate::token::{Token, Word};
use std::alloc::Global;

/// NAME = MAKING.
#[tactic(auto, unfolding(crate::specs::Grammar::node_at))]
fn node<'a, 't>(alloc: Global, tokens: &'t [Token<'a>]) -> Reading<'a, 't, Line<'a>>
    ensures { Reads (λ x. (bare_line x.0, x.1.now)) result (node_at tokens.now) }
{
    let (name, rest) = name(tokens)?;
    let rest = mark_expected("=", rest)?;
    let (making, rest) = any_making(alloc, rest)?;
    Ok((Line::Node { name, making }, rest))
}

#[tactic(auto, unfolding(crate::specs::Grammar::file_name_at))]
fn file_name<'a, 't>(tokens: &'t [Token<'a>]) -> Reading<'a, 't, Option<Word<'a>>>
    ensures { Reads (λ x. (x.0, x.1.now)) result (file_name_at tokens.now) }
{
    let Some((first, rest)) = tokens.split_first() else {
        return Err(BAD_LINE);
    };
    match first {
        Token::Text(text) => {
            if text.as_str().is_empty() {
                Err(BAD_LINE)
            } else {
                Ok((Some(text.again()), rest))
            }
        }
        Token::Word(_) | Token::Number(_) | Token::Mark(_) => Err(BAD_LINE),
    }
}

/// [from TEXT].
#[tactic(auto, unfolding(crate::specs::Grammar::file_at))]
fn file<'a, 't>(tokens: &'t [Token<'a>]) -> Reading<'a, 't, Option<Word<'a>>>
    ensures { Reads (λ x. (x.0, x.1.now)) result (file_at tokens.now) }
{
    match after_word("from", tokens) {
        Some(rest) => file_name(rest),
        None => Ok((None, tokens)),
    }
}

/// NAME COL : KIND {COL : KIND} [from TEXT].
#[tactic(auto, unfolding(crate::specs::Grammar::source_at))]
fn source<'a, 't>(alloc: Global, tokens: &'t [Token<'a>]) -> Reading<'a, 't, Line<'a>>
    ensures { Reads (λ x. (bare_line x.0, x.1.now)) result (source_at tokens.now) }
{
    let (name, rest) = name(tokens)?;
    let (columns, rest) = list(alloc, Separator::Nothing, rest)?;
    let (file, rest) = file(rest)?;
    Ok((
        Line::Source {
            name,
            columns,
            file,
        },
        rest,
    ))
}

#[tactic(auto, unfolding(crate::specs::Grammar::print_at))]
fn print<'a, 't>(tokens: &'t [Token<'a>]) -> Reading<'a, 't, Line<'a>>
    ensures { Reads (λ x. (bare_line x.0, x.1.now)) result (print_at tokens.now) }
{
    let (name, rest) = name(tokens)?;
    Ok((Line::Print { name }, rest))
}

#[tactic(auto, unfolding(crate::specs::Grammar::publish_at))]
fn publish<'a, 't>(tokens: &'t [Token<'a>]) -> Reading<'a, 't, Line<'a>>
    ensures { Reads (λ x. (bare_line x.0, x.1.now)) result (publish_at tokens.now) }
{
    let (name, rest) = name(tokens)?;
    let (rows, rest) = digits(rest)?;
    Ok((Line::Publish { name, rows }, rest))
}

#[tactic(auto, unfolding(crate::specs::Grammar::form_at))]
fn form<'a, 't>(alloc: Global, tokens: &'t [Token<'a>]) -> Reading<'a, 't, Line<'a>>
    ensures { Reads (λ x. (bare_line x.0, x.1.now)) result (form_at tokens.now) }
{
    if let Some(rest) = after_word("table", tokens) {
        return source(alloc, rest);
    }
    if let Some(rest) = after_word("print", tokens) {
        return print(rest);
    }
    if let Some(rest) = after_word("publish", tokens) {
        return publish(rest);
    }
    node(alloc, tokens)
}

/// What the tokens of a line say, where they are of the grammar.
#[tactic(auto, unfolding(crate::specs::Grammar::line_at))]
pub(crate) fn line<'a>(alloc: Global, tokens: &[Token<'a>]) -> Result<Line<'a>, Misread>
    ensures { Reads bare_line result (line_at tokens.now) }
{
    let (line, rest) = form(alloc, tokens)?;
    if rest.is_empty() {
        Ok(line)
    } else {
        Err(BAD_LINE)
    }
}
