//! The members that lists of lines have.

ghost use Rattle.std.specs.Prelude.{◌≡◌};
ghost use Rattle.script_lines.specs.Answers.{Reads};
ghost use Rattle.script_lines.specs.Formulas.{name_at};
ghost use Rattle.script_lines.specs.Members.{kind_at, declared_at, computed_at, pair_at, over_at, function_at, gathered_at, sorted_at, digits_at};
ghost use Rattle.script_lines.specs.Bare.{bare_column};

use crate::formulas::expression;
use crate::line::{AggColumn, Computed, Declared, Function, Pair, Sorted};
use crate::lists::Member;
use crate::parts::{BAD_LINE, Reading, after_mark, after_word, mark_expected, name};
use crate::token::{Token, Word};
use std::alloc::Global;
use tick_model::plan::Kind;

#[tactic(auto, unfolding(crate::specs::Members::kind_at))]
fn kind<'a, 't>(tokens: &'t [Token<'a>]) -> Reading<'a, 't, Kind>
    ensures { Reads (λ x. (x.0, x.1.now)) result (kind_at tokens.now) }
{
    if let Some(rest) = after_word("long", tokens) {
        return Ok((Kind::Long, rest));
    }
    if let Some(rest) = after_word("text", tokens) {
        return Ok((Kind::Text, rest));
    }
    Err(BAD_LINE)
}

/// COL : KIND.
#[tactic(auto, unfolding(crate::specs::Members::declared_at))]
fn declared<'a, 't>(tokens: &'t [Token<'a>]) -> Reading<'a, 't, Declared<'a>>
    ensures { Reads (λ x. (x.0, x.1.now)) result (declared_at tokens.now) }
{
    let (name, rest) = name(tokens)?;
    let rest = mark_expected(":", rest)?;
    let (kind, rest) = kind(rest)?;
    Ok((Declared { name, kind }, rest))
}

/// COL = EXPR.
#[tactic(auto, unfolding(crate::specs::Members::computed_at))]
fn computed<'a, 't>(alloc: Global, tokens: &'t [Token<'a>]) -> Reading<'a, 't, Computed<'a>>
    ensures { Reads (λ x. (bare_column x.0, x.1.now)) result (computed_at tokens.now) }
{
    let (name, rest) = name(tokens)?;
    let rest = mark_expected("=", rest)?;
    let (formula, rest) = expression(alloc, rest)?;
    Ok((Computed { name, formula }, rest))
}

/// COL [= COL]: one alone stands for both.
#[tactic(auto, unfolding(crate::specs::Members::pair_at))]
pub(crate) fn pair<'a, 't>(tokens: &'t [Token<'a>]) -> Reading<'a, 't, Pair<'a>>
    ensures { Reads (λ x. (x.0, x.1.now)) result (pair_at tokens.now) }
{
    let (first, rest) = name(tokens)?;
    match after_mark("=", rest) {
        Some(rest) => {
            let (second, rest) = name(rest)?;
            Ok((Pair { first, second }, rest))
        }
        None => {
            let second = first.again();
            Ok((Pair { first, second }, rest))
        }
    }
}

#[tactic(auto, unfolding(crate::specs::Members::function_at, crate::specs::Members::over_at))]
fn function<'a, 't>(tokens: &'t [Token<'a>]) -> Reading<'a, 't, Function<'a>>
    ensures { Reads (λ x. (x.0, x.1.now)) result (function_at tokens.now) }
{
    if let Some(rest) = after_word("count", tokens) {
        return Ok((Function::Count, rest));
    }
    if let Some(rest) = after_word("sum", tokens) {
        let (column, rest) = name(rest)?;
        return Ok((Function::Sum(column), rest));
    }
    if let Some(rest) = after_word("min", tokens) {
        let (column, rest) = name(rest)?;
        return Ok((Function::Min(column), rest));
    }
    if let Some(rest) = after_word("max", tokens) {
        let (column, rest) = name(rest)?;
        return Ok((Function::Max(column), rest));
    }
    if let Some(rest) = after_word("first", tokens) {
        let (column, rest) = name(rest)?;
        return Ok((Function::First(column), rest));
    }
    if let Some(rest) = after_word("last", tokens) {
        let (column, rest) = name(rest)?;
        return Ok((Function::Last(column), rest));
    }
    Err(BAD_LINE)
}

/// COL = FUNC.
#[tactic(auto, unfolding(crate::specs::Members::gathered_at))]
fn gathered<'a, 't>(tokens: &'t [Token<'a>]) -> Reading<'a, 't, AggColumn<'a>>
    ensures { Reads (λ x. (x.0, x.1.now)) result (gathered_at tokens.now) }
{
    let (name, rest) = name(tokens)?;
    let rest = mark_expected("=", rest)?;
    let (function, rest) = function(rest)?;
    Ok((AggColumn { name, function }, rest))
}

/// [-] COL.
#[tactic(auto, unfolding(crate::specs::Members::sorted_at))]
fn sorted<'a, 't>(tokens: &'t [Token<'a>]) -> Reading<'a, 't, Sorted<'a>>
    ensures { Reads (λ x. (x.0, x.1.now)) result (sorted_at tokens.now) }
{
    match after_mark("-", tokens) {
        Some(rest) => {
            let (name, rest) = name(rest)?;
            Ok((
                Sorted {
                    name,
                    descending: true,
                },
                rest,
            ))
        }
        None => {
            let (name, rest) = name(tokens)?;
            Ok((
                Sorted {
                    name,
                    descending: false,
                },
                rest,
            ))
        }
    }
}

/// A number.
#[tactic(auto, unfolding(crate::specs::Members::digits_at))]
pub(crate) fn digits<'a, 't>(tokens: &'t [Token<'a>]) -> Reading<'a, 't, i64>
    ensures { Reads (λ x. (x.0, x.1.now)) result (digits_at tokens.now) }
{
    let Some((first, rest)) = tokens.split_first() else {
        return Err(BAD_LINE);
    };
    match first {
        Token::Number(number) => Ok((*number, rest)),
        Token::Word(_) | Token::Text(_) | Token::Mark(_) => Err(BAD_LINE),
    }
}

impl<'a> Member<'a> for Word<'a> {
    ghost use Rattle.script_lines.specs.Formulas.{name_at};

    ghost shown = { λ word. word };

    ghost member_at = { name_at };

    fn read<'t>(_alloc: Global, tokens: &'t [Token<'a>]) -> Reading<'a, 't, Word<'a>> {
        name(tokens)
    }
}

impl<'a> Member<'a> for Declared<'a> {
    ghost use Rattle.script_lines.specs.Members.{declared_at};

    ghost shown = { λ column. column };

    ghost member_at = { declared_at };

    fn read<'t>(_alloc: Global, tokens: &'t [Token<'a>]) -> Reading<'a, 't, Declared<'a>> {
        declared(tokens)
    }
}

impl<'a> Member<'a> for Computed<'a> {
    ghost use Rattle.script_lines.specs.Members.{computed_at};
    ghost use Rattle.script_lines.specs.Bare.{bare_column};

    ghost shown = { bare_column };

    ghost member_at = { computed_at };

    fn read<'t>(alloc: Global, tokens: &'t [Token<'a>]) -> Reading<'a, 't, Computed<'a>> {
        computed(alloc, tokens)
    }
}

impl<'a> Member<'a> for Pair<'a> {
    ghost use Rattle.script_lines.specs.Members.{pair_at};

    ghost shown = { λ pair. pair };

    ghost member_at = { pair_at };

    fn read<'t>(_alloc: Global, tokens: &'t [Token<'a>]) -> Reading<'a, 't, Pair<'a>> {
        pair(tokens)
    }
}

impl<'a> Member<'a> for AggColumn<'a> {
    ghost use Rattle.script_lines.specs.Members.{gathered_at};

    ghost shown = { λ column. column };

    ghost member_at = { gathered_at };

    fn read<'t>(_alloc: Global, tokens: &'t [Token<'a>]) -> Reading<'a, 't, AggColumn<'a>> {
        gathered(tokens)
    }
}

impl<'a> Member<'a> for Sorted<'a> {
    ghost use Rattle.script_lines.specs.Members.{sorted_at};

    ghost shown = { λ column. column };

    ghost member_at = { sorted_at };

    fn read<'t>(_alloc: Global, tokens: &'t [Token<'a>]) -> Reading<'a, 't, Sorted<'a>> {
        sorted(tokens)
    }
}
