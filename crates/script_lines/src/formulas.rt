//! Formulas, read by recursive descent.

ghost use Rattle.std.specs.Prelude.{◌≡◌, IfOk, IfErr};
ghost use Rattle.script_lines.specs.Answers.{Reads};
ghost use Rattle.script_lines.specs.Formulas.{atom_at, text_of, product_at, term_at, sum_at, sum_over, factor_at, expr_at};
ghost use Rattle.script_lines.specs.Bare.{bare, add_of, sub_of, mul_of};

use crate::fault::Misread;
use crate::line::Formula;
use crate::parts::{BAD_LINE, MOST_TOKENS, Reading, after_mark, mark_expected};
use crate::token::{Token, Word};
use std::alloc::Global;
use tick_model::names::is_name;

fn text<'a>(text: &Word<'a>) -> Formula<'a>
    ensures { bare result ≡ text_of text.now }
{
    if text.as_str().is_empty() {
        Formula::Null
    } else {
        Formula::Text(text.again())
    }
}

#[tactic(auto, unfolding(crate::specs::Formulas::atom_at))]
fn atom<'a, 't>(tokens: &'t [Token<'a>]) -> Reading<'a, 't, Formula<'a>>
    ensures { Reads (λ x. (bare x.0, x.1.now)) result (atom_at tokens.now) }
{
    let Some((first, rest)) = tokens.split_first() else {
        return Err(BAD_LINE);
    };
    match first {
        Token::Word(word) => {
            if word.as_str() == "null" {
                Ok((Formula::Null, rest))
            } else if is_name(word.as_str()) {
                Ok((Formula::Column(word.again()), rest))
            } else {
                Err(BAD_LINE)
            }
        }
        Token::Number(number) => Ok((Formula::Number(*number), rest)),
        Token::Text(content) => Ok((text(content), rest)),
        Token::Mark(_) => Err(BAD_LINE),
    }
}

fn sum_of<'a>(alloc: Global, left: Formula<'a>, right: Formula<'a>) -> Result<Formula<'a>, Misread>
    ensures memory { IfErr result (λ miss. miss ≡ Misread.Memory) }
    ensures value { IfOk result (λ formula. bare formula ≡ add_of (bare left.entry) (bare right.entry)) }
{
    Ok(Formula::Add(Box::new(alloc, left)?, Box::new(alloc, right)?))
}

fn difference_of<'a>(
    alloc: Global,
    left: Formula<'a>,
    right: Formula<'a>,
) -> Result<Formula<'a>, Misread>
    ensures memory { IfErr result (λ miss. miss ≡ Misread.Memory) }
    ensures value { IfOk result (λ formula. bare formula ≡ sub_of (bare left.entry) (bare right.entry)) }
{
    Ok(Formula::Sub(Box::new(alloc, left)?, Box::new(alloc, right)?))
}

fn product_of<'a>(
    alloc: Global,
    left: Formula<'a>,
    right: Formula<'a>,
) -> Result<Formula<'a>, Misread>
    ensures memory { IfErr result (λ miss. miss ≡ Misread.Memory) }
    ensures value { IfOk result (λ formula. bare formula ≡ mul_of (bare left.entry) (bare right.entry)) }
{
    Ok(Formula::Mul(Box::new(alloc, left)?, Box::new(alloc, right)?))
}

/// What the left is multiplied by, grouped from the left.
#[cycle(expressions)]
#[tactic(auto, unfolding(crate::specs::Formulas::product_at))]
fn product<'a, 't>(
    alloc: Global,
    depth: usize,
    most: usize,
    left: Formula<'a>,
    tokens: &'t [Token<'a>],
) -> Reading<'a, 't, Formula<'a>>
    ensures { Reads (λ x. (bare x.0, x.1.now)) result (product_at (factor_at depth) most (bare left.entry) tokens.now) }
{
    if most == 0 {
        return Err(BAD_LINE);
    }
    if let Some(rest) = after_mark("*", tokens) {
        let (right, rest) = factor(alloc, depth, rest)?;
        let both = product_of(alloc, left, right)?;
        return product(alloc, depth, most - 1, both, rest);
    }
    Ok((left, tokens))
}

/// TERM: a factor, and what it is multiplied by.
#[cycle(expressions)]
#[tactic(auto, unfolding(crate::specs::Formulas::term_at))]
fn term<'a, 't>(
    alloc: Global,
    depth: usize,
    tokens: &'t [Token<'a>],
) -> Reading<'a, 't, Formula<'a>>
    ensures { Reads (λ x. (bare x.0, x.1.now)) result (term_at (factor_at depth) tokens.now) }
{
    let (first, rest) = factor(alloc, depth, tokens)?;
    product(alloc, depth, MOST_TOKENS, first, rest)
}

/// What is added to the left, grouped from the left.
#[cycle(expressions)]
#[tactic(auto, unfolding(crate::specs::Formulas::sum_at))]
fn sum<'a, 't>(
    alloc: Global,
    depth: usize,
    most: usize,
    left: Formula<'a>,
    tokens: &'t [Token<'a>],
) -> Reading<'a, 't, Formula<'a>>
    ensures { Reads (λ x. (bare x.0, x.1.now)) result (sum_at (factor_at depth) most (bare left.entry) tokens.now) }
{
    if most == 0 {
        return Err(BAD_LINE);
    }
    if let Some(rest) = after_mark("+", tokens) {
        let (right, rest) = term(alloc, depth, rest)?;
        let both = sum_of(alloc, left, right)?;
        return sum(alloc, depth, most - 1, both, rest);
    }
    if let Some(rest) = after_mark("-", tokens) {
        let (right, rest) = term(alloc, depth, rest)?;
        let both = difference_of(alloc, left, right)?;
        return sum(alloc, depth, most - 1, both, rest);
    }
    Ok((left, tokens))
}

/// EXPR: a term, and what is added to it.
#[cycle(expressions)]
#[tactic(auto, unfolding(crate::specs::Formulas::sum_over))]
fn whole_sum<'a, 't>(
    alloc: Global,
    depth: usize,
    tokens: &'t [Token<'a>],
) -> Reading<'a, 't, Formula<'a>>
    ensures { Reads (λ x. (bare x.0, x.1.now)) result (sum_over (factor_at depth) tokens.now) }
{
    let (first, rest) = term(alloc, depth, tokens)?;
    sum(alloc, depth, MOST_TOKENS, first, rest)
}

/// FACTOR: `-` and a factor, an expression in round brackets, or an atom.
#[cycle(expressions)]
#[tactic(auto, unfolding(crate::specs::Formulas::factor_at))]
fn factor<'a, 't>(
    alloc: Global,
    depth: usize,
    tokens: &'t [Token<'a>],
) -> Reading<'a, 't, Formula<'a>>
    ensures { Reads (λ x. (bare x.0, x.1.now)) result (factor_at depth tokens.now) }
{
    if depth == 0 {
        return Err(BAD_LINE);
    }
    if let Some(rest) = after_mark("-", tokens) {
        let (inner, rest) = factor(alloc, depth - 1, rest)?;
        return Ok((Formula::Neg(Box::new(alloc, inner)?), rest));
    }
    if let Some(rest) = after_mark("(", tokens) {
        let (inner, rest) = whole_sum(alloc, depth - 1, rest)?;
        let rest = mark_expected(")", rest)?;
        return Ok((inner, rest));
    }
    atom(tokens)
}

/// A formula.
#[tactic(auto, unfolding(crate::specs::Formulas::expr_at))]
pub(crate) fn expression<'a, 't>(
    alloc: Global,
    tokens: &'t [Token<'a>],
) -> Reading<'a, 't, Formula<'a>>
    ensures { Reads (λ x. (bare x.0, x.1.now)) result (expr_at tokens.now) }
{
    whole_sum(alloc, MOST_TOKENS, tokens)
}
