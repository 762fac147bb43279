//! Tests, read by recursive descent.

ghost use Rattle.std.specs.Prelude.{◌≡◌, Some, None, IfOk, IfErr};
ghost use Rattle.script_lines.specs.Answers.{Reads};
ghost use Rattle.script_lines.specs.Formulas.{comparison_of, comparison_at, compare_at, both_at, all_at, either_at, any_over, fact_at, test_at};
ghost use Rattle.script_lines.specs.Bare.{bare_test, and_of, or_of};

use crate::fault::Misread;
use crate::formulas::expression;
use crate::line::Test;
use crate::parts::{BAD_LINE, MOST_TOKENS, Reading, after_mark, after_word, mark_expected};
use crate::token::Token;
use std::alloc::Global;
use tick_model::plan::Comparison;

fn comparison_of_mark(mark: &str) -> Option<Comparison>
    ensures { result ≡ comparison_of mark.now }
{
    match mark {
        "=" => Some(Comparison::Eq),
        "!=" => Some(Comparison::Ne),
        "<" => Some(Comparison::Lt),
        "<=" => Some(Comparison::Le),
        ">" => Some(Comparison::Gt),
        ">=" => Some(Comparison::Ge),
        _ => None,
    }
}

#[tactic(auto, unfolding(crate::specs::Formulas::comparison_at))]
fn comparison<'a, 't>(tokens: &'t [Token<'a>]) -> Reading<'a, 't, Comparison>
    ensures { Reads (λ x. (x.0, x.1.now)) result (comparison_at tokens.now) }
{
    let Some((first, rest)) = tokens.split_first() else {
        return Err(BAD_LINE);
    };
    match first {
        Token::Mark(mark) => match comparison_of_mark(mark.as_str()) {
            Some(how) => Ok((how, rest)),
            None => Err(BAD_LINE),
        },
        Token::Word(_) | Token::Number(_) | Token::Text(_) => Err(BAD_LINE),
    }
}

/// EXPR COMPARISON EXPR.
#[tactic(auto, unfolding(crate::specs::Formulas::compare_at))]
fn compare<'a, 't>(alloc: Global, tokens: &'t [Token<'a>]) -> Reading<'a, 't, Test<'a>>
    ensures { Reads (λ x. (bare_test x.0, x.1.now)) result (compare_at tokens.now) }
{
    let (left, rest) = expression(alloc, tokens)?;
    let (how, rest) = comparison(rest)?;
    let (right, rest) = expression(alloc, rest)?;
    Ok((Test::Compare(how, left, right), rest))
}

fn conjunction_of<'a>(alloc: Global, left: Test<'a>, right: Test<'a>) -> Result<Test<'a>, Misread>
    ensures memory { IfErr result (λ miss. miss ≡ Misread.Memory) }
    ensures value { IfOk result (λ test. bare_test test ≡ and_of (bare_test left.entry) (bare_test right.entry)) }
{
    Ok(Test::And(Box::new(alloc, left)?, Box::new(alloc, right)?))
}

fn disjunction_of<'a>(alloc: Global, left: Test<'a>, right: Test<'a>) -> Result<Test<'a>, Misread>
    ensures memory { IfErr result (λ miss. miss ≡ Misread.Memory) }
    ensures value { IfOk result (λ test. bare_test test ≡ or_of (bare_test left.entry) (bare_test right.entry)) }
{
    Ok(Test::Or(Box::new(alloc, left)?, Box::new(alloc, right)?))
}

/// What has to hold beside the left, grouped from the left.
#[cycle(predicates)]
#[tactic(auto, unfolding(crate::specs::Formulas::both_at))]
fn both<'a, 't>(
    alloc: Global,
    depth: usize,
    most: usize,
    left: Test<'a>,
    tokens: &'t [Token<'a>],
) -> Reading<'a, 't, Test<'a>>
    ensures { Reads (λ x. (bare_test x.0, x.1.now)) result (both_at (fact_at depth) most (bare_test left.entry) tokens.now) }
{
    if most == 0 {
        return Err(BAD_LINE);
    }
    if let Some(rest) = after_word("and", tokens) {
        let (right, rest) = fact(alloc, depth, rest)?;
        let both_sides = conjunction_of(alloc, left, right)?;
        return both(alloc, depth, most - 1, both_sides, rest);
    }
    Ok((left, tokens))
}

/// CONJ: a fact, and what has to hold beside it.
#[cycle(predicates)]
#[tactic(auto, unfolding(crate::specs::Formulas::all_at))]
fn conjunction<'a, 't>(
    alloc: Global,
    depth: usize,
    tokens: &'t [Token<'a>],
) -> Reading<'a, 't, Test<'a>>
    ensures { Reads (λ x. (bare_test x.0, x.1.now)) result (all_at (fact_at depth) tokens.now) }
{
    let (first, rest) = fact(alloc, depth, tokens)?;
    both(alloc, depth, MOST_TOKENS, first, rest)
}

/// What may hold in place of the left, grouped from the left.
#[cycle(predicates)]
#[tactic(auto, unfolding(crate::specs::Formulas::either_at))]
fn either<'a, 't>(
    alloc: Global,
    depth: usize,
    most: usize,
    left: Test<'a>,
    tokens: &'t [Token<'a>],
) -> Reading<'a, 't, Test<'a>>
    ensures { Reads (λ x. (bare_test x.0, x.1.now)) result (either_at (fact_at depth) most (bare_test left.entry) tokens.now) }
{
    if most == 0 {
        return Err(BAD_LINE);
    }
    if let Some(rest) = after_word("or", tokens) {
        let (right, rest) = conjunction(alloc, depth, rest)?;
        let either_side = disjunction_of(alloc, left, right)?;
        return either(alloc, depth, most - 1, either_side, rest);
    }
    Ok((left, tokens))
}

/// PRED: a conjunction, and what may hold in place of it.
#[cycle(predicates)]
#[tactic(auto, unfolding(crate::specs::Formulas::any_over))]
fn disjunction<'a, 't>(
    alloc: Global,
    depth: usize,
    tokens: &'t [Token<'a>],
) -> Reading<'a, 't, Test<'a>>
    ensures { Reads (λ x. (bare_test x.0, x.1.now)) result (any_over (fact_at depth) tokens.now) }
{
    let (first, rest) = conjunction(alloc, depth, tokens)?;
    either(alloc, depth, MOST_TOKENS, first, rest)
}

/// FACT: `not` and a fact, a test in square brackets, or a comparison.
#[cycle(predicates)]
#[tactic(auto, unfolding(crate::specs::Formulas::fact_at))]
fn fact<'a, 't>(alloc: Global, depth: usize, tokens: &'t [Token<'a>]) -> Reading<'a, 't, Test<'a>>
    ensures { Reads (λ x. (bare_test x.0, x.1.now)) result (fact_at depth tokens.now) }
{
    if depth == 0 {
        return Err(BAD_LINE);
    }
    if let Some(rest) = after_word("not", tokens) {
        let (inner, rest) = fact(alloc, depth - 1, rest)?;
        return Ok((Test::Not(Box::new(alloc, inner)?), rest));
    }
    if let Some(rest) = after_mark("[", tokens) {
        let (inner, rest) = disjunction(alloc, depth - 1, rest)?;
        let rest = mark_expected("]", rest)?;
        return Ok((inner, rest));
    }
    compare(alloc, tokens)
}

/// A test.
#[tactic(auto, unfolding(crate::specs::Formulas::test_at))]
pub(crate) fn predicate<'a, 't>(alloc: Global, tokens: &'t [Token<'a>]) -> Reading<'a, 't, Test<'a>>
    ensures { Reads (λ x. (bare_test x.0, x.1.now)) result (test_at tokens.now) }
{
    disjunction(alloc, MOST_TOKENS, tokens)
}
