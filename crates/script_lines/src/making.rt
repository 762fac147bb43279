//! How a node is made: what the script says of each operator, and the form in which it says it.

ghost use Rattle.script_lines.specs.Answers.{Reads};
ghost use Rattle.script_lines.specs.Bare.{bare_making};
ghost use Rattle.script_lines.specs.Making.{keep_at, view_at, choice_at, pairs_after, join_at, as_of_at, agg_at, merge_at, sort_at, other_making_at, making_at};

use crate::line::{AggColumn, Computed, Pair, Sorted, Test};
use crate::lists::{Separator, list, optional_list};
use crate::members::{digits, pair};
use crate::parts::{BAD_LINE, Reading, after_word, name, word_expected};
use crate::predicates::predicate;
use crate::token::{Token, Word};
use std::alloc::Global;
use tick_model::items::Items;
use tick_model::limits::{FEWEST_INPUTS, MOST_INPUTS};
use tick_model::plan::Choice;

/// How a node is made.
#[derive(Drop)]
pub enum Making<'a> {
    Keep {
        input: Word<'a>,
        test: Test<'a>,
    },
    View {
        input: Word<'a>,
        columns: Items<Computed<'a>>,
    },
    Join {
        left: Word<'a>,
        right: Word<'a>,
        on: Items<Pair<'a>>,
        take: Items<Pair<'a>>,
        choice: Choice,
    },
    AsOf {
        left: Word<'a>,
        right: Word<'a>,
        on: Items<Pair<'a>>,
        at: Pair<'a>,
        take: Items<Pair<'a>>,
    },
    Agg {
        input: Word<'a>,
        by: Items<Word<'a>>,
        columns: Items<AggColumn<'a>>,
    },
    Merge {
        inputs: Items<Word<'a>>,
    },
    Sort {
        input: Word<'a>,
        by: Items<Sorted<'a>>,
    },
    Head {
        rows: i64,
        input: Word<'a>,
    },
    Tail {
        rows: i64,
        input: Word<'a>,
    },
}

/// INPUT PRED.
#[tactic(auto, unfolding(crate::specs::Making::keep_at))]
fn keep<'a, 't>(alloc: Global, tokens: &'t [Token<'a>]) -> Reading<'a, 't, Making<'a>>
    ensures { Reads (λ x. (bare_making x.0, x.1.now)) result (keep_at tokens.now) }
{
    let (input, rest) = name(tokens)?;
    let (test, rest) = predicate(alloc, rest)?;
    Ok((Making::Keep { input, test }, rest))
}

/// INPUT list of (COL = EXPR).
#[tactic(auto, unfolding(crate::specs::Making::view_at))]
fn view<'a, 't>(alloc: Global, tokens: &'t [Token<'a>]) -> Reading<'a, 't, Making<'a>>
    ensures { Reads (λ x. (bare_making x.0, x.1.now)) result (view_at tokens.now) }
{
    let (input, rest) = name(tokens)?;
    let (columns, rest) = list(alloc, Separator::Comma, rest)?;
    Ok((Making::View { input, columns }, rest))
}

/// [first or last].
#[tactic(auto, unfolding(crate::specs::Making::choice_at))]
fn choice<'a, 't>(tokens: &'t [Token<'a>]) -> Reading<'a, 't, Choice>
    ensures { Reads (λ x. (x.0, x.1.now)) result (choice_at tokens.now) }
{
    if let Some(rest) = after_word("first", tokens) {
        return Ok((Choice::First, rest));
    }
    if let Some(rest) = after_word("last", tokens) {
        return Ok((Choice::Last, rest));
    }
    Ok((Choice::Error, tokens))
}

/// A word, and then a list of pairs.
#[tactic(auto, unfolding(crate::specs::Making::pairs_after))]
fn pairs_behind<'a, 't>(
    alloc: Global,
    word: &str,
    tokens: &'t [Token<'a>],
) -> Reading<'a, 't, Items<Pair<'a>>>
    ensures { Reads (λ x. (x.0, x.1.now)) result (pairs_after word.now tokens.now) }
{
    let rest = word_expected(word, tokens)?;
    list(alloc, Separator::Comma, rest)
}

/// LEFT RIGHT on list of pairs take list of pairs [first or last].
#[tactic(auto, unfolding(crate::specs::Making::join_at))]
fn join<'a, 't>(alloc: Global, tokens: &'t [Token<'a>]) -> Reading<'a, 't, Making<'a>>
    ensures { Reads (λ x. (bare_making x.0, x.1.now)) result (join_at tokens.now) }
{
    let (left, rest) = name(tokens)?;
    let (right, rest) = name(rest)?;
    let (on, rest) = pairs_behind(alloc, "on", rest)?;
    let (take, rest) = pairs_behind(alloc, "take", rest)?;
    let (choice, rest) = choice(rest)?;
    Ok((
        Making::Join {
            left,
            right,
            on,
            take,
            choice,
        },
        rest,
    ))
}

/// LEFT RIGHT [on list of pairs] at COL [= COL] take list of pairs.
#[tactic(auto, unfolding(crate::specs::Making::as_of_at))]
fn as_of<'a, 't>(alloc: Global, tokens: &'t [Token<'a>]) -> Reading<'a, 't, Making<'a>>
    ensures { Reads (λ x. (bare_making x.0, x.1.now)) result (as_of_at tokens.now) }
{
    let (left, rest) = name(tokens)?;
    let (right, rest) = name(rest)?;
    let (on, rest) = optional_list(alloc, "on", rest)?;
    let rest = word_expected("at", rest)?;
    let (at, rest) = pair(rest)?;
    let (take, rest) = pairs_behind(alloc, "take", rest)?;
    Ok((
        Making::AsOf {
            left,
            right,
            on,
            at,
            take,
        },
        rest,
    ))
}

/// INPUT [by list of COL] do list of (COL = FUNC).
#[tactic(auto, unfolding(crate::specs::Making::agg_at))]
fn agg<'a, 't>(alloc: Global, tokens: &'t [Token<'a>]) -> Reading<'a, 't, Making<'a>>
    ensures { Reads (λ x. (bare_making x.0, x.1.now)) result (agg_at tokens.now) }
{
    let (input, rest) = name(tokens)?;
    let (by, rest) = optional_list(alloc, "by", rest)?;
    let rest = word_expected("do", rest)?;
    let (columns, rest) = list(alloc, Separator::Comma, rest)?;
    Ok((Making::Agg { input, by, columns }, rest))
}

/// Two to sixteen inputs.
#[tactic(auto, unfolding(crate::specs::Making::merge_at))]
fn merge<'a, 't>(alloc: Global, tokens: &'t [Token<'a>]) -> Reading<'a, 't, Making<'a>>
    ensures { Reads (λ x. (bare_making x.0, x.1.now)) result (merge_at tokens.now) }
{
    let (inputs, rest) = list(alloc, Separator::Nothing, tokens)?;
    if FEWEST_INPUTS <= inputs.len() && inputs.len() <= MOST_INPUTS {
        Ok((Making::Merge { inputs }, rest))
    } else {
        Err(BAD_LINE)
    }
}

/// INPUT list of ([-] COL).
#[tactic(auto, unfolding(crate::specs::Making::sort_at))]
fn sort<'a, 't>(alloc: Global, tokens: &'t [Token<'a>]) -> Reading<'a, 't, Making<'a>>
    ensures { Reads (λ x. (bare_making x.0, x.1.now)) result (sort_at tokens.now) }
{
    let (input, rest) = name(tokens)?;
    let (by, rest) = list(alloc, Separator::Comma, rest)?;
    Ok((Making::Sort { input, by }, rest))
}

/// How a node is made: a word, and the parts that go with it.
#[tactic(auto, unfolding(crate::specs::Making::making_at))]
pub(crate) fn any_making<'a, 't>(
    alloc: Global,
    tokens: &'t [Token<'a>],
) -> Reading<'a, 't, Making<'a>>
    ensures { Reads (λ x. (bare_making x.0, x.1.now)) result (making_at tokens.now) }
{
    if let Some(rest) = after_word("where", tokens) {
        return keep(alloc, rest);
    }
    if let Some(rest) = after_word("view", tokens) {
        return view(alloc, rest);
    }
    if let Some(rest) = after_word("join", tokens) {
        return join(alloc, rest);
    }
    if let Some(rest) = after_word("asof", tokens) {
        return as_of(alloc, rest);
    }
    other_making(alloc, tokens)
}

#[tactic(auto, unfolding(crate::specs::Making::other_making_at, crate::specs::Making::cut_at))]
fn other_making<'a, 't>(alloc: Global, tokens: &'t [Token<'a>]) -> Reading<'a, 't, Making<'a>>
    ensures { Reads (λ x. (bare_making x.0, x.1.now)) result (other_making_at tokens.now) }
{
    if let Some(rest) = after_word("agg", tokens) {
        return agg(alloc, rest);
    }
    if let Some(rest) = after_word("merge", tokens) {
        return merge(alloc, rest);
    }
    if let Some(rest) = after_word("sort", tokens) {
        return sort(alloc, rest);
    }
    if let Some(rest) = after_word("head", tokens) {
        let (rows, rest) = digits(rest)?;
        let (input, rest) = name(rest)?;
        return Ok((Making::Head { rows, input }, rest));
    }
    if let Some(rest) = after_word("tail", tokens) {
        let (rows, rest) = digits(rest)?;
        let (input, rest) = name(rest)?;
        return Ok((Making::Tail { rows, input }, rest));
    }
    Err(BAD_LINE)
}
