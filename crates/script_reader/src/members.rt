//! What the members of a line's lists name.

ghost use Rattle.std.specs.Prelude.{◌≡◌};
ghost use Rattle.script_lines.specs.Answers.{Gives};
ghost use Rattle.script_reader.specs.Checks.{each, column_named as column_named_of, node_named, names_of, pair_of as pair_over, taken_of as taken_over, aggregate_of as aggregate_over, gathered_of as gathered_over, sort_of as sort_over};

use crate::columns::column_named;
use crate::nodes::Nodes;
use script_lines::fault::LineFault;
use script_lines::line::{AggColumn, Function, Pair, Sorted};
use script_lines::token::Word;
use std::alloc::Global;
use tick_model::items::Items;
use tick_model::plan::{Agg, ColumnSpec, OnPair, SortBy};

/// The numbers of nodes.
pub(crate) fn nodes_named(
    alloc: Global,
    nodes: &Nodes,
    names: &[Word],
) -> Result<Items<u32>, LineFault>
    ensures { Gives (λ inputs. inputs) result (each (node_named (names_of nodes.now.nodes.items)) names.now) }
{
    let mut inputs = Items::new(alloc);
    for name in names {
        let input = nodes.named(name)?;
        inputs.push(input)?;
    }
    Ok(inputs)
}

/// The places of columns.
pub(crate) fn columns_named(
    alloc: Global,
    columns: &[ColumnSpec],
    names: &[Word],
) -> Result<Items<u32>, LineFault>
    ensures { Gives (λ places. places) result (each (column_named_of columns.now) names.now) }
{
    let mut places = Items::new(alloc);
    for name in names {
        let place = column_named(columns, name)?;
        places.push(place)?;
    }
    Ok(places)
}

/// A column of the left input, and one of the right.
#[tactic(auto, unfolding(crate::specs::Checks::pair_of))]
pub(crate) fn pair_of(
    left: &[ColumnSpec],
    right: &[ColumnSpec],
    pair: &Pair,
) -> Result<OnPair, LineFault>
    ensures { Gives (λ on. on) result (pair_over left.now right.now pair.now) }
{
    Ok(OnPair {
        left: column_named(left, &pair.first)?,
        right: column_named(right, &pair.second)?,
    })
}

/// The pairs of columns that have to be equal.
pub(crate) fn pairs_of(
    alloc: Global,
    left: &[ColumnSpec],
    right: &[ColumnSpec],
    pairs: &[Pair],
) -> Result<Items<OnPair>, LineFault>
    ensures { Gives (λ on. on) result (each (pair_over left.now right.now) pairs.now) }
{
    let mut on = Items::new(alloc);
    for pair in pairs {
        let found = pair_of(left, right, pair)?;
        on.push(found)?;
    }
    Ok(on)
}

#[tactic(auto, unfolding(crate::specs::Checks::taken_of))]
fn taken_of(right: &[ColumnSpec], pair: &Pair) -> Result<u32, LineFault>
    ensures { Gives (λ column. column) result (taken_over right.now pair.now) }
{
    column_named(right, &pair.second)
}

/// The columns of the right input that are taken.
pub(crate) fn all_taken(
    alloc: Global,
    right: &[ColumnSpec],
    pairs: &[Pair],
) -> Result<Items<u32>, LineFault>
    ensures { Gives (λ taken. taken) result (each (taken_over right.now) pairs.now) }
{
    let mut taken = Items::new(alloc);
    for pair in pairs {
        let column = taken_of(right, pair)?;
        taken.push(column)?;
    }
    Ok(taken)
}

#[tactic(auto, unfolding(crate::specs::Checks::aggregate_of))]
fn aggregate_of(columns: &[ColumnSpec], function: &Function) -> Result<Agg, LineFault>
    ensures { Gives (λ agg. agg) result (aggregate_over columns.now function.now) }
{
    match function {
        Function::Count => Ok(Agg::Count),
        Function::Sum(name) => Ok(Agg::Sum(column_named(columns, name)?)),
        Function::Min(name) => Ok(Agg::Min(column_named(columns, name)?)),
        Function::Max(name) => Ok(Agg::Max(column_named(columns, name)?)),
        Function::First(name) => Ok(Agg::First(column_named(columns, name)?)),
        Function::Last(name) => Ok(Agg::Last(column_named(columns, name)?)),
    }
}

#[tactic(auto, unfolding(crate::specs::Checks::gathered_of))]
fn gathered_of(columns: &[ColumnSpec], gathered: &AggColumn) -> Result<Agg, LineFault>
    ensures { Gives (λ agg. agg) result (gathered_over columns.now gathered.now) }
{
    aggregate_of(columns, &gathered.function)
}

/// What the new columns of an aggregation say.
pub(crate) fn aggregates_of(
    alloc: Global,
    columns: &[ColumnSpec],
    gathered: &[AggColumn],
) -> Result<Items<Agg>, LineFault>
    ensures { Gives (λ aggs. aggs) result (each (gathered_over columns.now) gathered.now) }
{
    let mut aggs = Items::new(alloc);
    for column in gathered {
        let agg = gathered_of(columns, column)?;
        aggs.push(agg)?;
    }
    Ok(aggs)
}

#[tactic(auto, unfolding(crate::specs::Checks::sort_of))]
fn sort_of(columns: &[ColumnSpec], sorted: &Sorted) -> Result<SortBy, LineFault>
    ensures { Gives (λ sort. sort) result (sort_over columns.now sorted.now) }
{
    Ok(SortBy {
        column: column_named(columns, &sorted.name)?,
        descending: sorted.descending,
    })
}

/// The columns that are sorted by.
pub(crate) fn sorts_of(
    alloc: Global,
    columns: &[ColumnSpec],
    by: &[Sorted],
) -> Result<Items<SortBy>, LineFault>
    ensures { Gives (λ sorts. sorts) result (each (sort_over columns.now) by.now) }
{
    let mut sorts = Items::new(alloc);
    for sort in by {
        let found = sort_of(columns, sort)?;
        sorts.push(found)?;
    }
    Ok(sorts)
}
