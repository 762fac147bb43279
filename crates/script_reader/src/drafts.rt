//! What a node would be: its operator over its inputs, and its columns.

ghost use Rattle.std.specs.Prelude.{◌≡◌, ℕ, List, map, IfOk};
ghost use Rattle.tick_model.specs.Columns.{kind_at as kind_in, kind_of as kind_over, kinds_of, agg_kind as agg_kind_over, has_kind};
ghost use Rattle.script_lines.specs.Answers.{Gives};
ghost use Rattle.script_reader.specs.Checks.{pairs_fit as pairs_fit_over, joined_columns as joined_columns_of, gathered_columns as gathered_columns_of, kept as kept_of, viewed as viewed_of, joined as joined_of, joined_as_of as joined_as_of_over, grouped as grouped_of, merged as merged_of, sorted as sorted_of, headed as headed_of, tailed as tailed_of, drafted as drafted_of};
ghost use Rattle.script_reader.specs.Drafts.{shown, before};

use crate::columns::{all_copied, all_there, chosen, push_new};
use crate::expressions::{exprs_of, pred_of};
use crate::members::{
    aggregates_of, all_taken, columns_named, nodes_named, pair_of, pairs_of, sorts_of,
};
use crate::nodes::Nodes;
use crate::numbers::rows;
use crate::texts::Texts;
use script_lines::fault::LineFault;
use script_lines::line::{AggColumn, Computed, Pair, Sorted, Test};
use script_lines::making::Making;
use script_lines::token::Word;
use std::alloc::{AllocError, Global};
use tick_model::items::Items;
use tick_model::kinds::{kind_at, kind_of, kinds_meet, long_alone, same_kind, test_fits};
use tick_model::plan::{Agg, Choice, ColumnSpec, Expr, Kind, OnPair, Op};

/// What a node would be.
#[derive(Drop)]
pub(crate) struct Draft {
    pub op: Op,
    pub columns: Items<ColumnSpec>,
    /// Whether kinds are equal where they have to be, and no text stands under arithmetic.
    pub kinds_fit: bool,
    /// Whether a number of rows is in its range.
    pub rows_fit: bool,
}

/// The kinds of formulas over the columns of an input.
fn expr_kinds(
    alloc: Global,
    columns: &[ColumnSpec],
    exprs: &[Expr],
) -> Result<Vec<Option<Kind>>, AllocError>
    ensures { IfOk result (λ kinds. kinds.items ≡ map (λ expr. kind_over expr (kinds_of columns.now)) exprs.now) }
{
    exprs
        .iter()
        .map(|expr| kind_of(expr, columns))
        .collect(alloc)
}

/// The kinds of these columns.
fn column_kinds(
    alloc: Global,
    columns: &[ColumnSpec],
    places: &[u32],
) -> Result<Vec<Option<Kind>>, AllocError>
    ensures { IfOk result (λ kinds. kinds.items ≡ map (kind_in columns.now) places.now) }
{
    places
        .iter()
        .map(|place| kind_at(columns, *place))
        .collect(alloc)
}

fn agg_kind(columns: &[ColumnSpec], agg: Agg) -> Option<Kind>
    ensures { result ≡ agg_kind_over columns.now agg }
{
    match agg {
        Agg::Count => Some(Kind::Long),
        Agg::Sum(column) => long_alone(kind_at(columns, column)),
        Agg::Min(column) | Agg::Max(column) | Agg::First(column) | Agg::Last(column) => kind_at(
            columns, column,
        ),
    }
}

/// The kinds of the columns that an aggregation makes.
fn agg_kinds(
    alloc: Global,
    columns: &[ColumnSpec],
    aggs: &[Agg],
) -> Result<Vec<Option<Kind>>, AllocError>
    ensures { IfOk result (λ kinds. kinds.items ≡ map (agg_kind_over columns.now) aggs.now) }
{
    aggs.iter()
        .map(|agg| agg_kind(columns, *agg))
        .collect(alloc)
}

/// Whether the columns of each pair are of one kind.
fn pairs_fit(left: &[ColumnSpec], right: &[ColumnSpec], on: &[OnPair]) -> bool
    ensures { result ≡ pairs_fit_over left.now right.now on.now }
{
    on.iter().all(|pair| kinds_meet(kind_at(left, pair.left), kind_at(right, pair.right), false))
}

fn is_long(columns: &[ColumnSpec], column: u32) -> bool
    ensures { result ≡ has_kind Kind.Long (kind_in columns.now column) }
{
    match kind_at(columns, column) {
        Some(kind) => same_kind(Kind::Long, kind),
        None => false,
    }
}

#[tactic(auto, unfolding(crate::specs::Checks::kept), using(crate::proofs::Plainly::test_fits_plain))]
fn kept(
    alloc: Global,
    nodes: &Nodes,
    literals: &mut Texts,
    input: &Word,
    test: &Test,
) -> Result<Draft, LineFault>
    ensures { Gives (shown literals.new) result (kept_of (before nodes.now.nodes.items literals.old) input.now test.now) }
{
    let input = nodes.named(input)?;
    let columns = nodes.columns(input);
    let test = pred_of(alloc, columns, literals, test)?;
    let kinds_fit = test_fits(&test, columns);
    Ok(Draft {
        op: Op::Keep { input, test },
        columns: all_copied(alloc, columns)?,
        kinds_fit,
        rows_fit: true,
    })
}

#[tactic(auto, unfolding(crate::specs::Checks::viewed), using(crate::proofs::Plainly::expr_kinds_plain))]
fn viewed(
    alloc: Global,
    nodes: &Nodes,
    literals: &mut Texts,
    input: &Word,
    computed: &[Computed],
) -> Result<Draft, LineFault>
    ensures { Gives (shown literals.new) result (viewed_of (before nodes.now.nodes.items literals.old) input.now computed.now) }
{
    let input = nodes.named(input)?;
    let columns = nodes.columns(input);
    let exprs = exprs_of(alloc, columns, literals, computed)?;
    let kinds = expr_kinds(alloc, columns, exprs.as_slice())?;
    let mut all = all_copied(alloc, columns)?;
    push_new(alloc, &mut all, computed, kinds.as_slice())?;
    Ok(Draft {
        op: Op::View { input, exprs },
        columns: all,
        kinds_fit: all_there(kinds.as_slice()),
        rows_fit: true,
    })
}

/// The left's columns, and then the taken ones with their own kinds.
fn joined_columns(
    alloc: Global,
    left: &[ColumnSpec],
    right: &[ColumnSpec],
    take: &[Pair],
    taken: &[u32],
) -> Result<Items<ColumnSpec>, AllocError>
    ensures { IfOk result (λ columns. columns ≡ joined_columns_of left.now right.now take.now taken.now) }
{
    let kinds = column_kinds(alloc, right, taken)?;
    let mut columns = all_copied(alloc, left)?;
    push_new(alloc, &mut columns, take, kinds.as_slice())?;
    Ok(columns)
}

#[tactic(auto, unfolding(crate::specs::Checks::joined))]
fn joined(
    alloc: Global,
    nodes: &Nodes,
    left: &Word,
    right: &Word,
    on: &[Pair],
    take: &[Pair],
    choice: Choice,
) -> Result<Draft, LineFault>
    ensures { (literals : List (List ℕ)) → Gives (shown literals) result (joined_of (before nodes.now.nodes.items literals) left.now right.now on.now take.now choice) }
{
    let left = nodes.named(left)?;
    let right = nodes.named(right)?;
    let left_columns = nodes.columns(left);
    let right_columns = nodes.columns(right);
    let on = pairs_of(alloc, left_columns, right_columns, on)?;
    let taken = all_taken(alloc, right_columns, take)?;
    let columns = joined_columns(alloc, left_columns, right_columns, take, taken.as_slice())?;
    let kinds_fit = pairs_fit(left_columns, right_columns, on.as_slice());
    Ok(Draft {
        op: Op::Join {
            left,
            right,
            on,
            take: taken,
            choice,
        },
        columns,
        kinds_fit,
        rows_fit: true,
    })
}

#[tactic(auto, unfolding(crate::specs::Checks::joined_as_of))]
fn joined_as_of(
    alloc: Global,
    nodes: &Nodes,
    left: &Word,
    right: &Word,
    on: &[Pair],
    at: &Pair,
    take: &[Pair],
) -> Result<Draft, LineFault>
    ensures { (literals : List (List ℕ)) → Gives (shown literals) result (joined_as_of_over (before nodes.now.nodes.items literals) left.now right.now on.now at.now take.now) }
{
    let left = nodes.named(left)?;
    let right = nodes.named(right)?;
    let left_columns = nodes.columns(left);
    let right_columns = nodes.columns(right);
    let on = pairs_of(alloc, left_columns, right_columns, on)?;
    let at = pair_of(left_columns, right_columns, at)?;
    let taken = all_taken(alloc, right_columns, take)?;
    let columns = joined_columns(alloc, left_columns, right_columns, take, taken.as_slice())?;
    let kinds_fit = pairs_fit(left_columns, right_columns, on.as_slice())
        && is_long(left_columns, at.left)
        && is_long(right_columns, at.right);
    Ok(Draft {
        op: Op::AsOf {
            left,
            right,
            on,
            at,
            take: taken,
        },
        columns,
        kinds_fit,
        rows_fit: true,
    })
}

/// The key columns, and then one column for each function.
fn gathered_columns(
    alloc: Global,
    columns: &[ColumnSpec],
    by: &[u32],
    gathered: &[AggColumn],
    aggs: &[Agg],
) -> Result<Items<ColumnSpec>, AllocError>
    ensures { IfOk result (λ all. all ≡ gathered_columns_of columns.now by.now gathered.now aggs.now) }
{
    let kinds = agg_kinds(alloc, columns, aggs)?;
    let mut all = chosen(alloc, columns, by)?;
    push_new(alloc, &mut all, gathered, kinds.as_slice())?;
    Ok(all)
}

#[tactic(auto, unfolding(crate::specs::Checks::grouped))]
fn grouped(
    alloc: Global,
    nodes: &Nodes,
    input: &Word,
    by: &[Word],
    gathered: &[AggColumn],
) -> Result<Draft, LineFault>
    ensures { (literals : List (List ℕ)) → Gives (shown literals) result (grouped_of (before nodes.now.nodes.items literals) input.now by.now gathered.now) }
{
    let input = nodes.named(input)?;
    let columns = nodes.columns(input);
    let by = columns_named(alloc, columns, by)?;
    let aggs = aggregates_of(alloc, columns, gathered)?;
    let all = gathered_columns(alloc, columns, by.as_slice(), gathered, aggs.as_slice())?;
    let kinds = agg_kinds(alloc, columns, aggs.as_slice())?;
    Ok(Draft {
        op: Op::Agg { input, by, aggs },
        columns: all,
        kinds_fit: all_there(kinds.as_slice()),
        rows_fit: true,
    })
}

#[tactic(auto, unfolding(crate::specs::Checks::merged))]
fn merged(alloc: Global, nodes: &Nodes, names: &[Word]) -> Result<Draft, LineFault>
    ensures { (literals : List (List ℕ)) → Gives (shown literals) result (merged_of (before nodes.now.nodes.items literals) names.now) }
{
    let inputs = nodes_named(alloc, nodes, names)?;
    let first = inputs.as_slice().first().copied().unwrap_or(0);
    let columns = nodes.columns(first);
    let op = Op::Merge { inputs };
    let kinds_fit = op.columns_fit(nodes.as_slice(), columns);
    Ok(Draft {
        op,
        columns: all_copied(alloc, columns)?,
        kinds_fit,
        rows_fit: true,
    })
}

#[tactic(auto, unfolding(crate::specs::Checks::sorted))]
fn sorted(alloc: Global, nodes: &Nodes, input: &Word, by: &[Sorted]) -> Result<Draft, LineFault>
    ensures { (literals : List (List ℕ)) → Gives (shown literals) result (sorted_of (before nodes.now.nodes.items literals) input.now by.now) }
{
    let input = nodes.named(input)?;
    let columns = nodes.columns(input);
    let by = sorts_of(alloc, columns, by)?;
    Ok(Draft {
        op: Op::Sort { input, by },
        columns: all_copied(alloc, columns)?,
        kinds_fit: true,
        rows_fit: true,
    })
}

#[tactic(auto, unfolding(crate::specs::Checks::headed))]
fn headed(alloc: Global, nodes: &Nodes, number: i64, input: &Word) -> Result<Draft, LineFault>
    ensures { (literals : List (List ℕ)) → Gives (shown literals) result (headed_of (before nodes.now.nodes.items literals) number input.now) }
{
    let input = nodes.named(input)?;
    let rows = rows(number);
    Ok(Draft {
        op: Op::Head {
            input,
            rows: rows.unwrap_or(0),
        },
        columns: all_copied(alloc, nodes.columns(input))?,
        kinds_fit: true,
        rows_fit: rows.is_some(),
    })
}

#[tactic(auto, unfolding(crate::specs::Checks::tailed))]
fn tailed(alloc: Global, nodes: &Nodes, number: i64, input: &Word) -> Result<Draft, LineFault>
    ensures { (literals : List (List ℕ)) → Gives (shown literals) result (tailed_of (before nodes.now.nodes.items literals) number input.now) }
{
    let input = nodes.named(input)?;
    let rows = rows(number);
    Ok(Draft {
        op: Op::Tail {
            input,
            rows: rows.unwrap_or(0),
        },
        columns: all_copied(alloc, nodes.columns(input))?,
        kinds_fit: true,
        rows_fit: rows.is_some(),
    })
}

/// What a node that is made so would be. The texts of its formulas are numbered behind those that are there.
#[tactic(auto, unfolding(crate::specs::Checks::drafted))]
pub(crate) fn drafted(
    alloc: Global,
    nodes: &Nodes,
    literals: &mut Texts,
    making: &Making,
) -> Result<Draft, LineFault>
    ensures { Gives (shown literals.new) result (drafted_of (before nodes.now.nodes.items literals.old) making.now) }
{
    match making {
        Making::Keep { input, test } => kept(alloc, nodes, literals, input, test),
        Making::View { input, columns } => {
            viewed(alloc, nodes, literals, input, columns.as_slice())
        }
        Making::Join {
            left,
            right,
            on,
            take,
            choice,
        } => {
            let (on, take) = (on.as_slice(), take.as_slice());
            joined(alloc, nodes, left, right, on, take, *choice)
        }
        Making::AsOf {
            left,
            right,
            on,
            at,
            take,
        } => {
            let (on, take) = (on.as_slice(), take.as_slice());
            joined_as_of(alloc, nodes, left, right, on, at, take)
        }
        Making::Agg { input, by, columns } => {
            grouped(alloc, nodes, input, by.as_slice(), columns.as_slice())
        }
        Making::Merge { inputs } => merged(alloc, nodes, inputs.as_slice()),
        Making::Sort { input, by } => sorted(alloc, nodes, input, by.as_slice()),
        Making::Head { rows, input } => headed(alloc, nodes, *rows, input),
        Making::Tail { rows, input } => tailed(alloc, nodes, *rows, input),
    }
}
