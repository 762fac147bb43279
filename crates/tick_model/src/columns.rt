//! The columns of a node, against those of its inputs.

ghost use Rattle.std.specs.Prelude.{◌≡◌, ◌++◌, ◌&&◌, map, is_some, slice_get};
ghost use Rattle.std.specs.List.{list_all};
ghost use Rattle.tick_model.specs.Names.{same_name};
ghost use Rattle.tick_model.specs.Plans.{columns_at as columns_in};
ghost use Rattle.tick_model.specs.Columns.{same_kind, has_kind as has_kind_of, is_bound as is_bound_in, same_columns as same_columns_of, have_kinds as have_kinds_of, follow as follow_of, kind_at as kind_in, same_kind_at as same_kind_in, some_of, agg_kind, has_name, keep_names as keep_names_of};
ghost use Rattle.tick_model.specs.Operators.{columns_fit as columns_fit_of};

use crate::kinds::{
    is_bound, is_test_bound, kind_at, kind_of, kinds_meet, long_alone, same_kind, test_fits,
};
use crate::limits::{FEWEST_INPUTS, MOST_INPUTS, MOST_ROWS};
use crate::name::Name;
use crate::plan::{Agg, ColumnSpec, Expr, Kind, Node, OnPair, Op, Pred, SortBy};

/// What has a kind over the columns of an input, as a formula, the number of a column and an aggregate have.
trait KindOver {
    ghost use Rattle.std.specs.Prelude.{◌≡◌, List, Option};
    ghost use Rattle.tick_model.specs.declared.plan.ColumnSpec.{ColumnSpec};
    ghost use Rattle.tick_model.specs.declared.plan.Kind.{Kind};

    ghost kind_by: { List ColumnSpec → Self → Option Kind };

    /// Its kind, or none where there is none.
    fn kind_over(&self, input: &[ColumnSpec]) -> Option<Kind>
        ensures { result ≡ kind_by input.now self.now };
}

impl KindOver for Expr {
    ghost use Rattle.tick_model.specs.Columns.{kind_of, kinds_of};

    ghost kind_by = { λ input expr. kind_of expr (kinds_of input) };

    fn kind_over(&self, input: &[ColumnSpec]) -> Option<Kind> {
        kind_of(self, input)
    }
}

impl KindOver for u32 {
    ghost use Rattle.tick_model.specs.Columns.{kind_at};

    ghost kind_by = { kind_at };

    fn kind_over(&self, input: &[ColumnSpec]) -> Option<Kind> {
        kind_at(input, *self)
    }
}

impl KindOver for Agg {
    ghost use Rattle.tick_model.specs.Columns.{agg_kind};

    ghost kind_by = { agg_kind };

    fn kind_over(&self, input: &[ColumnSpec]) -> Option<Kind> {
        match self {
            Agg::Count => Some(Kind::Long),
            Agg::Sum(column) => long_alone(kind_at(input, *column)),
            Agg::Min(column) | Agg::Max(column) | Agg::First(column) | Agg::Last(column) => kind_at(
                input, *column,
            ),
        }
    }
}

fn has_kind(kind: Kind, other: Option<Kind>) -> bool
    ensures { result ≡ has_kind_of kind other }
{
    match other {
        Some(other) => same_kind(kind, other),
        None => false,
    }
}

fn is_same_column(column: &ColumnSpec, other: &ColumnSpec) -> bool
    ensures { result ≡ (same_name column.now.name other.now.name && same_kind column.now.kind other.now.kind) }
{
    column.name.as_str() == other.name.as_str() && same_kind(column.kind, other.kind)
}

pub(crate) fn same_columns(columns: &[ColumnSpec], others: &[ColumnSpec]) -> bool
    ensures { result ≡ same_columns_of columns.now others.now }
{
    for (i, column) in columns.iter().enumerate() {
        match others.get(i) {
            Some(other) => {
                if !is_same_column(column, other) {
                    return false;
                }
            }
            None => return false,
        }
    }
    columns.len() == others.len()
}

fn have_kinds<T: KindOver>(columns: &[ColumnSpec], items: &[T], input: &[ColumnSpec]) -> bool
    ensures { result ≡ have_kinds_of columns.now (map (T.kind_by input.now) items.now) }
{
    for (i, item) in items.iter().enumerate() {
        match columns.get(i) {
            Some(column) => {
                if !has_kind(column.kind, item.kind_over(input)) {
                    return false;
                }
            }
            None => return false,
        }
    }
    columns.len() == items.len()
}

/// Whether the columns are those of an input, followed by one for each item, of its kind over another input.
pub(crate) fn follow<T: KindOver>(
    columns: &[ColumnSpec],
    input: &[ColumnSpec],
    items: &[T],
    other: &[ColumnSpec],
) -> bool
    ensures { result ≡ follow_of columns.now input.now (map (T.kind_by other.now) items.now) }
{
    if columns.len() < input.len() {
        return false;
    }
    let (own, new) = columns.split_at(input.len());
    same_columns(own, input) && have_kinds(new, items, other)
}

/// Whether the columns are one for each key column, and then one for each aggregate.
pub(crate) fn are_of_groups(
    columns: &[ColumnSpec],
    by: &[u32],
    aggs: &[Agg],
    input: &[ColumnSpec],
) -> bool
    ensures { result ≡ have_kinds_of columns.now (map (kind_in input.now) by.now ++ map (agg_kind input.now) aggs.now) }
{
    if columns.len() < by.len() {
        return false;
    }
    let (keys, values) = columns.split_at(by.len());
    have_kinds(keys, by, input) && have_kinds(values, aggs, input)
}

/// Whether the input has a column at this place, and of this name.
fn has_name_at(name: &Name, input: &[ColumnSpec], place: u32) -> bool
    ensures { result ≡ has_name name.now (slice_get input.now place) }
{
    match input.get(place as usize) {
        Some(column) => name.as_str() == column.name.as_str(),
        None => false,
    }
}

/// Whether the columns begin with the key columns of the input, by their names.
pub(crate) fn keep_names(columns: &[ColumnSpec], input: &[ColumnSpec], by: &[u32]) -> bool
    ensures { result ≡ keep_names_of columns.now input.now by.now }
{
    by.iter()
        .zip(columns)
        .all(|(place, column)| has_name_at(&column.name, input, *place))
}

pub(crate) fn has_members<T>(items: &[T]) -> bool
    ensures { result ≡ some_of items.now }
{
    !items.is_empty()
}

pub(crate) fn are_bound(exprs: &[Expr]) -> bool
    ensures { result ≡ list_all is_bound_in exprs.now }
{
    for expr in exprs {
        if !is_bound(expr) {
            return false;
        }
    }
    true
}

fn is_pair_of_kind(left: &[ColumnSpec], right: &[ColumnSpec], pair: OnPair) -> bool
    ensures { result ≡ same_kind_in left.now right.now pair }
{
    kinds_meet(kind_at(left, pair.left), kind_at(right, pair.right), false)
}

pub(crate) fn are_pairs_of_kind(left: &[ColumnSpec], right: &[ColumnSpec], on: &[OnPair]) -> bool
    ensures { result ≡ list_all (same_kind_in left.now right.now) on.now }
{
    for pair in on {
        if !is_pair_of_kind(left, right, *pair) {
            return false;
        }
    }
    true
}

pub(crate) fn are_columns(input: &[ColumnSpec], by: &[SortBy]) -> bool
    ensures { result ≡ list_all (λ sort. is_some (kind_in input.now sort.column)) by.now }
{
    for sort in by {
        if kind_at(input, sort.column).is_none() {
            return false;
        }
    }
    true
}

/// The columns of a node, or none where there is no such node.
pub fn columns_at(nodes: &[Node], node: u32) -> &[ColumnSpec]
    ensures { result.now ≡ columns_in nodes.now node }
{
    match nodes.get(node as usize) {
        Some(node) => node.columns.as_slice(),
        None => &[],
    }
}

pub(crate) fn are_of_each(columns: &[ColumnSpec], nodes: &[Node], inputs: &[u32]) -> bool
    ensures { result ≡ list_all (λ from. same_columns_of columns.now (columns_in nodes.now from)) inputs.now }
{
    for input in inputs {
        if !same_columns(columns, columns_at(nodes, *input)) {
            return false;
        }
    }
    true
}

pub(crate) fn is_long(input: &[ColumnSpec], column: u32) -> bool
    ensures { result ≡ has_kind_of Kind.Long (kind_in input.now column) }
{
    has_kind(Kind::Long, kind_at(input, column))
}
