//! What each operator says of itself: which nodes it reads, what bounds its keys, and which columns its node has.

ghost use Rattle.std.specs.Prelude.{◌≡◌, ◌&&◌, ◌^◌, ◌<◌, map, sum, slice_index};
ghost use Rattle.std.specs.List.{All, list_all};
ghost use Rattle.tick_model.specs.Columns.{follow as follow_of, has_kind as has_kind_of, kind_at as kind_in, same_kind_at as same_kind_in, some_of};
ghost use Rattle.tick_model.specs.Operators.{bound_of, columns_fit as columns_fit_of, inputs_of};
ghost use Rattle.tick_model.specs.Plans.{columns_at as columns_in};

use crate::columns::{
    are_bound, are_columns, are_of_each, are_of_groups, are_pairs_of_kind, columns_at, follow,
    has_members, is_long, keep_names, same_columns,
};
use crate::kinds::{is_test_bound, test_fits};
use crate::limits::{FEWEST_INPUTS, MOST_INPUTS, MOST_ROWS, SOURCE_KEYS};
use crate::plan::{ColumnSpec, Kind, Node, OnPair, Op};
use std::marker::Model;

/// Where the numbers lie: beside other things in an operator, or in a list of their own.
#[derive(Drop)]
enum Numbers<'a> {
    One([u32; 1]),
    Two([u32; 2]),
    Listed(&'a [u32]),
}

/// The nodes that an operator reads, in order of its inputs.
#[derive(Drop)]
pub struct InputNodes<'a>(Numbers<'a>);

impl<'a> Model for InputNodes<'a> {
    ghost use Rattle.std.specs.Prelude.{List, ℕ};
    ghost use Rattle.tick_model.specs.Inputs.{listed};

    ghost Value = { List ℕ };

    ghost view = { λ inputs. listed inputs.0 };
}

impl<'a> InputNodes<'a> {
    /// The numbers of the nodes.
    pub fn as_slice(&self) -> &[u32]
        ensures { result.now ≡ self.now }
    {
        match &self.0 {
            Numbers::One(numbers) => numbers,
            Numbers::Two(numbers) => numbers,
            Numbers::Listed(numbers) => numbers,
        }
    }
}

fn bound_at(bounds: &[u64], node: u32) -> u64
    ensures { result ≡ slice_index bounds.now node }
{
    bounds.get(node as usize).copied().unwrap_or(0)
}

/// The sum of the inputs' bounds, each counted as often as it is named.
fn sum_of_bounds(bounds: &[u64], inputs: &[u32]) -> u128
    requires { All (λ bound. bound < 2 ^ 62) bounds.now }
    ensures { result ≡ sum (map (slice_index bounds.now) inputs.now) }
{
    let mut sum = 0u128;
    for input in inputs {
        sum += u128::from(bound_at(bounds, *input));
    }
    sum
}

fn as_of_columns_fit(
    columns: &[ColumnSpec],
    left: &[ColumnSpec],
    right: &[ColumnSpec],
    on: &[OnPair],
    at: OnPair,
    taken: &[u32],
) -> bool
    ensures { result ≡ (some_of taken.now && list_all (same_kind_in left.now right.now) on.now && has_kind_of Kind.Long (kind_in left.now at.left) && has_kind_of Kind.Long (kind_in right.now at.right) && follow_of columns.now left.now (map (kind_in right.now) taken.now)) }
{
    has_members(taken)
        && are_pairs_of_kind(left, right, on)
        && is_long(left, at.left)
        && is_long(right, at.right)
        && follow(columns, left, taken, right)
}

impl Op {
    /// The nodes that it reads.
    pub fn inputs(&self) -> InputNodes<'_>
        ensures { result ≡ inputs_of self.now }
    {
        match self {
            Op::Source => InputNodes(Numbers::Listed(&[])),
            Op::Keep { input, .. }
            | Op::View { input, .. }
            | Op::Agg { input, .. }
            | Op::Sort { input, .. }
            | Op::Head { input, .. }
            | Op::Tail { input, .. } => InputNodes(Numbers::One([*input])),
            Op::Join { left, right, .. } | Op::AsOf { left, right, .. } => {
                InputNodes(Numbers::Two([*left, *right]))
            }
            Op::Merge { inputs } => InputNodes(Numbers::Listed(inputs.as_slice())),
        }
    }

    /// A number greater than each key of its node, from those of the nodes before it.
    pub fn bound(&self, bounds: &[u64]) -> u128
        requires { All (λ bound. bound < 2 ^ 62) bounds.now }
        ensures { result ≡ bound_of self.now (slice_index bounds.now) }
    {
        match self {
            Op::Source => u128::from(SOURCE_KEYS),
            Op::Keep { input, .. }
            | Op::View { input, .. }
            | Op::Agg { input, .. }
            | Op::Head { input, .. }
            | Op::Tail { input, .. } => u128::from(bound_at(bounds, *input)),
            Op::Join { left, .. } | Op::AsOf { left, .. } => u128::from(bound_at(bounds, *left)),
            Op::Merge { inputs } => sum_of_bounds(bounds, inputs.as_slice()),
            Op::Sort { .. } => u128::from(MOST_ROWS),
        }
    }

    /// Whether these are the columns of its node, over those of its inputs.
    pub fn columns_fit(&self, nodes: &[Node], columns: &[ColumnSpec]) -> bool
        ensures { result ≡ columns_fit_of self.now (columns_in nodes.now) columns.now }
    {
        match self {
            Op::Source => true,
            Op::Keep { input, test } => {
                let input = columns_at(nodes, *input);
                same_columns(columns, input) && test_fits(test, input) && is_test_bound(test)
            }
            Op::View { input, exprs } => {
                let input = columns_at(nodes, *input);
                let exprs = exprs.as_slice();
                has_members(exprs) && are_bound(exprs) && follow(columns, input, exprs, input)
            }
            Op::Join {
                left,
                right,
                on,
                take,
                choice: _,
            } => {
                let left = columns_at(nodes, *left);
                let right = columns_at(nodes, *right);
                let taken = take.as_slice();
                has_members(on.as_slice())
                    && has_members(taken)
                    && are_pairs_of_kind(left, right, on.as_slice())
                    && follow(columns, left, taken, right)
            }
            Op::Agg { input, by, aggs } => {
                let input = columns_at(nodes, *input);
                has_members(aggs.as_slice())
                    && are_of_groups(columns, by.as_slice(), aggs.as_slice(), input)
                    && keep_names(columns, input, by.as_slice())
            }
            Op::Merge { inputs } => {
                FEWEST_INPUTS <= inputs.len()
                    && inputs.len() <= MOST_INPUTS
                    && are_of_each(columns, nodes, inputs.as_slice())
            }
            Op::Sort { input, by } => {
                let input = columns_at(nodes, *input);
                has_members(by.as_slice())
                    && same_columns(columns, input)
                    && are_columns(input, by.as_slice())
            }
            Op::Head { input, rows } | Op::Tail { input, rows } => {
                same_columns(columns, columns_at(nodes, *input)) && *rows <= MOST_ROWS
            }
            Op::AsOf {
                left,
                right,
                on,
                at,
                take,
            } => {
                let left = columns_at(nodes, *left);
                let right = columns_at(nodes, *right);
                as_of_columns_fit(columns, left, right, on.as_slice(), *at, take.as_slice())
            }
        }
    }
}
