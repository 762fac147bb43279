//! Which plans are lawful.

ghost use Rattle.std.specs.Prelude.{◌≡◌, ◌==◌, ◌&&◌, ◌^◌, map, length, not, nat_lt, nat_le};
ghost use Rattle.std.specs.List.{list_all, enumerate_from};
ghost use Rattle.tick_model.specs.Operators.{inputs_of, columns_fit as columns_fit_of};
ghost use Rattle.tick_model.specs.Names.{is_name as is_name_of, are_distinct as are_distinct_names};
ghost use Rattle.tick_model.specs.Plans.{columns_at as columns_in, key_bounds, node_lawful, publication_lawful, number_distinct, rises as rises_in, published_words as words_of, is_lawful};

use crate::bounds::have_key_space;
use crate::columns::columns_at;
use crate::items::Items;
use crate::limits::{MOST_COLUMNS, MOST_NODES, MOST_ROWS, MOST_WORDS};
use crate::names::{Named, are_distinct, is_name};
use crate::plan::{ColumnSpec, Node, Plan, Published};
use crate::published::published_words;

fn have_names(columns: &[ColumnSpec]) -> bool
    ensures { result ≡ list_all (λ column. is_name_of column.name) columns.now }
{
    for column in columns {
        if !is_name(column.name()) {
            return false;
        }
    }
    true
}

fn are_columns_lawful(columns: &[ColumnSpec]) -> bool
    ensures { result ≡ (list_all (λ column. is_name_of column.name) columns.now && are_distinct_names (map (λ column. column.name) columns.now) && nat_le 1 (length columns.now) && nat_le (length columns.now) 32) }
{
    have_names(columns)
        && are_distinct(columns)
        && 1 <= columns.len()
        && columns.len() <= MOST_COLUMNS
}

fn are_lesser(inputs: &[u32], number: usize) -> bool
    ensures { result ≡ list_all (λ input. nat_lt input number) inputs.now }
{
    for input in inputs {
        if *input as usize >= number {
            return false;
        }
    }
    true
}

fn has_lawful_op(nodes: &[Node], number: usize, node: &Node) -> bool
    ensures { result ≡ (list_all (λ input. nat_lt input number) (inputs_of node.now.op) && columns_fit_of node.now.op (columns_in nodes.now) node.now.columns) }
{
    are_lesser(node.op.inputs().as_slice(), number)
        && node.op.columns_fit(nodes, node.columns.as_slice())
}

fn is_node_lawful(nodes: &[Node], number: usize, node: &Node) -> bool
    ensures { result ≡ node_lawful nodes.now (number, node.now) }
{
    is_name(node.name())
        && are_columns_lawful(node.columns.as_slice())
        && has_lawful_op(nodes, number, node)
}

fn is_each_node_lawful(nodes: &[Node]) -> bool
    ensures { result ≡ list_all (node_lawful nodes.now) (enumerate_from 0 nodes.now) }
{
    for (number, node) in nodes.iter().enumerate() {
        if !is_node_lawful(nodes, number, node) {
            return false;
        }
    }
    true
}

fn are_nodes_lawful(nodes: &[Node]) -> bool
    ensures { result ≡ (nat_le (length nodes.now) 256 && are_distinct_names (map (λ node. node.name) nodes.now) && list_all (node_lawful nodes.now) (enumerate_from 0 nodes.now) && list_all (λ bound. nat_lt bound (2 ^ 62)) (key_bounds nodes.now)) }
{
    nodes.len() <= MOST_NODES
        && are_distinct(nodes)
        && is_each_node_lawful(nodes)
        && have_key_space(nodes)
}

fn rises(numbers: &[u32]) -> bool
    ensures { result ≡ rises_in numbers.now }
{
    for i in 1..numbers.len() {
        if numbers[i] <= numbers[i - 1] {
            return false;
        }
    }
    true
}

fn are_printed_lawful(nodes: &[Node], printed: &[u32]) -> bool
    ensures { result ≡ (rises_in printed.now && list_all (λ node. nat_lt node (length nodes.now)) printed.now) }
{
    rises(printed) && are_lesser(printed, nodes.len())
}

fn is_not_published(published: &[Published], node: u32) -> bool
    ensures { result ≡ list_all (λ other. not (node == other)) (map (λ table. table.node) published.now) }
{
    for table in published {
        if node == table.node {
            return false;
        }
    }
    true
}

fn are_published_once(published: &[Published]) -> bool
    ensures { result ≡ number_distinct (map (λ table. table.node) published.now) }
{
    for (i, table) in published.iter().enumerate() {
        if !is_not_published(&published[i + 1..], table.node) {
            return false;
        }
    }
    true
}

fn is_publication_lawful(nodes: &[Node], published: &Published) -> bool
    ensures { result ≡ publication_lawful nodes.now published.now }
{
    (published.node as usize) < nodes.len()
        && published.width as usize == columns_at(nodes, published.node).len()
        && 1 <= published.limit
        && published.limit <= MOST_ROWS
}

fn is_each_publication_lawful(nodes: &[Node], published: &[Published]) -> bool
    ensures { result ≡ list_all (publication_lawful nodes.now) published.now }
{
    for table in published {
        if !is_publication_lawful(nodes, table) {
            return false;
        }
    }
    true
}

fn are_publications_lawful(nodes: &[Node], published: &Items<Published>) -> bool
    ensures { result ≡ (number_distinct (map (λ table. table.node) published.now) && list_all (publication_lawful nodes.now) published.now && nat_le (words_of published.now) 1048576) }
{
    are_published_once(published.as_slice())
        && is_each_publication_lawful(nodes, published.as_slice())
        && published_words(published) <= MOST_WORDS
}

impl Plan {
    /// Whether a plan keeps all rules of scripts: names, lesser inputs, result columns and their kinds, the numbers of
    /// nodes, columns and rows, the key space, what is printed and published, and that no text stands without its rank.
    pub fn lawful(&self) -> bool
        ensures { result ≡ is_lawful self.now }
    {
        let nodes = self.nodes.as_slice();
        are_nodes_lawful(nodes)
            && are_printed_lawful(nodes, self.printed.as_slice())
            && are_publications_lawful(nodes, &self.published)
    }
}
