//! Opening tables and batches whose texts have ranks.

ghost use Rattle.std.specs.Prelude.{◌≡◌, ◌++◌, ◌∷◌, ◌<◌, ◌^◌, All, List, IfOk, OnOk, length};
ghost use Rattle.std.specs.List.{AllByRecursion};
ghost use Rattle.std.specs.Vec.Iter.{into_iter_items, into_iter_len};
ghost use Rattle.tick_model.specs.declared.plan.Node.{Node};
ghost use Rattle.tick_model.specs.LawfulRuns.{AreTexts, sources_of};
ghost use Rattle.feed_reader.specs.Coding.{all_texts, texts_of as texts_of_run, coded_feed as feed_with};
ghost use Rattle.feed_reader.specs.Runs.{IsAmong, opening_of};

use crate::coding::{coded_feed, coded_table};
use crate::ranks::Ranks;
use crate::raw::{RawFeed, RawTable};
use crate::texts::texts_of;
use std::alloc::{AllocError, Global};
use std::vec::IntoIter;
use tick_model::feed::Batch;
use tick_model::items::Items;
use tick_model::name::Name;
use tick_model::plan::{Node, Plan};
use tick_model::row_list::OpeningTable;
use tick_model::sources::is_source;

/// What table files and a feed say, with each text in the place of its rank among the texts of the run.
#[derive(Drop)]
pub struct Coded {
    /// The table of each source, in order of their nodes' numbers.
    pub opening: Items<OpeningTable>,
    pub batches: Items<Batch>,
    /// The distinct texts, in the order of their bytes.
    pub texts: Items<Name>,
}

/// Opens a node where it is a source, with the next of the tables.
fn open_node(
    alloc: Global,
    ranks: &Ranks,
    node: &Node,
    tables: &mut IntoIter<RawTable>,
    opening: &mut Items<OpeningTable>,
) -> Result<(), AllocError>
    requires columns { length node.now.columns < 2 ^ 32 }
    requires whole { into_iter_len tables.old ≡ length (into_iter_items tables.old) }
    ensures whole { into_iter_len tables.new ≡ length (into_iter_items tables.new) }
    ensures opens { OnOk result ((later : List Node) → opening.old ++ opening_of ranks.now (sources_of (node.now ∷ later)) (into_iter_items tables.old)
        ≡ opening.new ++ opening_of ranks.now (sources_of later) (into_iter_items tables.new)) }
{
    if !is_source(node) {
        return Ok(());
    }
    match tables.next() {
        Some(table) => {
            let width = node.columns.len() as u32;
            opening.push(coded_table(alloc, ranks, width, table)?)
        }
        None => Ok(()),
    }
}

/// The opening tables of the sources among nodes.
fn opened(
    alloc: Global,
    ranks: &Ranks,
    nodes: &[Node],
    tables: Items<RawTable>,
) -> Result<Items<OpeningTable>, AllocError>
    requires { All (λ node. length node.columns < 2 ^ 32) nodes.now }
    ensures { IfOk result (λ opening. opening ≡ opening_of ranks.now (sources_of nodes.now) tables) }
{
    let mut opening = Items::new(alloc);
    let mut tables = tables.into_vec().into_iter();
    for node in nodes {
        open_node(alloc, ranks, node, &mut tables, &mut opening)?;
    }
    Ok(opening)
}

/// The opening tables and the batches, by the ranks of these texts.
fn coded_by(
    alloc: Global,
    texts: &[Name],
    nodes: &[Node],
    tables: Items<RawTable>,
    feed: RawFeed,
) -> Result<(Items<OpeningTable>, Items<Batch>), AllocError>
    requires { All (λ node. length node.columns < 2 ^ 32) nodes.now }
    ensures opening { IfOk result (λ coded. coded.0 ≡ opening_of texts.now (sources_of nodes.now) tables) }
    ensures batches { IfOk result (λ coded. coded.1 ≡ feed_with texts.now feed) }
{
    let ranks = Ranks::of(alloc, texts)?;
    let opening = opened(alloc, &ranks, nodes, tables)?;
    let batches = coded_feed(alloc, &ranks, feed)?;
    Ok((opening, batches))
}

/// Gathers the texts of a script, of its table files and of its feed, and puts each text's rank in its place. There is one table for each
/// source of the plan, in order of their nodes' numbers.
pub fn code(
    alloc: Global,
    plan: &Plan,
    literals: &Items<Name>,
    tables: Items<RawTable>,
    feed: RawFeed,
) -> Result<Coded, AllocError>
    requires { All (λ node. length node.columns < 2 ^ 32) plan.now.nodes }
    ensures texts { IfOk result (λ coded. coded.texts ≡ texts_of_run literals.now tables feed) }
    // The texts stand each once and in byte order, and none is missing.
    ensures ordered { IfOk result (λ coded. AreTexts coded.texts) }
    ensures noted { IfOk result (λ coded. AllByRecursion (IsAmong coded.texts) (all_texts literals.now tables feed)) }
    ensures opening { IfOk result (λ coded. coded.opening ≡ opening_of coded.texts (sources_of plan.now.nodes) tables) }
    ensures batches { IfOk result (λ coded. coded.batches ≡ feed_with coded.texts feed) }
{
    let texts = texts_of(alloc, literals.as_slice(), tables.as_slice(), &feed)?;
    let nodes = plan.nodes.as_slice();
    let (opening, batches) = coded_by(alloc, texts.as_slice(), nodes, tables, feed)?;
    Ok(Coded {
        opening,
        batches,
        texts,
    })
}
