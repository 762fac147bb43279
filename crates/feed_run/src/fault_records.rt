//! The records of faults, and of the end.

ghost use Rattle.std.specs.Prelude.{◌≡◌, IfOk};
ghost use Rattle.tick_model.specs.Spoiled.{ByBatch, ByNode};
ghost use Rattle.tick_model.specs.Texts.{done_record as done_record_of, name_at, published_node as published_node_of};
ghost use Rattle.feed_run.specs.Verdicts.{refusal_status as status_of_refusal};
ghost use Rattle.feed_run.specs.Wholes.{cause_record, kept_record as kept_record_of, publication_record as publication_record_of, refusal_record as refusal_record_of, unnamed_record as unnamed_record_of, unread_record as unread_record_of};

use crate::fault_words::{script_word, text_word, with_node_fault, with_rule};
use crate::fields::Fields;
use crate::refusal::Refusal;
use std::alloc::{AllocError, Global};
use tick_model::feed::Run;
use tick_model::table::NodeFault;
use tick_model::update::FeedRule;

/// That a file could not be read.
pub(crate) fn unread_record(alloc: Global, name: &str) -> Result<Fields, AllocError>
    ensures { IfOk result (λ fields. fields ≡ unread_record_of name.now) }
{
    Fields::of_fault(alloc, "3", "read")?.text(name)
}

/// Why words or a file are refused.
pub(crate) fn refusal_record(alloc: Global, refusal: &Refusal) -> Result<Fields, AllocError>
    ensures { IfOk result (λ fields. fields ≡ refusal_record_of refusal.now) }
{
    match refusal {
        Refusal::Usage => Fields::of_fault(alloc, "2", "usage"),
        Refusal::Script { line, kind } => Fields::of_fault(alloc, "4", "script")?
            .number(*line)?
            .text(script_word(*kind)),
        Refusal::Table {
            source,
            number,
            kind,
        } => Fields::of_fault(alloc, "5", "table")?
            .text(source.as_str())?
            .number(*number)?
            .text(text_word(*kind)),
        Refusal::Feed { number, kind } => Fields::of_fault(alloc, "6", "feed")?
            .number(*number)?
            .text(text_word(*kind)),
    }
}

/// That the script has no node of the name that is to be watched.
pub(crate) fn unnamed_record(alloc: Global, name: &str) -> Result<Fields, AllocError>
    ensures { IfOk result (λ fields. fields ≡ unnamed_record_of name.now) }
{
    Fields::of_fault(alloc, "12", "watch")?.text(name)
}

/// The status where words or a file are refused.
pub(crate) fn refusal_status(refusal: &Refusal) -> u8
    ensures { result ≡ status_of_refusal refusal.now }
{
    match refusal {
        Refusal::Usage => 2,
        Refusal::Script { .. } => 4,
        Refusal::Table { .. } => 5,
        Refusal::Feed { .. } => 6,
    }
}

/// That the snapshots to be kept have too many words.
pub(crate) fn kept_record(alloc: Global, words: u64) -> Result<Fields, AllocError>
    ensures { IfOk result (λ fields. fields ≡ kept_record_of words) }
{
    Fields::of_fault(alloc, "2", "kept")?.number(words)
}

/// The rule that the batch of a step breaks, and the record that breaks it.
pub(crate) fn batch_record(
    alloc: Global,
    run: &Run,
    step: u64,
    number: u64,
    rule: FeedRule,
) -> Result<Fields, AllocError>
    ensures { IfOk result (λ fields. fields ≡ cause_record run.now step (ByBatch number rule)) }
{
    let fields = Fields::of_fault(alloc, "7", "step")?
        .number(step)?
        .number(number)?;
    with_rule(fields, rule)
}

fn node_name(run: &Run, node: u32) -> &str
    ensures { result.now ≡ name_at run.now node }
{
    match run.plan.nodes.as_slice().get(node as usize) {
        Some(node) => node.name.as_str(),
        None => "",
    }
}

/// The node that has no table at a step, and why.
pub(crate) fn node_record(
    alloc: Global,
    run: &Run,
    step: u64,
    node: u32,
    fault: NodeFault,
) -> Result<Fields, AllocError>
    ensures { IfOk result (λ fields. fields ≡ cause_record run.now step (ByNode node fault)) }
{
    let fields = Fields::of_fault(alloc, "8", "node")?
        .number(step)?
        .text(node_name(run, node))?;
    with_node_fault(fields, fault)
}

fn published_node(run: &Run, number: u32) -> u32
    ensures { result ≡ published_node_of run.now.plan.published number }
{
    match run.plan.published.as_slice().get(number as usize) {
        Some(published) => published.node,
        None => 0,
    }
}

/// The published table that has too many rows at a step, how many, and how many it may have.
pub(crate) fn publication_record(
    alloc: Global,
    run: &Run,
    step: u64,
    number: u32,
    rows: u64,
    limit: u64,
) -> Result<Fields, AllocError>
    ensures { IfOk result (λ fields. fields ≡ publication_record_of run.now step number rows limit) }
{
    let node = published_node(run, number);
    Fields::of_fault(alloc, "9", "publish")?
        .number(step)?
        .text(node_name(run, node))?
        .number(rows)?
        .number(limit)
}

/// That every step up to the last one is done.
pub(crate) fn done_record(alloc: Global, last: u64) -> Result<Fields, AllocError>
    ensures { IfOk result (λ fields. fields ≡ done_record_of last) }
{
    Fields::of_end(alloc)?.number(last)
}
