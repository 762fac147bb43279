//! The opening of a run: its tables at step 0, and the store in which they are published.
ghost use Rattle.std.specs.Io.KnownBytes.{append_known};
ghost use Rattle.std.specs.Prelude.{◌≡◌, ◌<◌, ◌≤◌, ℕ, All, IfErr, IfOk, IsErrOf, OnErr, OnOk, length, map};
ghost use Rattle.std.specs.Arc.{arc_value};
ghost use Rattle.snapshot_store.specs.Models.{IsNewCaller};
ghost use Rattle.snapshot_store.specs.Opening.{AreFirst};
ghost use Rattle.tick_io.specs.Counts.{Rose};
ghost use Rattle.tick_io.specs.Written.{AppendsPrefix};
ghost use Rattle.tick_model.specs.Evaluation.{table_at};
ghost use Rattle.tick_model.specs.LawfulRuns.{IsLawfulRun};
ghost use Rattle.tick_model.specs.States.{state};
ghost use Rattle.tick_model.specs.Texts.{records_text, step_records};
ghost use Rattle.tick_table.specs.Ticking.{Ticking};
ghost use Rattle.replay.specs.Causes.{IsCause};
ghost use Rattle.replay.specs.Opened.{IsOpened, IsStarted};
ghost use Rattle.replay.specs.Outcomes.{IsTold, OnTold};
ghost use Rattle.replay.specs.Snapshots.{EachReader, IsReader, callers_of};
ghost use Rattle.replay.specs.Standing.{IsAt, IsWithin};
ghost use Rattle.replay.specs.ToCome.{text_from};

use crate::progress::PrintedRun;
use crate::readers::Reader;
use crate::{Knobs, Outcome};
use snapshot_store::{Caller, Layout, Store, Writer};
use std::alloc::{AllocError, Global};
use tick_io::Sink;
use tick_model::feed::Run;
use tick_model::items::Items;
use tick_model::plan::Published;
use tick_table::Shared;
use update_graph::Graph;

/// The store of a run, with its writer and its callers.
#[derive(Drop)]
pub(crate) struct Publication {
    pub(crate) store: Store,
    pub(crate) writer: Writer,
    pub(crate) readers: Vec<Reader>,
}

/// A run that was opened.
#[derive(Drop)]
pub(crate) struct Opened {
    pub(crate) progress: PrintedRun,
    pub(crate) publication: Publication,
}

/// A published table at the opening, for another holder.
fn first_table(graph: &Graph, table: &Published) -> Result<Shared, AllocError>
    requires node { table.now.node < length graph.now.run.plan.nodes }
    requires opening { graph.now.step ≡ 0 }
    ensures { IfOk result (λ shared. (arc_value {X = Ticking} shared).new ≡ table_at (state graph.now.run 0) table.now.node) }
{
    let _step = graph.step();
    let shared = graph.shared(table.node).clone()?;
    Ok(shared)
}

/// The published tables at the opening.
fn published_tables(
    alloc: Global,
    graph: &Graph,
    published: &[Published],
) -> Result<Vec<Shared>, AllocError>
    requires published { published.now ≡ graph.now.run.plan.published }
    requires opening { graph.now.step ≡ 0 }
    requires within { IsWithin graph.now.run 0 }
    ensures { IfOk result (λ all. AreFirst graph.now.run (map (λ shared. (arc_value {X = Ticking} shared).new) all.items)) }
{
    let _step = graph.step();
    let mut tables = Vec::with_capacity(alloc, published.len())?;
    for table in published {
        tables.push(first_table(graph, table)?)?;
    }
    Ok(tables)
}

/// Callers that have kept nothing yet.
fn readers_of(
    alloc: Global,
    store: &Store,
    callers: Items<Caller>,
) -> Result<Vec<Reader>, AllocError>
    requires { All (IsNewCaller store.now) callers }
    ensures count { IfOk result (λ readers. length readers.items ≡ length callers) }
    ensures each { IfOk result (λ readers. (attempts : ℕ) → EachReader (λ number. IsReader store.now attempts number 0) readers.items) }
{
    let mut readers = Vec::with_capacity(alloc, callers.len())?;
    let mut callers = callers.into_vec();
    while let Some(caller) = callers.pop() {
        readers.push(Reader::new(alloc, caller))?;
    }
    Ok(readers)
}

/// The store of the published tables at step 0, with so many callers.
fn published(
    alloc: Global,
    run: &Run,
    graph: &Graph,
    callers: u32,
) -> Result<Publication, AllocError>
    requires lawful { IsLawfulRun run.now }
    requires run { graph.now.run ≡ run.now }
    requires opening { graph.now.step ≡ 0 }
    requires within { IsWithin run.now 0 }
    ensures { IfOk result (IsStarted run.now callers) }
{
    let layout = Layout::of(alloc, &run.plan.published)?;
    let tables = published_tables(alloc, graph, run.plan.published.as_slice())?;
    let (store, writer, callers) = Store::start(alloc, run, layout, tables.as_slice(), callers)?;
    let readers = readers_of(alloc, &store, callers)?;
    Ok(Publication {
        store,
        writer,
        readers,
    })
}

/// How many callers there are: none where there is no published table to call for.
fn caller_count(published: &[Published], callers: u32) -> u32
    ensures { result ≡ callers_of published.now callers }
{
    if published.is_empty() { 0 } else { callers }
}

/// Opens a run, prints its opening, and publishes it.
pub(crate) fn open_run<S: Sink>(
    alloc: Global,
    run: &Run,
    knobs: &Knobs,
    out: &mut S,
) -> Result<Opened, Outcome>
    requires { IsLawfulRun run.now }
    ensures opened { IfOk result (IsOpened run.now knobs.now) }
    ensures whole { OnOk result (S.bytes out.new ≡ append_known (S.bytes out.old) (records_text (step_records run.now 0))) }
    ensures cause { IfErr result (λ outcome. IsTold outcome → IsCause run.now 0 outcome) }
    ensures ended { IfErr result (λ outcome. IsTold outcome → S.bytes out.new ≡ S.bytes out.old) }
    ensures prefix { OnErr result (AppendsPrefix (S.bytes out.old) (S.bytes out.new) (text_from run.now 0)) }
    ensures failed { IsErrOf result Outcome.Write → Rose (S.failures out.old) (S.failures out.new) }
    ensures never_falls { S.failures out.old ≤ S.failures out.new }
    ensures steady { OnTold result (S.failures out.new ≡ S.failures out.old) }
{
    let progress = PrintedRun::open(alloc, run, out)?;
    let callers = caller_count(run.plan.published.as_slice(), knobs.callers);
    let publication = published(alloc, run, &progress.graph, callers)?;
    Ok(Opened {
        progress,
        publication,
    })
}
