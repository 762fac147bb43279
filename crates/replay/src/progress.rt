//! A run under way.
ghost use Rattle.std.specs.Io.KnownBytes.{append_known};
ghost use Rattle.std.specs.Prelude.{◌≡◌, ◌+◌, ◌≤◌, ◌<◌, IfErr, IfOk, IsErrOf, None, OnErr, OnOk, length};
ghost use Rattle.snapshot_store.specs.Models.{IsOf};
ghost use Rattle.tick_io.specs.Counts.{Rose};
ghost use Rattle.tick_io.specs.Written.{AppendsPrefix};
ghost use Rattle.tick_model.specs.LawfulRuns.{IsLawfulRun};
ghost use Rattle.tick_model.specs.Texts.{records_text, step_records};
ghost use Rattle.replay.specs.Causes.{IsCause};
ghost use Rattle.replay.specs.Outcomes.{IsEnd, IsTold, OnTold};
ghost use Rattle.replay.specs.Standing.{IsAt, IsWriterAt};
ghost use Rattle.replay.specs.ToCome.{text_from};

use crate::Outcome;
use crate::hands::Hands;
use crate::limits::check_limits;
use crate::printed::{PrintedNode, printed_nodes};
use crate::publishing::next_published;
use crate::rows::row_counts;
use crate::writing::write_step;
use snapshot_store::{Store, Writer};
use std::alloc::{AllocError, Global};
use std::sync::Wait;
use std::thread::Threads;
use tick_io::{Gate, Sink};
use tick_model::feed::Run;
use tick_model::items::Items;
use update_graph::Graph;

/// A run whose steps up to one are printed.
#[derive(Drop)]
pub(crate) struct PrintedRun {
    pub(crate) graph: Graph,
    printed: Items<PrintedNode>,
    /// How many records were printed.
    records: u64,
}

impl PrintedRun {
    /// Opens a run, and prints its opening.
    pub(crate) fn open<S: Sink>(
        alloc: Global,
        run: &Run,
        out: &mut S,
    ) -> Result<PrintedRun, Outcome>
        requires { IsLawfulRun run.now }
        ensures stands { IfOk result (IsAt run.now 0) }
        ensures whole { OnOk result (S.bytes out.new ≡ append_known (S.bytes out.old) (records_text (step_records run.now 0))) }
        ensures cause { IfErr result (λ outcome. IsTold outcome → IsCause run.now 0 outcome) }
        ensures ended { IfErr result (λ outcome. IsTold outcome → S.bytes out.new ≡ S.bytes out.old) }
        ensures prefix { OnErr result (AppendsPrefix (S.bytes out.old) (S.bytes out.new) (text_from run.now 0)) }
        ensures failed { IsErrOf result Outcome.Write → Rose (S.failures out.old) (S.failures out.new) }
        ensures never_falls { S.failures out.old ≤ S.failures out.new }
        ensures steady { OnTold result (S.failures out.new ≡ S.failures out.old) }
    {
        let printed = printed_nodes(alloc, run)?;
        let graph = Graph::start(alloc, run)?;
        check_limits(&graph, run.plan.published.as_slice())?;
        let records = write_step(alloc, out, &graph, &run.texts, printed.as_slice())?;
        Ok(PrintedRun {
            graph,
            printed,
            records,
        })
    }

    /// Brings the run on by a step, publishes it, and prints it.
    pub(crate) fn advance<R: Threads + Wait + Sync, S: Sink, G: Gate>(
        self,
        rt: &R,
        alloc: Global,
        run: &Run,
        hands: &mut Hands,
        gate: &G,
        store: &Store,
        writer: &mut Writer,
        out: &mut S,
    ) -> Result<PrintedRun, Outcome>
        requires lawful { IsLawfulRun run.now }
        requires stands { IsAt run.now self.graph.step self }
        requires next { self.graph.step < length run.now.batches }
        requires store { store.now.run ≡ run.now }
        requires writer { IsWriterAt store.now self.graph.step writer.old }
        ensures stands { IfOk result (IsAt run.now (self.graph.step + 1)) }
        ensures writer { OnOk result (IsWriterAt store.now (self.graph.step + 1) writer.new) }
        ensures own { IsOf store.now writer.new.table writer.new.run }
        ensures stays { IfErr result (λ outcome. IsTold outcome → writer.new.step ≡ self.graph.step) }
        ensures whole { OnOk result (S.bytes out.new ≡ append_known (S.bytes out.old) (records_text (step_records run.now (self.graph.step + 1)))) }
        ensures cause { IfErr result (λ outcome. IsTold outcome → IsCause run.now (self.graph.step + 1) outcome) }
        ensures ended { IfErr result (λ outcome. IsTold outcome → S.bytes out.new ≡ S.bytes out.old) }
        ensures prefix { OnErr result (AppendsPrefix (S.bytes out.old) (S.bytes out.new) (text_from run.now (self.graph.step + 1))) }
        ensures failed { IsErrOf result Outcome.Write → Rose (S.failures out.old) (S.failures out.new) }
        ensures never_falls { S.failures out.old ≤ S.failures out.new }
        ensures steady { OnTold result (S.failures out.new ≡ S.failures out.old) }
    {
        let PrintedRun {
            graph,
            printed,
            records,
        } = self;
        let graph = next_published(rt, alloc, run, hands, graph, gate, store, writer)?;
        let more = write_step(alloc, out, &graph, &run.texts, printed.as_slice())?;
        Ok(PrintedRun {
            graph,
            printed,
            records: records + more,
        })
    }

    /// What the run ends with once all its steps are printed.
    pub(crate) fn done(self, alloc: Global, run: &Run) -> Result<Outcome, AllocError>
        requires { IsAt run.now (length run.now.batches) self }
        ensures { IfOk result (λ outcome. IsEnd run.now outcome) }
    {
        let step = self.graph.step();
        let nodes = run.plan.nodes.len() as u32;
        Ok(Outcome::Done {
            step,
            records: self.records,
            rows: row_counts(alloc, &self.graph, nodes)?,
        })
    }
}
