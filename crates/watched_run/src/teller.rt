//! What tells the messages about the watched rows.

ghost use Rattle.std.specs.Io.KnownBytes.{append_known};
ghost use Rattle.std.specs.Prelude.{◌≡◌, ◌+◌, ◌≤◌, ◌<◌, ◌^◌, IfErr, IfOk, IsErrOf, OnErr, OnOk, suc};
ghost use Rattle.tick_io.specs.Counts.{Rose};
ghost use Rattle.tick_io.specs.Written.{AppendsPrefix};
ghost use Rattle.tick_laws.specs.Reached.{IsReached};
ghost use Rattle.tick_model.specs.Evaluation.{table_at};
ghost use Rattle.tick_model.specs.LawfulRuns.{IsLawfulRun};
ghost use Rattle.tick_model.specs.States.{state, tick};
ghost use Rattle.tick_model.specs.Texts.{records_text};
ghost use Rattle.tick_table.specs.Exact.{ticking};
ghost use Rattle.replay.specs.Outcomes.{IsTold, OnTold};
ghost use Rattle.watched_run.specs.Messages.{IsWatch, first_records, message_records};
ghost use Rattle.watched_run.specs.Standing.{IsTeller};

use crate::told::tell;
use crate::watch::{Watch, slice_of};
use new_counts::new_count;
use replay::{Outcome, PrintedNode, printed_node};
use std::alloc::{AllocError, Global};
use std::sync::ledger::{Blank, Ledger};
use tick_io::Sink;
use tick_model::feed::Run;
use tick_table::{Steps, TickTable};
use viewport::{Mirror, Viewport};

/// The node as it is printed, the subscription to its rows, and a mirror that has taken every message so far.
#[derive(Drop)]
pub(crate) struct Teller {
    printed: PrintedNode,
    viewport: Viewport,
    mirror: Mirror,
    /// The step of the last message.
    pub(crate) last: u64,
    /// How many steps were taken in since.
    pub(crate) since: u32,
}

impl Teller {
    /// Tells the rows of the opening, with reads that are counted from a blank.
    pub(crate) fn start<S: Sink, L: Ledger>(
        alloc: Global,
        out: &mut S,
        run: &Run,
        watch: &Watch,
        table: &TickTable,
        blank: Blank,
    ) -> Result<Teller, Outcome>
        requires name { blank.name ≡ L.name }
        requires parts { blank.parts ≡ L.parts }
        requires some { 0 < blank.parts }
        requires lawful { IsLawfulRun run.now }
        requires reached { IsReached run.now 0 }
        requires watch { IsWatch run.now watch.now }
        requires table { table.now.new ≡ table_at (state run.now 0) watch.now.node }
        ensures stands { IfOk result (IsTeller run.now watch.now) }
        ensures last { IfOk result (λ teller. teller.last ≡ 0) }
        ensures since { IfOk result (λ teller. teller.since ≡ 0) }
        ensures whole { OnOk result (S.bytes out.new ≡ append_known (S.bytes out.old) (records_text (first_records run.now watch.now))) }
        ensures prefix { OnErr result (AppendsPrefix (S.bytes out.old) (S.bytes out.new) (records_text (first_records run.now watch.now))) }
        ensures no_cause { IfErr result (λ outcome. IsTold outcome → ⊥) }
        ensures failed { IsErrOf result Outcome.Write → Rose (S.failures out.old) (S.failures out.new) }
        ensures never_falls { S.failures out.old ≤ S.failures out.new }
        ensures steady { OnTold result (S.failures out.new ≡ S.failures out.old) }
    {
        let width = table.width();
        let printed = printed_node(alloc, run, watch.node)?;
        let slice = slice_of(alloc, watch, width)?;
        let mut reads = Steps::<L>::new(blank, new_count());
        let (viewport, message) = Viewport::start(alloc, slice, table, &mut reads)?;
        let empty = Mirror::new(alloc, width)?;
        let mirror = tell(alloc, out, 0, &printed.shown, &run.texts, empty, message)?;
        Ok(Teller {
            printed,
            viewport,
            mirror,
            last: 0,
            since: 0,
        })
    }

    /// Takes the next step of the node's table in.
    pub(crate) fn pass(
        self,
        run: &Run,
        watch: &Watch,
        table: &TickTable,
    ) -> Result<Teller, AllocError>
        requires lawful { IsLawfulRun run.now }
        requires watch { IsWatch run.now watch.now }
        requires stands { IsTeller run.now watch.now self }
        requires not_due { self.since < watch.now.every }
        requires reached { IsReached run.now (self.last + suc self.since) }
        requires table { table.now ≡ ticking (tick run.now (self.last + suc self.since) watch.now.node) }
        ensures stands { IfOk result (IsTeller run.now watch.now) }
        ensures last { IfOk result (λ teller. teller.last ≡ self.last) }
        ensures since { IfOk result (λ teller. teller.since ≡ self.since + 1) }
    {
        let Teller {
            printed,
            viewport,
            mirror,
            last,
            since,
        } = self;
        let viewport = viewport.pass(table)?;
        Ok(Teller {
            printed,
            viewport,
            mirror,
            last,
            since: since + 1,
        })
    }

    /// Tells what became of the rows since the last message, with reads that are counted from a blank.
    pub(crate) fn message<S: Sink, L: Ledger>(
        self,
        alloc: Global,
        out: &mut S,
        run: &Run,
        watch: &Watch,
        table: &TickTable,
        blank: Blank,
    ) -> Result<Teller, Outcome>
        requires name { blank.name ≡ L.name }
        requires parts { blank.parts ≡ L.parts }
        requires some { 0 < blank.parts }
        requires lawful { IsLawfulRun run.now }
        requires watch { IsWatch run.now watch.now }
        requires stands { IsTeller run.now watch.now self }
        requires reached { IsReached run.now (self.last + self.since) }
        requires few { self.last + self.since < 2 ^ 64 }
        requires table { table.now.new ≡ table_at (state run.now (self.last + self.since)) watch.now.node }
        ensures stands { IfOk result (IsTeller run.now watch.now) }
        ensures last { IfOk result (λ teller. teller.last ≡ self.last + self.since) }
        ensures since { IfOk result (λ teller. teller.since ≡ 0) }
        ensures whole { OnOk result (S.bytes out.new ≡ append_known (S.bytes out.old) (records_text (message_records run.now watch.now self.last self.since))) }
        ensures prefix { OnErr result (AppendsPrefix (S.bytes out.old) (S.bytes out.new) (records_text (message_records run.now watch.now self.last self.since))) }
        ensures no_cause { IfErr result (λ outcome. IsTold outcome → ⊥) }
        ensures failed { IsErrOf result Outcome.Write → Rose (S.failures out.old) (S.failures out.new) }
        ensures never_falls { S.failures out.old ≤ S.failures out.new }
        ensures steady { OnTold result (S.failures out.new ≡ S.failures out.old) }
    {
        let Teller {
            printed,
            viewport,
            mirror,
            last,
            since,
        } = self;
        let step = last + since as u64;
        let mut reads = Steps::<L>::new(blank, new_count());
        let (viewport, message) = viewport.message(table, &mut reads)?;
        let mirror = tell(
            alloc,
            out,
            step,
            &printed.shown,
            &run.texts,
            mirror,
            message,
        )?;
        Ok(Teller {
            printed,
            viewport,
            mirror,
            last: step,
            since: 0,
        })
    }
}
