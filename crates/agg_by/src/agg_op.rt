//! An aggregation with its rows.

ghost use Rattle.std.specs.Prelude.{◌≡◌, ◌+◌, ◌*◌, ◌≤◌, length, IfOk, OnErr};
ghost use Rattle.agg_by.specs.Aggregator.{IsAggregator, StandsFor, grouped};
ghost use Rattle.tick_model.specs.Changes.{change_of};
ghost use Rattle.tick_table.specs.Exact.{IsExact, counted, tick_of};
ghost use Rattle.tick_table.specs.Ticking.{no_rows};

use crate::aggregation::Aggregation;
use std::alloc::{AllocError, Global};
use std::marker::Model;
use std::sync::ledger::Ledger;
use tick_model::items::Items;
use tick_model::plan::Agg;
use tick_table::{Change, Steps, TickTable};

/// Shows a row for each group of its input's rows with equal key cells. It stands for the rows that it saw last.
#[derive(Drop)]
pub struct AggOp {
    aggregation: Aggregation,
    shown: TickTable,
}

impl Model for AggOp {
    ghost use Rattle.std.specs.Coded.{codes};
    ghost use Rattle.agg_by.specs.Aggregator.{Aggregator};
    ghost use Rattle.agg_by.specs.contracts.running.Accumulator as running_type;
    ghost use Rattle.tick_model.specs.contracts.plan.Agg as agg_type;

    ghost Value = { Aggregator };

    ghost coded = { Prim.hlevel (codes, running_type.the_row.coded, agg_type.the_row.coded) };

    ghost view = { λ op. record {
      by = op.aggregation.by;
      aggs = op.aggregation.aggs;
      width = op.aggregation.width;
      rows = op.aggregation.rows;
      running = op.aggregation.running;
      shown = op.shown.new;
    } };
}

impl AggOp {
    /// An operator that has seen no rows, for an input of this width. It takes no memory.
    pub fn new(alloc: Global, by: Items<u32>, aggs: Items<Agg>, width: u32) -> AggOp
        requires { IsAggregator by aggs width }
        ensures by { result.by ≡ by }
        ensures aggs { result.aggs ≡ aggs }
        ensures width { result.width ≡ width }
        ensures stands { StandsFor result (no_rows width) }
    {
        let columns = (by.len() + aggs.len()) as u32;
        AggOp {
            aggregation: Aggregation::new(alloc, by, aggs, width),
            shown: TickTable::empty(alloc, columns),
        }
    }

    /// The operator after the step that the input shows, and the change of its rows. It must stand for the input's rows before
    /// the step; after a refusal it is given up, and no more is read than that change may take.
    pub fn step<L: Ledger>(
        self,
        alloc: Global,
        input: &TickTable,
        reads: &mut Steps<L>,
    ) -> Result<(AggOp, Change), AllocError>
        requires exact { IsExact input.now }
        requires width { input.now.new.width ≡ self.width }
        requires stands { StandsFor self input.now.old }
        ensures by { IfOk result (λ out. out.0.by ≡ self.by) }
        ensures aggs { IfOk result (λ out. out.0.aggs ≡ self.aggs) }
        ensures width { IfOk result (λ out. out.0.width ≡ self.width) }
        ensures stands { IfOk result (λ out. StandsFor out.0 input.now.new) }
        ensures change { IfOk result (λ out. out.1 ≡ change_of (grouped self.by self.aggs (tick_of input.now))) }
        ensures reads { IfOk result (λ out. reads.new ≤ reads.old
            + 4 * (input.now.new.width + (length self.by + length self.aggs)) * (counted input.now.update + counted out.1.update)) }
        ensures refused { OnErr result (reads.new ≤ reads.old
            + 4 * (input.now.new.width + (length self.by + length self.aggs)) * (counted input.now.update + counted (change_of (grouped self.by self.aggs (tick_of input.now))).update)) }
    {
        let AggOp { aggregation, shown } = self;
        let (aggregation, change) = aggregation.change(alloc, input, &shown, reads)?;
        let told = change.copy(alloc)?;
        let shown = shown.apply(told)?;
        Ok((AggOp { aggregation, shown }, change))
    }
}
