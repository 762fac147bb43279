//! One type for every operator of a plan.

ghost use Rattle.std.specs.Prelude.{◌≡◌, ℕ, ◌+◌, ◌-◌, ◌*◌, ◌≤◌, ◌++◌, ◌∷◌, [], None, length, map, sum, IfErr, IfOk, OnErr, OnOk};
ghost use Rattle.std.specs.List.{AllByRecursion};
ghost use Rattle.table_operator.specs.Inputs.{counted_in, news, olds, tables};
ghost use Rattle.table_operator.specs.Made.{HasKeys, IsCause};
ghost use Rattle.operators.specs.Inputs.{AreTables, AreTicks, IsShown};
ghost use Rattle.operators.specs.Operating.{CanBeMade, StandsFor, idled};
ghost use Rattle.tick_laws.specs.Operated.{operated};
ghost use Rattle.tick_model.specs.Changes.{change_of};
ghost use Rattle.tick_model.specs.Operators.{fault_of, inputs_of, result_width};
ghost use Rattle.tick_model.specs.Updates.{Tick};
ghost use Rattle.tick_model.specs.declared.table.PlainTable.{PlainTable};
ghost use Rattle.tick_table.specs.Exact.{IsExact, counted, tick_of};
ghost use Rattle.tick_table.specs.Ticking.{no_rows};

use crate::counts::{Counted, Idle, StepCount};
use crate::running::AnyOperator;
use boxcar::tag::Tag;
use std::alloc::{AllocError, Global};
use std::marker::Model;
use std::snapshot::Snapshot;
use std::sync::ledger::Ledger;
use table_operator::{StepFault, TableOperator};
use tick_model::plan::Op;
use tick_table::{Change, Shared, Steps, TickTable};

/// An operator of a plan, with what it keeps of its inputs' rows. It stands for the rows that it saw last.
pub struct Operator {
    /// What it was made of. It takes no bytes.
    op: Snapshot<Op>,
    running: AnyOperator,
    /// How many cells it read in each of its steps. It takes no bytes.
    reads: Tag,
}

// Written out, so that a crate which lets an operator go does not prove anew how each part of it is let go.
impl Drop for Operator {
    fn drop(self) {
        let Self {
            op: _,
            running: _,
            reads: _,
        } = self;
    }
}

impl Model for Operator {
    ghost use Rattle.std.specs.Coded.{codes};
    ghost use Rattle.operators.specs.Operating.{Operating, made_of};
    ghost use Rattle.table_operator.specs.Made.{IsMadeOf};
    ghost use Rattle.operators.specs.contracts.running.AnyOperator as running_type;
    ghost use Rattle.tick_model.specs.contracts.plan.Op as op_type;

    ghost Value = { Operating };

    ghost coded = { Prim.hlevel (codes, op_type.the_row.coded, running_type.the_row.coded) };

    ghost view = { λ operator. record { op = operator.op.value; widths = (made_of operator.running).widths; kept = operator.running; reads = operator.reads.numbers } };

    ghost invariant = { λ operator. IsMadeOf operator.op.value (made_of operator.running) };
}

impl Operator {
    /// The operator of a node whose inputs have these widths, in order. It has seen no rows.
    pub fn new(alloc: Global, op: &Op, widths: &[u32]) -> Result<Operator, AllocError>
        requires count { length widths.now ≡ length (inputs_of op.now) }
        requires made { CanBeMade op.now widths.now }
        ensures op { IfOk result (λ operator. operator.op ≡ op.now) }
        ensures widths { IfOk result (λ operator. operator.widths ≡ widths.now) }
        ensures stands { IfOk result (λ operator. StandsFor operator (map no_rows widths.now)) }
        ensures steps { IfOk result (λ operator. operator.reads ≡ []) }
    {
        let running = AnyOperator::of(alloc, op, widths)?;
        Ok(Operator {
            op: Snapshot::of(op),
            running,
            reads: Tag::empty(),
        })
    }

    /// The operator after the step that the inputs show, and the change of its rows. It must stand for the inputs' rows before
    /// the step, and `own` must be the table that it makes of these; after a refusal it is given up, and no more is read than
    /// that change may take. What it is over is said by the tables, or ticks, of all nodes by their numbers, of which
    /// it reads those of its inputs.
    pub fn step<L: Ledger>(
        self,
        alloc: Global,
        own: &TickTable,
        inputs: &[Shared],
        reads: &mut Steps<L>,
    ) -> Result<(Operator, Change), StepFault>
        requires widths { map (λ input. input.new.width) (tables inputs.now) ≡ self.widths }
        requires exact { AllByRecursion IsExact (tables inputs.now) }
        requires rows { AllByRecursion (λ input. length input.new.rows ≤ 4194304) (tables inputs.now) }
        requires keys { HasKeys self.op (news (tables inputs.now)) }
        requires stands { StandsFor self (olds (tables inputs.now)) }
        requires shown { IsShown self.op (tables inputs.now) own.now.new }
        ensures op { IfOk result (λ out. out.0.op ≡ self.op) }
        ensures widths { IfOk result (λ out. out.0.widths ≡ self.widths) }
        ensures stands { IfOk result (λ out. StandsFor out.0 (news (tables inputs.now))) }
        ensures sound { OnOk result ((table : ℕ → PlainTable) → AreTables self.op table (tables inputs.now) → fault_of self.op table ≡ None) }
        ensures cause { IfErr result (λ fault. (table : ℕ → PlainTable) → AreTables self.op table (tables inputs.now) → IsCause fault (fault_of self.op table)) }
        ensures change { IfOk result (λ out. (tick : ℕ → Tick) → AreTicks self.op tick (tables inputs.now) → out.1 ≡ change_of (operated self.op tick)) }
        ensures reads { IfOk result (λ out. reads.new ≤ reads.old
            + 4 * (sum self.widths + result_width self.op self.widths) * (counted_in (tables inputs.now) + counted out.1.update)) }
        ensures refused { OnErr result ((tick : ℕ → Tick) → AreTicks self.op tick (tables inputs.now) → reads.new ≤ reads.old
            + 4 * (sum self.widths + result_width self.op self.widths) * (counted_in (tables inputs.now) + counted (change_of (operated self.op tick)).update)) }
        ensures steps { IfOk result (λ out. out.0.reads ≡ self.reads ++ (reads.new - reads.old) ∷ []) }
    {
        let Operator {
            op,
            running,
            reads: before,
        } = self;
        let start = Snapshot::of(reads);
        let (running, change) = running.advance(alloc, own, inputs, reads)?;
        let end = Snapshot::of(reads);
        let reads = Tag::of::<StepCount<L>, Counted>(&StepCount { before, start, end });
        Ok((Operator { op, running, reads }, change))
    }

    /// The operator takes a step in which no input changes: it reads nothing, and is as before.
    pub fn idle(&mut self)
        ensures { self.new ≡ idled self.old }
    {
        self.reads = Tag::of::<Tag, Idle>(&self.reads);
    }
}
