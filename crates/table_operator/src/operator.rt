//! The trait that each operator has.

use crate::fault::StepFault;
use std::alloc::{AllocError, Global};
use std::sync::ledger::Ledger;
use tick_model::plan::Op;
use tick_table::{Change, Shared, Steps, TickTable};

/// An operator of a plan, with what it keeps of its inputs' rows. It stands for the rows that it saw last.
pub trait TableOperator {
    ghost use Rattle.std.specs.Prelude.{◌≡◌, ◌+◌, ◌≤◌, List, ℕ, None, length, map, IfErr, IfOk, OnOk};
    ghost use Rattle.table_operator.specs.Inputs.{news, tables};
    ghost use Rattle.table_operator.specs.Made.{IsCause, IsMadeOf, IsReady, Made, own_fault, own_tick, room_for};
    ghost use Rattle.tick_model.specs.Changes.{change_of};
    ghost use Rattle.tick_model.specs.Operators.{inputs_of};
    ghost use Rattle.tick_model.specs.declared.plan.Op.{Op};
    ghost use Rattle.tick_model.specs.declared.table.PlainTable.{PlainTable};
    ghost use Rattle.tick_table.specs.Ticking.{no_rows};

    /// What it is made of.
    ghost made: { Self → Made };

    /// What it keeps is that of these tables, one for each input.
    ghost stands: { Self → List PlainTable → Type 0 };

    /// Whether it can be made of an operator of a plan, for inputs of these widths.
    ghost can_be: { Op → List ℕ → Type 0 };

    /// The operator of a node whose inputs have these widths, in order. It has seen no rows. It is refused where memory runs out.
    fn of(alloc: Global, op: &Op, widths: &[u32]) -> Result<Self, AllocError>
        requires count { length widths.now ≡ length (inputs_of op.now) }
        requires can { can_be op.now widths.now }
        ensures made { IfOk result (λ operator. IsMadeOf op.now (made operator)) }
        ensures widths { IfOk result (λ operator. (made operator).widths ≡ widths.now) }
        ensures stands { IfOk result (λ operator. stands operator (map no_rows widths.now)) };

    /// The operator after the step that the inputs show, and the change of its rows. It must stand for the inputs' rows before
    /// the step, and `own` must be its own table as it is before it. It is refused where memory runs out, or where it has no
    /// table over the inputs now, and is then given up. No more cells are read than the change may take, also
    /// where it is refused.
    fn advance<L: Ledger>(
        self,
        alloc: Global,
        own: &TickTable,
        inputs: &[Shared],
        reads: &mut Steps<L>,
    ) -> Result<(Self, Change), StepFault>
        requires { IsReady (made self) (stands self) own.now.new (tables inputs.now) }
        ensures made { IfOk result (λ out. made out.0 ≡ made self) }
        ensures stands { IfOk result (λ out. stands out.0 (news (tables inputs.now))) }
        ensures sound { OnOk result (own_fault (made self) (tables inputs.now) ≡ None) }
        ensures cause { IfErr result (λ fault. IsCause fault (own_fault (made self) (tables inputs.now))) }
        ensures change { IfOk result (λ out. out.1 ≡ change_of (own_tick (made self) (tables inputs.now))) }
        ensures reads { reads.new ≤ reads.old + room_for (made self) (tables inputs.now) };
}
