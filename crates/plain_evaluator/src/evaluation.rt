//! The plain evaluator: the tables of a plan's nodes, afresh from its sources.

ghost use Rattle.std.specs.Prelude.{◌≡◌, map, true, IfOk, IfErr};
ghost use Rattle.tick_model.specs.Evaluation.{Table, outcome_of, eval};
ghost use Rattle.tick_model.specs.Fits.{fit_sources};
ghost use Rattle.tick_model.specs.Plans.{is_lawful};
ghost use Rattle.tick_model.specs.Ready.{table_in};
ghost use Rattle.tick_model.specs.Operators.{IsNodeReady};
ghost use Rattle.plain_evaluator.specs.Gives.{Gives};
ghost use Rattle.plain_evaluator.specs.Stops.{IsCause, stop_at};

use crate::operators::{NoTable, operated};
use crate::rows::table_copied;
use std::alloc::{AllocError, AllocFailed, Global};
use tick_model::items::Items;
use tick_model::plan::{Op, Plan};
use tick_model::sources::is_source;
use tick_model::table::{NodeFault, PlainTable};

/// The tables of a plan's nodes, in order of their numbers.
#[derive(Debug, Drop)]
pub struct Evaluated {
    pub tables: Items<PlainTable>,
}

/// Why there are none.
#[derive(Clone, Copy, Debug, PartialEq, Eq)]
pub enum EvalStop {
    /// Out of memory.
    Memory,
    /// The least node that has no table although its inputs have theirs.
    Node { node: u32, kind: NodeFault },
}

impl From<AllocError> for EvalStop {
    ghost use Rattle.std.specs.Prelude.{◌≡◌};
    ghost use Rattle.plain_evaluator.specs.declared.evaluation.EvalStop.TheVariants.{Memory};

    ghost from_gives = { λ _ e. e ≡ Memory };

    fn from(_error: AllocError) -> EvalStop {
        EvalStop::Memory
    }
}

impl<T: Drop> From<AllocFailed<T>> for EvalStop {
    ghost use Rattle.std.specs.Prelude.{◌≡◌};
    ghost use Rattle.plain_evaluator.specs.declared.evaluation.EvalStop.TheVariants.{Memory};

    ghost from_gives = { λ _ e. e ≡ Memory };

    fn from(_error: AllocFailed<T>) -> EvalStop {
        EvalStop::Memory
    }
}

/// What it is for an evaluation that a node gets no table.
fn stopped(node: u32, stop: NoTable) -> EvalStop
    ensures { result ≡ stop_at node stop }
{
    match stop {
        NoTable::Memory => EvalStop::Memory,
        NoTable::Fault(kind) => EvalStop::Node { node, kind },
    }
}

/// The table of a node, which is its own where it is a source.
fn table_of(
    alloc: Global,
    op: &Op,
    sources: &[PlainTable],
    place: usize,
    tables: &[PlainTable],
) -> Result<PlainTable, NoTable>
    requires { IsNodeReady op.now sources.now place tables.now }
    ensures { Gives result (outcome_of op.now (table_in sources.now place) (map Table tables.now)) }
{
    match op {
        Op::Source => Ok(table_copied(alloc, &sources[place])?),
        _ => operated(alloc, op, tables),
    }
}

/// The tables of a plan's nodes over its sources. The plan is lawful, and the sources are its own, as `Plan::lawful`
/// and `Plan::fits` test.
pub fn evaluate(
    alloc: Global,
    plan: &Plan,
    sources: &Items<PlainTable>,
) -> Result<Evaluated, EvalStop>
    requires lawful { is_lawful plan.now ≡ true }
    requires fit { fit_sources plan.now sources.now ≡ true }
    ensures ok { IfOk result (λ evaluated. eval plan.now sources.now ≡ map Table evaluated.tables) }
    ensures err { IfErr result (IsCause (eval plan.now sources.now)) }
{
    let own = sources.as_slice();
    let mut tables = Vec::new(alloc);
    let mut next_source = 0usize;
    for node in plan.nodes.as_slice() {
        match table_of(alloc, &node.op, own, next_source, tables.as_slice()) {
            Ok(table) => tables.push(table)?,
            Err(stop) => return Err(stopped(tables.len() as u32, stop)),
        }
        if is_source(node) {
            next_source += 1;
        }
    }
    Ok(Evaluated {
        tables: Items::of(tables),
    })
}
