//! The sources, and how tables are changed in place.

ghost use Rattle.std.specs.Prelude.{◌≡◌, ◌*◌, ◌^◌, ◌≤◌, IfOk, None, OnOk, length, map};
ghost use Rattle.std.specs.Arc.{arc_value};
ghost use Rattle.table_operator.specs.Inputs.{news, tables};
ghost use Rattle.source_changes.specs.Openings.{IsOpenedTable};
ghost use Rattle.tick_model.specs.Changes.{change_of, told_keys};
ghost use Rattle.tick_model.specs.LawfulRuns.{IsLawfulRun};
ghost use Rattle.tick_model.specs.Rules.{update_fault};
ghost use Rattle.tick_model.specs.Sources.{opened, source_ticks, unchanged};
ghost use Rattle.tick_model.specs.Tables.{keys};
ghost use Rattle.tick_model.specs.Updates.{IsTick, Tick};
ghost use Rattle.tick_table.specs.Exact.{IsExact, ticking};
ghost use Rattle.tick_table.specs.Ticking.{Ticking};
ghost use Rattle.update_graph.specs.Entered.{IsEntered};
ghost use Rattle.update_graph.specs.Graphs.{sources_shown};

use crate::context::StepContext;
use new_counts::new_copy;
use source_changes::opening_change;
use std::alloc::{AllocError, Global};
use std::sync::Arc;
use table_update::Update;
use tick_model::feed::Run;
use tick_model::items::Items;
use tick_model::row_list::OpeningTable;
use tick_table::{Change, Shared, TickTable};

/// Changes a table where it lies. Where somebody else holds it, a copy is changed in its place.
pub(crate) fn change_table(
    alloc: Global,
    table: &mut Shared,
    change: Change,
) -> Result<(), AllocError>
    requires lawful { update_fault (2 ^ 62) (keys (arc_value {X = Ticking} table.old).new.rows) change.update ≡ None }
    requires whole { length change.cells ≡ length (told_keys change.update) * (arc_value {X = Ticking} table.old).new.width }
    ensures { OnOk result ((tick : Tick) → IsTick tick → (arc_value {X = Ticking} table.old).new ≡ tick.old → change ≡ change_of tick
        → arc_value {X = Ticking} table.new ≡ ticking tick) }
{
    match Arc::get_mut(table) {
        Some(own) => own.bring_on(change),
        None => {
            let mut own = table.copy(new_copy())?;
            own.bring_on(change)?;
            *table = Arc::new(alloc, own)?;
            Ok(())
        }
    }
}

/// A step in which nothing of a table changes.
pub(crate) fn rest_table(alloc: Global, table: &mut Shared) -> Result<(), AllocError>
    requires { IsExact (arc_value {X = Ticking} table.old) }
    ensures { OnOk result (arc_value {X = Ticking} table.new ≡ ticking (unchanged (arc_value {X = Ticking} table.old).new)) }
{
    let change = Change {
        update: Update::none(alloc),
        cells: Items::new(alloc),
    };
    change_table(alloc, table, change)
}

/// The table of a source after the opening.
fn opened_source(alloc: Global, table: &OpeningTable) -> Result<Shared, AllocError>
    requires opened { IsOpenedTable table.now }
    requires tick { IsTick (opened table.now) }
    requires some { 1 ≤ table.now.width }
    requires few { table.now.width ≤ 32 }
    ensures { IfOk result (λ shared. arc_value {X = Ticking} shared ≡ ticking (opened table.now)) }
{
    let mut own = TickTable::new(alloc, table.width())?;
    let change = opening_change(alloc, table)?;
    own.bring_on(change)?;
    Ok(Arc::new(alloc, own)?)
}

/// The tables of the sources at step 0, in order of the nodes.
pub(crate) fn opened_sources(alloc: Global, run: &Run) -> Result<Vec<Shared>, AllocError>
    requires { IsLawfulRun run.now }
    ensures { IfOk result (λ sources. tables sources.items ≡ sources_shown run.now 0) }
{
    let mut sources = Vec::with_capacity(alloc, run.opening.len())?;
    let opening = run.opening.as_slice();
    for table in opening {
        let source = opened_source(alloc, table)?;
        sources.push(source)?;
    }
    Ok(sources)
}

/// References to tables.
pub(crate) fn referred<'a>(
    alloc: Global,
    shared: &'a [Shared],
) -> Result<Vec<&'a TickTable>, AllocError>
    ensures { IfOk result (λ referred. map (λ table. table.now) referred.items ≡ tables shared.now) }
{
    let mut referred = Vec::with_capacity(alloc, shared.len())?;
    for table in shared {
        let own: &TickTable = table;
        referred.push(own)?;
    }
    Ok(referred)
}

/// The tables of the sources after a step, by their changes.
pub(crate) fn changed_sources(
    context: &StepContext<'_>,
    sources: Vec<Shared>,
    changes: Vec<Change>,
) -> Result<Vec<Shared>, AllocError>
    requires entered { IsEntered context.now.run.now context.now.step }
    requires sources { news (tables sources.items) ≡ map (λ tick. tick.old) (source_ticks context.now.run.now context.now.step) }
    requires changes { changes.items ≡ map change_of (source_ticks context.now.run.now context.now.step) }
    ensures { IfOk result (λ changed. tables changed.items ≡ sources_shown context.now.run.now context.now.step) }
{
    let mut changed = Vec::with_capacity(context.alloc, sources.len())?;
    for (source, change) in sources.into_iter().zip(changes.into_iter()) {
        let mut next = source;
        change_table(context.alloc, &mut next, change)?;
        changed.push(next)?;
    }
    Ok(changed)
}
