//! The nodes that are printed.
ghost use Rattle.std.specs.List.{AllByRecursion};
ghost use Rattle.std.specs.Prelude.{◌≡◌, ◌<◌, IfOk, length, map};
ghost use Rattle.replay.specs.Printed.{printed_of, published_of};

use std::alloc::{AllocError, Global};
use tick_model::feed::Run;
use tick_model::items::Items;
use tick_model::name::Name;
use tick_model::plan::ColumnSpec;
use update_text::Shown;

/// A node that is printed: its number, and its name and its columns.
#[derive(Drop)]
pub struct PrintedNode {
    pub node: u32,
    pub shown: Shown,
}

/// A name with the same text.
fn name_copied(alloc: Global, name: &Name) -> Result<Name, AllocError>
    ensures { IfOk result (λ copy. copy ≡ name.now) }
{
    Ok(Name::of(String::from_str(alloc, name.as_str())?))
}

/// Columns of the same names and kinds.
fn columns_copied(alloc: Global, columns: &[ColumnSpec]) -> Result<Items<ColumnSpec>, AllocError>
    ensures { IfOk result (λ copies. copies ≡ columns.now) }
{
    let mut copies = Items::new(alloc);
    for column in columns {
        copies.push(ColumnSpec {
            name: name_copied(alloc, &column.name)?,
            kind: column.kind,
        })?;
    }
    Ok(copies)
}

/// A node as it is printed.
pub fn printed_node(alloc: Global, run: &Run, number: u32) -> Result<PrintedNode, AllocError>
    requires { number < length run.now.plan.nodes }
    ensures { IfOk result (λ printed. printed ≡ printed_of run.now number) }
{
    let node = &run.plan.nodes.as_slice()[number as usize];
    Ok(PrintedNode {
        node: number,
        shown: Shown {
            name: name_copied(alloc, &node.name)?,
            columns: columns_copied(alloc, node.columns.as_slice())?,
        },
    })
}

/// The printed nodes of a run, in their order.
pub(crate) fn printed_nodes(alloc: Global, run: &Run) -> Result<Items<PrintedNode>, AllocError>
    requires { AllByRecursion (λ node. node < length run.now.plan.nodes) run.now.plan.printed }
    ensures { IfOk result (λ printed. printed ≡ map (printed_of run.now) run.now.plan.printed) }
{
    let mut printed = Items::new(alloc);
    for number in run.plan.printed.as_slice() {
        printed.push(printed_node(alloc, run, *number)?)?;
    }
    Ok(printed)
}

/// The published tables of a run, in their order, as they are printed.
pub(crate) fn published_nodes(alloc: Global, run: &Run) -> Result<Items<PrintedNode>, AllocError>
    requires { AllByRecursion (λ table. table.node < length run.now.plan.nodes) run.now.plan.published }
    ensures { IfOk result (λ published. published ≡ map (published_of run.now) run.now.plan.published) }
{
    let mut published = Items::new(alloc);
    for table in run.plan.published.as_slice() {
        published.push(printed_node(alloc, run, table.node)?)?;
    }
    Ok(published)
}
