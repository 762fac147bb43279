//! A run, brought on step by step: what each step changes of a table, and a screen that follows its first rows by their changes alone.

ghost use Rattle.std.specs.Prelude.{◌≡◌, ◌+◌, ◌<◌, ◌≤◌, ◌∷◌, [], IfOk, IfSome, length};
ghost use Rattle.tick_model.specs.Evaluation.{table_at};
ghost use Rattle.tick_model.specs.LawfulRuns.{IsLawfulRun};
ghost use Rattle.tick_model.specs.States.{state};

use crate::fault::Fault;
use crate::rows::print_rows;
use new_counts::new_count;
use std::alloc::{AllocError, Global};
use std::io::Print;
use std::marker::Brand;
use std::sync::ledger::{Blank, Ledger};
use std::thread::Threads;
use tick_io::OpenGate;
use tick_model::feed::Run;
use tick_model::items::Items;
use tick_model::plan::Plan;
use tick_table::Steps;
use update_graph::Graph;
use viewport::{Mirror, Slice, Viewport};

/// The number of the node of a name. A plan has at most 256 nodes.
pub(crate) fn node_named(plan: &Plan, name: &str) -> Option<u32>
    ensures { IfSome result (λ node. node < length plan.now.nodes) }
{
    for (number, node) in plan.nodes.as_slice().iter().enumerate() {
        if number < 256 && node.name.as_str() == name {
            return Some(number as u32);
        }
    }
    None
}

/// A graph, and a screen of one of its tables: the viewport that tells the changes of its first rows, and the mirror that they make.
#[derive(Drop)]
struct Stepping {
    graph: Graph,
    viewport: Viewport,
    mirror: Mirror,
}

/// The first two rows, with their first two columns.
fn first_rows(alloc: Global) -> Result<Slice, AllocError>
    ensures { IfOk result (λ slice. slice ≡ record { first = 0; count = 2; columns = 0 ∷ 1 ∷ [] }) }
{
    Ok(Slice {
        first: 0,
        count: 2,
        columns: Items::of(vec![in alloc; 0, 1]?),
    })
}

/// The graph of a run at its opening, with the screen of a table that has two columns or more. The blank is that of a count of
/// the cells that are read.
fn opened<L: Ledger>(alloc: Global, run: &Run, node: u32, blank: Blank) -> Result<Stepping, Fault>
    requires name { blank.name ≡ L.name }
    requires parts { blank.parts ≡ L.parts }
    requires some { 0 < blank.parts }
    requires lawful { IsLawfulRun run.now }
    requires node { node < length run.now.plan.nodes }
    ensures run { IfOk result (λ opened. opened.graph.run ≡ run.now) }
    ensures step { IfOk result (λ opened. opened.graph.step ≡ 0) }
    ensures seen { IfOk result (λ opened. opened.viewport.table ≡ table_at (state run.now opened.graph.step) node) }
{
    let graph = Graph::start(alloc, run)?;
    let _step = graph.step();
    let table = graph.table(node);
    if table.width() < 2 {
        return Err(Fault::NoTable);
    }
    let slice = first_rows(alloc)?;
    let mut reads = Steps::<L>::new(blank, new_count());
    let (viewport, message) = Viewport::start(alloc, slice, table, &mut reads)?;
    let mirror = Mirror::new(alloc, 2)?.apply(message)?;
    Ok(Stepping {
        graph,
        viewport,
        mirror,
    })
}

/// The graph after the next step. The viewport takes the step in, and the mirror takes its message.
fn advanced<R: Threads + Sync, L: Ledger>(
    rt: &R,
    alloc: Global,
    run: &Run,
    node: u32,
    stepping: Stepping,
    blank: Blank,
) -> Result<Stepping, Fault>
    requires name { blank.name ≡ L.name }
    requires parts { blank.parts ≡ L.parts }
    requires some { 0 < blank.parts }
    requires lawful { IsLawfulRun run.now }
    requires node { node < length run.now.plan.nodes }
    requires run { stepping.graph.run ≡ run.now }
    requires next { stepping.graph.step < length run.now.batches }
    requires seen { stepping.viewport.table ≡ table_at (state run.now stepping.graph.step) node }
    ensures run { IfOk result (λ next. next.graph.run ≡ run.now) }
    ensures step { IfOk result (λ next. next.graph.step ≡ stepping.graph.step + 1) }
    ensures seen { IfOk result (λ next. next.viewport.table ≡ table_at (state run.now next.graph.step) node) }
{
    let Stepping {
        graph,
        viewport,
        mirror,
    } = stepping;
    let graph = graph.cycle(rt, alloc, run, 1, &OpenGate)?;
    let _step = graph.step();
    let table = graph.table(node);
    let passed = viewport.pass(table)?;
    let mut reads = Steps::<L>::new(blank, new_count());
    let (viewport, message) = passed.message(table, &mut reads)?;
    let mirror = mirror.apply(message)?;
    Ok(Stepping {
        graph,
        viewport,
        mirror,
    })
}

/// Prints what the last step changed of the table, and the rows of the screen.
fn print_step<R: Print>(rt: &R, alloc: Global, node: u32, stepping: &Stepping) -> Result<(), Fault>
    requires { node < length stepping.now.graph.run.plan.nodes }
{
    let step = stepping.graph.step();
    let table = stepping.graph.table(node);
    let update = table.update();
    let removed = update.removed().len();
    println!(rt; "step {step}: {removed} rows removed")?;
    print_rows(rt, alloc, "added", table, update.added())?;
    print_rows(rt, alloc, "modified", table, update.modified())?;
    let screen = stepping.mirror.table();
    print_rows(rt, alloc, "on the screen", screen, screen.rows())
}

/// Brings a run to its end, and prints each step.
pub(crate) fn print_steps<R: Print + Threads + Sync>(
    rt: &R,
    alloc: Global,
    run: &Run,
    node: u32,
) -> Result<(), Fault>
    requires lawful { IsLawfulRun run.now }
    requires node { node < length run.now.plan.nodes }
{
    let opening = opened::<Brand>(alloc, run, node, Blank::new(1))?;
    let mut stepping = opening;
    for _step in 0..run.batches.len() {
        let blank = Blank::new(1);
        stepping = advanced::<R, Brand>(rt, alloc, run, node, stepping, blank)?;
        print_step(rt, alloc, node, &stepping)?;
    }
    Ok(())
}
