//! A step that is begun and abandoned, and one that is published: what callers take before it, within it and after it.

ghost use Rattle.std.specs.Prelude.{◌≡◌, ◌*◌, ◌^◌, ◌<◌, [], ◌∷◌, All, IfOk, IfSome, None, length, pos};
ghost use Rattle.tick_model.specs.Changes.{changed, told_keys};
ghost use Rattle.tick_model.specs.Rules.{update_fault};
ghost use Rattle.tick_model.specs.Tables.{keys};
ghost use Rattle.snapshot_store.specs.Example.{example, example_batch, example_columns, example_plan, example_row, example_table, add_row, adds, first_rows, second_rows};
ghost use Rattle.snapshot_store.specs.Lines.{count};
ghost use Rattle.snapshot_store.specs.Models.{IsNewCaller, IsOf};

use row_set::RowSet;
use shift_data::ShiftData;
use snapshot_store::{Attempt, Caller, Layout, Phase, Store, Writer};
use std::alloc::{AllocError, Global};
use std::sync::{Arc, Wait};
use std::test::Fail;
use table_update::{ColumnSet, Update};
use tick_model::feed::{Batch, Block, Run};
use tick_model::items::Items;
use tick_model::name::Name;
use tick_model::plan::{ColumnSpec, Comparison, Expr, Kind, Node, Op, Plan, Pred, Published};
use tick_model::row_list::{OpeningTable, RowList};
use tick_table::{Change, TickTable};

/// The list of one member.
fn one<T: Drop>(alloc: Global, item: T) -> Result<Items<T>, AllocError>
    ensures { IfOk result (λ items. items ≡ item ∷ []) }
{
    let mut items = Items::new(alloc);
    items.push(item)?;
    Ok(items)
}

/// A node of one long column.
fn node(alloc: Global, name: &str, op: Op) -> Result<Node, AllocError>
    ensures { IfOk result (λ node. node ≡ record { name = name.now; columns = example_columns; op = op }) }
{
    let column = ColumnSpec {
        name: Name::of(String::from_str(alloc, "x")?),
        kind: Kind::Long,
    };
    Ok(Node {
        name: Name::of(String::from_str(alloc, name)?),
        columns: one(alloc, column)?,
        op,
    })
}

/// A source, and its rows above 5, of which at most two are published.
fn plan(alloc: Global) -> Result<Plan, AllocError>
    ensures { IfOk result (λ plan. plan ≡ example_plan) }
{
    let above = Op::Keep {
        input: 0,
        test: Pred::Compare(Comparison::Gt, Expr::Cell(0), Expr::Number(5)),
    };
    let published = Published {
        node: 1,
        width: 1,
        limit: 2,
    };
    let mut nodes = one(alloc, node(alloc, "t", Op::Source)?)?;
    nodes.push(node(alloc, "b", above)?)?;
    Ok(Plan {
        nodes,
        printed: Items::new(alloc),
        published: one(alloc, published)?,
    })
}

/// The rows with which the source begins.
fn opening(alloc: Global) -> Result<OpeningTable, AllocError>
    ensures { IfOk result (λ table. table ≡ example_table (example_row 0 (pos 0) ∷ example_row 1 (pos 0) ∷ example_row 2 (pos 0) ∷ example_row 3 (pos 7) ∷ [])) }
{
    let mut rows = RowList::new(alloc);
    rows.push(0, &[0])?;
    rows.push(1, &[0])?;
    rows.push(2, &[0])?;
    rows.push(3, &[7])?;
    Ok(OpeningTable::of(1, rows))
}

/// A step that adds a row.
fn batch(alloc: Global, number: u64, key: u64, cell: i64) -> Result<Batch, AllocError>
    ensures { IfOk result (λ batch. batch ≡ example_batch number (example_row key cell)) }
{
    let mut added = RowList::new(alloc);
    added.push(key, &[cell])?;
    let block = Block {
        table: 0,
        number,
        removed: Items::new(alloc),
        shifts: Items::new(alloc),
        added,
        modified: RowList::new(alloc),
    };
    Ok(Batch {
        blocks: one(alloc, block)?,
    })
}

fn batches(alloc: Global) -> Result<Items<Batch>, AllocError>
    ensures { IfOk result (λ batches. batches ≡ example_batch 1 (example_row 4 (pos 8)) ∷ example_batch 4 (example_row 5 (pos 9)) ∷ []) }
{
    let mut batches = one(alloc, batch(alloc, 1, 4, 8)?)?;
    batches.push(batch(alloc, 4, 5, 9)?)?;
    Ok(batches)
}

/// The run of the examples.
fn run(alloc: Global) -> Result<Run, AllocError>
    ensures { IfOk result (λ run. run ≡ example) }
{
    Ok(Run {
        plan: plan(alloc)?,
        opening: one(alloc, opening(alloc)?)?,
        batches: batches(alloc)?,
        texts: Items::new(alloc),
    })
}

/// The update that adds a row.
fn adding(alloc: Global, key: u64) -> Result<Update, AllocError>
    requires { key < 2 ^ 62 }
    ensures { IfOk result (λ update. update ≡ adds key) }
{
    let mut added = RowSet::new(alloc);
    added.insert_range(key, key)?;
    Ok(Update {
        removed: RowSet::new(alloc),
        added,
        modified: RowSet::new(alloc),
        shifted: ShiftData::new(alloc),
        columns: ColumnSet::none(),
    })
}

/// The change that adds a row.
fn change(alloc: Global, key: u64, cell: i64) -> Result<Change, AllocError>
    requires { key < 2 ^ 62 }
    ensures { IfOk result (λ change. change ≡ add_row key cell) }
{
    Ok(Change {
        update: adding(alloc, key)?,
        cells: one(alloc, cell)?,
    })
}

/// The table with one row more.
fn with_row(alloc: Global, table: TickTable, key: u64, cell: i64) -> Result<TickTable, AllocError>
    requires small { key < 2 ^ 62 }
    requires lawful { update_fault (2 ^ 62) (keys table.new.rows) (add_row key cell).update ≡ None }
    requires whole { length (add_row key cell).cells ≡ length (told_keys (add_row key cell).update) * table.new.width }
    ensures { IfOk result (λ after. after.new ≡ changed table.new (add_row key cell)) }
{
    let change = change(alloc, key, cell)?;
    let after = table.apply(change)?;
    Ok(after)
}

/// What is published after the opening.
fn first_table(alloc: Global) -> Result<TickTable, AllocError>
    ensures { IfOk result (λ table. table.new ≡ example_table first_rows) }
{
    let table = TickTable::new(alloc, 1)?;
    with_row(alloc, table, 3, 7)
}

/// What is published after the first step.
fn second_table(alloc: Global) -> Result<TickTable, AllocError>
    ensures { IfOk result (λ table. table.new ≡ example_table second_rows) }
{
    let table = first_table(alloc)?;
    with_row(alloc, table, 4, 8)
}

/// The store of the run.
fn start(
    alloc: Global,
    run: &Run,
    callers: u32,
) -> Result<(Store, Writer, Items<Caller>), AllocError>
    requires { run.now ≡ example }
    ensures store { IfOk result (λ r. r.0.run ≡ example) }
    ensures writer { IfOk result (λ r. IsOf r.0 r.1.table r.1.run × (r.1.step ≡ 0) × (r.1.phase ≡ Phase.Idle)) }
    ensures callers { IfOk result (λ r. (length r.2 ≡ callers) × All (IsNewCaller r.0) r.2) }
{
    let layout = Layout::of(alloc, &run.plan.published)?;
    let table = Arc::new(alloc, first_table(alloc)?)?;
    let mut tables = Vec::with_capacity(alloc, 1)?;
    tables.push_reserved(table);
    Store::start(alloc, run, layout, tables.as_slice(), callers)
}

/// Whether an attempt takes this step and these words.
fn takes(store: &Store, caller: &mut Caller, step: u64, words: &[u64]) -> bool
    requires own { IsOf store.now caller.old.table caller.old.run }
    requires one { count store.now.run ≡ 1 }
    ensures own { IsOf store.now caller.new.table caller.new.run }
{
    let taken = store.attempt(caller, 0) == Attempt::Taken { step };
    taken && caller.words() == words
}

/// What the caller has seen, once it was told what the writer has completed.
fn told(store: &Store, writer: &mut Writer, caller: &mut Caller) -> u64
    requires writer { IsOf store.now writer.old.table writer.old.run }
    requires caller { IsOf store.now caller.old.table caller.old.run }
    ensures writer { writer.new ≡ writer.old }
    ensures caller { IsOf store.now caller.new.table caller.new.run }
{
    let note = store.note(writer);
    store.learn(caller, note);
    caller.latest()
}

/// The last of the callers.
fn last(store: &Store, callers: Items<Caller>) -> Option<Caller>
    requires { All (IsNewCaller store.now) callers }
    ensures { IfSome result (λ caller. IsOf store.now caller.table caller.run) }
{
    let _ = store;
    let mut callers = callers.into_vec();
    callers.pop()
}

/// Whether an attempt before a step that is abandoned, one within it and one after it take the opening, whether the turn is
/// refused to the caller within it, and what the caller has seen in the end.
fn abandoned_step<R: Wait>(
    rt: &R,
    store: &Store,
    writer: &mut Writer,
    caller: &mut Caller,
) -> ([bool; 4], u64)
    requires writer { IsOf store.now writer.old.table writer.old.run }
    requires caller { IsOf store.now caller.old.table caller.old.run }
    requires one { count store.now.run ≡ 1 }
    requires idle { (writer.old.phase ≡ Phase.Idle) × (writer.old.step ≡ 0) }
{
    let before = takes(store, caller, 0, &[1, 3, 7]);
    store.begin(rt, writer);
    let within = takes(store, caller, 0, &[1, 3, 7]);
    let refused = store.try_snapshot(caller, 0, 0).is_none();
    store.abandon(writer);
    let latest = told(store, writer, caller);
    let after = takes(store, caller, 0, &[1, 3, 7]);
    ([before, within, refused, after], latest)
}

fn abandoned<R: Wait>(rt: &R, alloc: Global) -> Result<Option<([bool; 4], u64)>, AllocError> {
    let run = run(alloc)?;
    let (store, mut writer, callers) = start(alloc, &run, 1)?;
    let Some(mut caller) = last(&store, callers) else {
        return Ok(None);
    };
    Ok(Some(abandoned_step(rt, &store, &mut writer, &mut caller)))
}

#[test]
fn an_abandoned_step_changes_nothing(rt: HostRuntime) -> Result<(), Fail> {
    assert!(rt; abandoned(&rt, rt.alloc())? == Some(([true, true, true, true], 0)));
    Ok(())
}

/// Whether an attempt takes the opening, and one after the first step that step, of which the caller was not told.
fn published_step<R: Wait>(
    rt: &R,
    store: &Store,
    writer: &mut Writer,
    caller: &mut Caller,
    table: &TickTable,
) -> bool
    requires writer { IsOf store.now writer.old.table writer.old.run }
    requires caller { IsOf store.now caller.old.table caller.old.run }
    requires run { store.now.run ≡ example }
    requires idle { (writer.old.phase ≡ Phase.Idle) × (writer.old.step ≡ 0) }
    requires table { table.now.new ≡ example_table second_rows }
{
    let before = takes(store, caller, 0, &[1, 3, 7]);
    store.begin(rt, writer);
    match store.put(writer, 0, table) {
        Ok(()) => store.finish(writer),
        Err(_) => return false,
    }
    before && takes(store, caller, 1, &[2, 3, 7, 4, 8])
}

fn published<R: Wait>(rt: &R, alloc: Global) -> Result<Option<bool>, AllocError> {
    let run = run(alloc)?;
    let (store, mut writer, callers) = start(alloc, &run, 1)?;
    let Some(mut caller) = last(&store, callers) else {
        return Ok(None);
    };
    let table = second_table(alloc)?;
    Ok(Some(published_step(rt, &store, &mut writer, &mut caller, &table)))
}

#[test]
fn an_attempt_takes_a_step_of_which_its_caller_was_not_told(rt: HostRuntime) -> Result<(), Fail> {
    assert!(rt; published(&rt, rt.alloc())? == Some(true));
    Ok(())
}
