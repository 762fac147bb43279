//! The plan of a made run.

ghost use Rattle.std.specs.Prelude.{◌≡◌, [], ◌∷◌, ◌++◌, codes, map, IfOk};
ghost use Rattle.script_reader.specs.Plain.{plain_node, plain_plan};
ghost use Rattle.made_run.specs.Plan as script;

use std::alloc::{AllocError, Global};
use tick_model::items::Items;
use tick_model::name::Name;
use tick_model::plan::{
    Agg, Choice, ColumnSpec, Comparison, Expr, Kind, Node, OnPair, Op, Plan, Pred, Published,
    SortBy,
};

/// A name of its own memory.
pub fn named(alloc: Global, text: &str) -> Result<Name, AllocError>
    ensures { IfOk result (λ name. name ≡ text.now) }
{
    Ok(Name::of(String::from_str(alloc, text)?))
}

fn column(alloc: Global, name: &str, kind: Kind) -> Result<ColumnSpec, AllocError>
    ensures { IfOk result (λ column. column ≡ script.column name.now kind) }
{
    Ok(ColumnSpec {
        name: named(alloc, name)?,
        kind,
    })
}

fn trades_columns(alloc: Global) -> Result<Items<ColumnSpec>, AllocError>
    ensures { IfOk result (λ columns. columns ≡ script.trades_columns) }
{
    let mut columns = Items::new(alloc);
    columns.push(column(alloc, "sym", Kind::Text)?)?;
    columns.push(column(alloc, "side", Kind::Long)?)?;
    columns.push(column(alloc, "qty", Kind::Long)?)?;
    columns.push(column(alloc, "px", Kind::Long)?)?;
    Ok(columns)
}

fn ref_columns(alloc: Global) -> Result<Items<ColumnSpec>, AllocError>
    ensures { IfOk result (λ columns. columns ≡ script.ref_columns) }
{
    let mut columns = Items::new(alloc);
    columns.push(column(alloc, "id", Kind::Text)?)?;
    columns.push(column(alloc, "sector", Kind::Text)?)?;
    columns.push(column(alloc, "lot", Kind::Long)?)?;
    Ok(columns)
}

fn val_columns(alloc: Global) -> Result<Items<ColumnSpec>, AllocError>
    ensures { IfOk result (λ columns. columns ≡ script.val_columns) }
{
    let mut columns = trades_columns(alloc)?;
    columns.push(column(alloc, "notional", Kind::Long)?)?;
    Ok(columns)
}

fn j_columns(alloc: Global) -> Result<Items<ColumnSpec>, AllocError>
    ensures { IfOk result (λ columns. columns ≡ script.j_columns) }
{
    let mut columns = val_columns(alloc)?;
    columns.push(column(alloc, "sector", Kind::Text)?)?;
    Ok(columns)
}

fn bysec_columns(alloc: Global) -> Result<Items<ColumnSpec>, AllocError>
    ensures { IfOk result (λ columns. columns ≡ script.bysec_columns) }
{
    let mut columns = Items::new(alloc);
    columns.push(column(alloc, "sector", Kind::Text)?)?;
    columns.push(column(alloc, "n", Kind::Long)?)?;
    columns.push(column(alloc, "total", Kind::Long)?)?;
    columns.push(column(alloc, "top", Kind::Long)?)?;
    Ok(columns)
}

fn node(alloc: Global, name: &str, columns: Items<ColumnSpec>, op: Op) -> Result<Node, AllocError>
    ensures { IfOk result (λ node. node ≡ script.node name.now columns op) }
{
    Ok(Node {
        name: named(alloc, name)?,
        columns,
        op,
    })
}

/// The rows of `trades` that have a quantity of at least 50.
fn big(alloc: Global) -> Result<Node, AllocError>
    ensures { IfOk result (λ node. node ≡ script.big) }
{
    let test = Pred::Compare(Comparison::Ge, Expr::Cell(2), Expr::Number(50));
    node(
        alloc,
        "big",
        trades_columns(alloc)?,
        Op::Keep { input: 0, test },
    )
}

/// Each of them with its price times its quantity.
fn val(alloc: Global) -> Result<Node, AllocError>
    ensures { IfOk result (λ node. plain_node node ≡ script.val) }
{
    let quantity = Box::new(alloc, Expr::Cell(2))?;
    let price = Box::new(alloc, Expr::Cell(3))?;
    let exprs = Items::of(vec![in alloc; Expr::Mul(quantity, price)]?);
    node(
        alloc,
        "val",
        val_columns(alloc)?,
        Op::View { input: 2, exprs },
    )
}

/// The same with the sector of their symbol.
fn j(alloc: Global) -> Result<Node, AllocError>
    ensures { IfOk result (λ node. node ≡ script.j) }
{
    let op = Op::Join {
        left: 3,
        right: 1,
        on: Items::of(vec![in alloc; OnPair { left: 0, right: 0 }]?),
        take: Items::of(vec![in alloc; 1]?),
        choice: Choice::Error,
    };
    node(alloc, "j", j_columns(alloc)?, op)
}

/// What the trades of each sector come to.
fn bysec(alloc: Global) -> Result<Node, AllocError>
    ensures { IfOk result (λ node. node ≡ script.bysec) }
{
    let op = Op::Agg {
        input: 4,
        by: Items::of(vec![in alloc; 5]?),
        aggs: Items::of(vec![in alloc; Agg::Count, Agg::Sum(4), Agg::Max(3)]?),
    };
    node(alloc, "bysec", bysec_columns(alloc)?, op)
}

/// The trades in order, the greatest first.
fn srt(alloc: Global) -> Result<Node, AllocError>
    ensures { IfOk result (λ node. node ≡ script.srt) }
{
    let by = SortBy {
        column: 4,
        descending: true,
    };
    let op = Op::Sort {
        input: 4,
        by: Items::of(vec![in alloc; by]?),
    };
    node(alloc, "srt", j_columns(alloc)?, op)
}

/// The greatest trades.
fn top10(alloc: Global) -> Result<Node, AllocError>
    ensures { IfOk result (λ node. node ≡ script.top10) }
{
    node(
        alloc,
        "top10",
        j_columns(alloc)?,
        Op::Head { input: 6, rows: 10 },
    )
}

/// All trades, and behind them those that are big.
fn both(alloc: Global) -> Result<Node, AllocError>
    ensures { IfOk result (λ node. node ≡ script.both) }
{
    let op = Op::Merge {
        inputs: Items::of(vec![in alloc; 0, 2]?),
    };
    node(alloc, "both", trades_columns(alloc)?, op)
}

fn nodes(alloc: Global) -> Result<Items<Node>, AllocError>
    ensures { IfOk result (λ nodes. map plain_node nodes ≡ script.nodes) }
{
    let mut nodes = Items::new(alloc);
    nodes.push(node(alloc, "trades", trades_columns(alloc)?, Op::Source)?)?;
    nodes.push(node(alloc, "ref", ref_columns(alloc)?, Op::Source)?)?;
    nodes.push(big(alloc)?)?;
    nodes.push(val(alloc)?)?;
    nodes.push(j(alloc)?)?;
    nodes.push(bysec(alloc)?)?;
    nodes.push(srt(alloc)?)?;
    nodes.push(top10(alloc)?)?;
    nodes.push(both(alloc)?)?;
    Ok(nodes)
}

/// The plan.
pub fn plan(alloc: Global) -> Result<Plan, AllocError>
    ensures { IfOk result (λ plan. plain_plan plan ≡ script.plan) }
{
    let bysec = Published {
        node: 5,
        width: 4,
        limit: 64,
    };
    let top10 = Published {
        node: 7,
        width: 6,
        limit: 10,
    };
    Ok(Plan {
        nodes: nodes(alloc)?,
        printed: Items::of(vec![in alloc; 5, 7]?),
        published: Items::of(vec![in alloc; bysec, top10]?),
    })
}
