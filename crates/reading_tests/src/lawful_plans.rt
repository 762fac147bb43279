//! A plan that is lawful, with its tables.

use super::scripts::script_of;
use plain_evaluator::evaluate;
use std::alloc::{AllocError, Global};
use std::test::Fail;
use tick_model::items::Items;
use tick_model::table::{PlainRow, PlainTable};

/// A text `sym` and a number `qty`, and the sum of `qty` for each `sym`.
const GROUPS: &str = "table t sym:text qty:long\ng = agg t by sym do total = sum qty\n";

/// The rows with these cells, under the keys 0, 1 and so on.
fn table(alloc: Global, cells: &[[i64; 2]]) -> Result<PlainTable, AllocError> {
    let mut rows = Items::new(alloc);
    for (key, row) in cells.iter().enumerate() {
        rows.push(PlainRow {
            key: key as u64,
            cells: Items::of(row.to_vec(alloc)?),
        })?;
    }
    Ok(PlainTable { width: 2, rows })
}

#[test]
fn groups_are_evaluated(rt: HostRuntime) -> Result<(), Fail> {
    let plan = script_of(rt.alloc(), GROUPS)?.plan;
    let mut sources = Items::new(rt.alloc());
    sources.push(table(rt.alloc(), &[[0, 1], [1, 2], [0, 3]])?)?;
    assert!(rt; plan.lawful() && plan.fits(&sources));
    let evaluated = evaluate(rt.alloc(), &plan, &sources).ok();
    let evaluated = evaluated.ok_or("no tables")?;
    let groups = evaluated.tables.as_slice().last().ok_or("no node")?;
    let [first, last] = groups.rows.as_slice() else {
        return Err(Fail::from("not two groups"));
    };
    assert!(rt; first.key == 0 && first.cells.as_slice() == [0, 4].as_slice());
    assert!(rt; last.key == 1 && last.cells.as_slice() == [1, 2].as_slice());
    Ok(())
}
