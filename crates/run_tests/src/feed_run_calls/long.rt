//! Runs over longer files: a day of trades, a step of many ranges, and a table that is merged with itself too often.

use super::{Failing, WORKERS, compare};
use std::alloc::{AllocError, Global};
use std::test::Fail;

/// Trades with their sectors: totals by sector, and the two greatest trades.
const DAY: &str =
    "table trades sym:text qty:long px:long from \"trades.csv\"\ntable ref id:text sector:text from \"ref.csv\"\nbig = where trades qty >= 51\nval = view big val = qty * px\nj = join val ref on sym = id take sector\nbysec = agg j by sector do n = count, total = sum val\nsrt = sort j -val\ntop = head 2 srt\nprint bysec\nprint top\n";

/// The sectors.
const REFERENCES: &str =
    "id,sector\nS0,even\nS1,odd\nS2,even\nS3,odd\nS4,even\nS5,odd\nS6,even\nS7,odd\n";

/// 2,000 trades.
fn trades_file(alloc: Global) -> Result<String, AllocError> {
    let mut text = String::from_str(alloc, "sym,qty,px\n")?;
    for row in 0..2000_u64 {
        let digit = row % 8;
        let quantity = row % 100 + 1;
        text.push_str(&format!(in alloc; "S{digit},{quantity},10\n")?)?;
    }
    Ok(text)
}

/// 50 steps, in each of which the oldest trade goes and one comes.
fn day_feed(alloc: Global) -> Result<String, AllocError> {
    let mut text = String::new(alloc);
    for gone in 0..50_u64 {
        let come = gone + 2000;
        text.push_str(&format!(in alloc; "t,trades\nr,{gone},{gone}\na,{come},S0,100,10\n.\n")?)?;
    }
    Ok(text)
}

/// What the day prints.
fn day_text(alloc: Global) -> Result<String, AllocError> {
    let mut text = String::from_str(
        alloc,
        "step,0,bysec\na,50,even,500,375000\na,51,odd,500,380000\nstep,0,top\na,0,S3,100,10,1000,odd\na,1,S7,100,10,1000,odd\n",
    )?;
    for before in 0..50_u64 {
        let step = before + 1;
        let count = step + 500;
        let total = step * 1000 + 375000;
        text.push_str(&format!(in alloc;
            "step,{step},bysec\nc,n,total\nm,50,even,{count},{total}\n"
        )?)?;
    }
    text.push_str("done,50\n")?;
    Ok(text)
}

#[test]
fn a_day_is_run(rt: HostRuntime) -> Result<(), Fail> {
    let alloc = rt.alloc();
    let trades = trades_file(alloc)?;
    let feed = day_feed(alloc)?;
    let text = day_text(alloc)?;
    let texts = [
        ("s", Some(DAY)),
        ("f", Some(feed.as_str())),
        ("trades.csv", Some(trades.as_str())),
        ("ref.csv", Some(REFERENCES)),
    ];
    for words in WORKERS {
        compare(&rt, alloc, words, &texts, Failing::NONE, 0, &text)?;
    }
    Ok(())
}

/// All rows of a table, and totals of them.
const TOTALS: &str =
    "table t x:long from \"t.csv\"\ng = agg t do n = count, s = sum x, a = first x, z = last x\nbig = where t x >= 0\nprint g\nprint big\n";

/// A thousand rows, each of its number.
pub(super) fn rows_file(alloc: Global) -> Result<String, AllocError> {
    let mut text = String::from_str(alloc, "x\n")?;
    for row in 0..1000_u64 {
        text.push_str(&format!(in alloc; "{row}\n")?)?;
    }
    Ok(text)
}

/// Of each twenty rows the first ten go, and the next five move down.
fn ranges(alloc: Global) -> Result<String, AllocError> {
    let mut text = String::new(alloc);
    for place in 0..50_u64 {
        let first = place * 20;
        let last = first + 9;
        text.push_str(&format!(in alloc; "r,{first},{last}\n")?)?;
    }
    for place in 0..50_u64 {
        let first = place * 20 + 10;
        let last = first + 4;
        text.push_str(&format!(in alloc; "s,{first},{last},-3\n")?)?;
    }
    Ok(text)
}

/// What is printed as the table opens, and of the step with these ranges.
fn ranges_text(alloc: Global, ranges: &str) -> Result<String, AllocError> {
    let mut text = String::from_str(alloc, "step,0,g\na,0,1000,499500,0,999\nstep,0,big\n")?;
    for row in 0..1000_u64 {
        text.push_str(&format!(in alloc; "a,{row},{row}\n")?)?;
    }
    text.push_str("step,1,g\nr,0,0\na,7,500,252250,10,999\nstep,1,big\n")?;
    text.push_str(ranges)?;
    text.push_str("done,1\n")?;
    Ok(text)
}

#[test]
fn a_step_has_many_ranges(rt: HostRuntime) -> Result<(), Fail> {
    let alloc = rt.alloc();
    let table = rows_file(alloc)?;
    let ranges = ranges(alloc)?;
    let feed = format!(in alloc; "t,t\n{ranges}.\n")?;
    let text = ranges_text(alloc, &ranges)?;
    let texts = [
        ("s", Some(TOTALS)),
        ("f", Some(feed.as_str())),
        ("t.csv", Some(table.as_str())),
    ];
    compare(&rt, alloc, "run s f", &texts, Failing::NONE, 0, &text)
}

/// A table and sixteen times its rows.
const WIDE: &str = "table t x:long from \"t.csv\"\nm = merge t t t t t t t t t t t t t t t t\n";

/// One row more than a sixteenth of what a table may have.
fn long_file(alloc: Global) -> Result<String, AllocError> {
    let mut text = String::from_str(alloc, "x\n")?;
    for _ in 0..262145_u64 {
        text.push_str("1\n")?;
    }
    Ok(text)
}

#[test]
fn too_many_rows_fail_their_node(rt: HostRuntime) -> Result<(), Fail> {
    let table = long_file(rt.alloc())?;
    let texts = [
        ("s", Some(WIDE)),
        ("f", Some("")),
        ("t.csv", Some(table.as_str())),
    ];
    compare(
        &rt,
        rt.alloc(),
        "run s f",
        &texts,
        Failing::NONE,
        8,
        "fault,8,node,0,m,too-many-rows,4194320\n",
    )
}
