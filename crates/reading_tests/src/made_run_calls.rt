//! Made runs against numbers that were computed apart from them, and their plan against its script.

use made_run::draws::Draws;
use made_run::plan::plan;
use made_run::run::made_run;
use script_reader::reader::read_script;
use std::alloc::{AllocError, Global};
use std::test::Fail;
use tick_model::feed::{Block, Run};
use tick_model::row_list::RowList;

const SCRIPT: &str = "table trades sym:text side:long qty:long px:long
table ref id:text sector:text lot:long
big = where trades qty >= 50
val = view big notional = qty * px
j = join val ref on sym = id take sector
bysec = agg j by sector do n = count, total = sum notional, top = max px
srt = sort j -notional
top10 = head 10 srt
both = merge trades big
print bysec
print top10
publish bysec 64
publish top10 10
";

/// What each of the first five steps adds first and last, and what it modifies.
const TOLD: [&str; 5] = [
    "0: 6 1 97 871; 19: 1 0 36 926;",
    "20: 1 1 100 979; 39: 5 1 27 528; 16: 1 0 99 591;",
    "40: 1 0 80 114; 59: 2 1 84 370;",
    "60: 3 1 44 982; 79: 7 1 88 245; 5: 2 0 56 467;",
    "70: 5 0 33 296; 89: 3 1 30 430;",
];

/// Puts the row at a place behind a text, where there is one.
fn tell(alloc: Global, text: &mut String, rows: &RowList, place: usize) -> Result<(), AllocError> {
    let Some(key) = rows.keys().get(place) else {
        return Ok(());
    };
    if !text.is_empty() {
        text.push(' ')?;
    }
    text.push_str(format!(in alloc; "{key}:")?.as_str())?;
    for cell in rows.row(place) {
        text.push_str(format!(in alloc; " {cell}")?.as_str())?;
    }
    text.push(';')?;
    Ok(())
}

/// The first block of a step.
fn block_of(run: &Run, step: usize) -> Option<&Block> {
    match run.batches.as_slice().get(step) {
        Some(batch) => batch.blocks.as_slice().first(),
        None => None,
    }
}

fn told(alloc: Global, block: Option<&Block>) -> Result<String, AllocError> {
    let mut text = String::new(alloc);
    if let Some(block) = block {
        let added = &block.added;
        tell(alloc, &mut text, added, 0)?;
        tell(alloc, &mut text, added, added.len().wrapping_sub(1))?;
        tell(alloc, &mut text, &block.modified, 0)?;
    }
    Ok(text)
}

#[test]
fn the_first_numbers(rt: HostRuntime) {
    let mut draws = Draws::new();
    for number in [774u64, 153, 196, 870, 34, 795] {
        assert_eq!(rt; draws.below(1000), number);
    }
}

#[test]
fn the_first_steps(rt: HostRuntime) -> Result<(), Fail> {
    let alloc = rt.alloc();
    let run = made_run(alloc, 5)?;
    assert_eq!(rt; run.batches.len(), 5);
    for (step, text) in TOLD.iter().enumerate() {
        assert_eq!(rt; told(alloc, block_of(&run, step))?.as_str(), *text);
    }
    Ok(())
}

#[test]
fn the_plan_is_that_of_its_script(rt: HostRuntime) -> Result<(), Fail> {
    let alloc = rt.alloc();
    let read = match read_script(alloc, SCRIPT.as_bytes()) {
        Ok(script) => format!(in alloc; "{:?}", script.plan)?,
        Err(_) => String::new(alloc),
    };
    assert_eq!(rt;
        format!(in alloc; "{:?}", plan(alloc)?)?.as_str(),
        read.as_str()
    );
    Ok(())
}
