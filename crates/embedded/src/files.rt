//! The files of the run, in memory. The feed is made in code.

use std::alloc::{AllocError, Global};
use tick_io::MemoryInputs;

const SCRIPT: &str =
    "table trades sym:text qty:long from \"trades.csv\"\ntotals = agg trades by sym do total = sum qty\nprint totals\npublish totals 8\n";

/// The rows under the keys 0 and 1.
const TRADES: &str = "sym,qty\nIBM,5\nXOM,7\n";

/// The first key that is free.
const FIRST_KEY: u64 = 2;

/// A feed of trades. Each is a step.
fn feed_of(alloc: Global, trades: &[(&str, i64)]) -> Result<String, AllocError> {
    let mut feed = String::new(alloc);
    for (number, (sym, qty)) in trades.iter().enumerate() {
        let key = FIRST_KEY + number as u64;
        let step = format!(in alloc; "t,trades\na,{key},{sym},{qty}\n.\n")?;
        feed.push_str(step.as_str())?;
    }
    Ok(feed)
}

/// The files, each with its name.
pub(crate) fn files_in_memory(alloc: Global) -> Result<MemoryInputs, AllocError> {
    let feed = feed_of(alloc, &[("IBM", 20), ("GE", 3)])?;
    let texts = [
        ("script", SCRIPT),
        ("trades.csv", TRADES),
        ("feed", feed.as_str()),
    ];
    let mut files = Vec::new(alloc);
    for (name, text) in texts {
        let bytes = text.as_bytes().to_vec(alloc)?;
        files.push((String::from_str(alloc, name)?, bytes))?;
    }
    Ok(MemoryInputs::new(alloc, files, Vec::new(alloc)))
}
