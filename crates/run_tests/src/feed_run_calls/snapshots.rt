//! Runs with callers beside them, and how much they may keep.

use super::{Failing, Row, call, compare};
use std::alloc::{AllocError, Global};
use std::process::Abort;
use std::sync::Wait;
use std::test::Fail;
use std::thread::Threads;
use tick_io::OpenGate;

/// A published table.
const PUBLISHED: &str = "table t x:long\npublish t 10\n";

/// A feed of four steps.
const STEPS: &str = "t,t\na,0,1\n.\nt,t\na,1,2\n.\nt,t\nr,0,0\n.\nt,t\na,2,3\n.\n";

/// Both files.
const FILES: [(&str, Option<&str>); 2] = [("s", Some(PUBLISHED)), ("f", Some(STEPS))];

/// The rows of the table at each step.
const ROWS: [&str; 5] = ["", "w,0,1\n", "w,0,1\nw,1,2\n", "w,1,2\n", "w,1,2\nw,2,3\n"];

/// The words of a run whose callers take the last snapshots alone.
const LAST_ALONE: [&str; 4] = [
    "run s f --callers 3",
    "run s f --callers 3 --attempts 0",
    "run s f --callers 3 --workers 4",
    "run --callers=3 --snaps=0 s f --workers 8 --attempts 16",
];

/// What is written then, piece by piece.
const LAST_PIECES: [&str; 4] = [
    "snap,0,0,4,t\nw,1,2\nw,2,3\n",
    "snap,1,0,4,t\nw,1,2\nw,2,3\n",
    "snap,2,0,4,t\nw,1,2\nw,2,3\n",
    "done,4\n",
];

/// The words of runs of two callers that take three snapshots each beside the run.
const BESIDE: [&str; 3] = [
    "run s f --callers 2 --snaps 3",
    "run s f --callers 2 --snaps 3 --attempts 0",
    "run s f --callers 2 --snaps 3 --workers 2",
];

/// The greatest limit of a table of one column.
const WIDEST: &str = "table t x:long\npublish t 262143\n";

/// One row more.
const TOO_WIDE: &str = "table t x:long\npublish t 262144\n";

/// The words, the script and the feed, the status and what is written: so many words are kept, and no more.
pub(super) const KEPT: [(&str, Row); 4] = [
    ("run s f", (WIDEST, "", 0, "done,0\n")),
    ("run s f --callers 16 --snaps 1", (WIDEST, "", 0, EMPTY)),
    ("run s f", (TOO_WIDE, "", 4, "fault,4,script,2,too-wide\n")),
    (
        "run s f --callers 16 --snaps 2",
        (WIDEST, "", 2, "fault,2,kept,25165776\n"),
    ),
];

/// What sixteen callers write who take two snapshots each of an empty table.
const EMPTY: &str =
    "snap,0,0,0,t\nsnap,0,1,0,t\nsnap,1,0,0,t\nsnap,1,1,0,t\nsnap,2,0,0,t\nsnap,2,1,0,t\nsnap,3,0,0,t\nsnap,3,1,0,t\nsnap,4,0,0,t\nsnap,4,1,0,t\nsnap,5,0,0,t\nsnap,5,1,0,t\nsnap,6,0,0,t\nsnap,6,1,0,t\nsnap,7,0,0,t\nsnap,7,1,0,t\nsnap,8,0,0,t\nsnap,8,1,0,t\nsnap,9,0,0,t\nsnap,9,1,0,t\nsnap,10,0,0,t\nsnap,10,1,0,t\nsnap,11,0,0,t\nsnap,11,1,0,t\nsnap,12,0,0,t\nsnap,12,1,0,t\nsnap,13,0,0,t\nsnap,13,1,0,t\nsnap,14,0,0,t\nsnap,14,1,0,t\nsnap,15,0,0,t\nsnap,15,1,0,t\ndone,0\n";

/// The steps of the snapshots in a text.
fn steps(alloc: Global, text: &str) -> Result<Vec<usize>, AllocError> {
    let mut steps = Vec::new(alloc);
    for line in text.lines() {
        if line.starts_with("snap,") {
            let step = line
                .split(',')
                .nth(3)
                .and_then(|step| step.parse::<usize>().ok());
            steps.push(step.unwrap_or(ROWS.len()))?;
        }
    }
    Ok(steps)
}

/// What two callers write who take four snapshots each at these steps.
fn text_at(alloc: Global, steps: &[usize]) -> Result<String, AllocError> {
    let mut text = String::new(alloc);
    for (number, step) in steps.iter().enumerate() {
        let caller = number / 4;
        let call = number % 4;
        text.push_str(&format!(in alloc; "snap,{caller},{call},{step},t\n")?)?;
        text.push_str(ROWS.get(*step).copied().unwrap_or(""))?;
    }
    text.push_str("done,4\n")?;
    Ok(text)
}

/// Compares what callers write beside a run with whole tables of the steps that they tell, which do not fall and end with the last one.
fn compare_beside<R: Abort + Threads + Wait + Sync>(
    rt: &R,
    alloc: Global,
    words: &str,
) -> Result<(), Fail> {
    let (status, out) = call(rt, alloc, words, &FILES, Failing::NONE, &OpenGate)?;
    let text = str::from_utf8(out.bytes()).unwrap_or("");
    let steps = steps(alloc, text)?;
    assert_eq!(rt; status, 0);
    assert_eq!(rt; steps.len(), 8);
    assert_eq!(rt; text, text_at(alloc, &steps)?.as_str());
    for steps in steps.chunks(4) {
        assert!(rt; steps.iter().is_sorted());
        assert_eq!(rt; steps.last().copied(), Some(4));
    }
    Ok(())
}

#[test]
fn callers_take_the_last_snapshots(rt: HostRuntime) -> Result<(), Fail> {
    let mut text = String::new(rt.alloc());
    for piece in LAST_PIECES.iter() {
        text.push_str(piece)?;
    }
    for words in LAST_ALONE.iter() {
        compare(&rt, rt.alloc(), words, &FILES, Failing::NONE, 0, &text)?;
    }
    Ok(())
}

#[test]
fn the_pieces_before_a_failed_write_are_written(rt: HostRuntime) -> Result<(), Fail> {
    let mut text = String::new(rt.alloc());
    let mut write = 1;
    for piece in LAST_PIECES.iter() {
        compare(
            &rt,
            rt.alloc(),
            LAST_ALONE[0],
            &FILES,
            Failing::write(write),
            10,
            &text,
        )?;
        text.push_str(piece)?;
        write = write.saturating_add(1);
    }
    Ok(())
}

#[test]
fn snapshots_beside_a_run_are_whole_tables(rt: HostRuntime) -> Result<(), Fail> {
    for words in BESIDE.iter() {
        compare_beside(&rt, rt.alloc(), words)?;
    }
    Ok(())
}
