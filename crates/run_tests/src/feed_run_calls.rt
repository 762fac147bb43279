//! Calls of the program over files and a sink in memory: words and files against the status and the bytes.

mod cut;
mod long;
mod made;
mod meetings;
mod refused;
mod snapshots;
mod stepped;
mod watched;
mod worked;

use cut::CUTS;
use feed_run::tick_main;
use made::SUMMARIES;
use refused::REFUSED;
use snapshots::KEPT;
use std::alloc::{AllocError, Global};
use std::process::Abort;
use std::sync::Wait;
use std::test::Fail;
use std::thread::Threads;
use stepped::STEPS;
use tick_io::{Gate, MemoryInputs, MemorySink, OpenGate, VoidSink};
use watched::{SORTED, WATCHED};
use worked::RUNS;

/// A script, a feed, the status and what is written.
type Row = (&'static str, &'static str, u8, &'static str);

/// The numbers of the load and of the write that fail, or 0.
#[derive(Clone, Copy)]
struct Failing {
    load: u64,
    write: u64,
}

impl Failing {
    const NONE: Failing = Failing { load: 0, write: 0 };

    fn load(number: u64) -> Failing {
        Failing {
            load: number,
            write: 0,
        }
    }

    fn write(number: u64) -> Failing {
        Failing {
            load: 0,
            write: number,
        }
    }
}

/// One call of the program.
#[derive(Clone, Copy)]
struct Case {
    /// The words, with one space between two of them.
    words: &'static str,
    /// The file `s`, where it is there.
    script: Option<&'static str>,
    /// The file `f`, where it is there.
    feed: Option<&'static str>,
    /// The file `t.csv`, where it is there.
    table: Option<&'static str>,
    failing: Failing,
    status: u8,
    bytes: &'static str,
}

const FILTER: &str = "table t sym:text qty:long\nbig = where t qty > 10\nprint big\n";

const ONE_STEP: &str = "t,t\na,0,IBM,5\na,1,AAPL,20\n.\n";

const FROM_FILE: &str = "table t x:long from \"t.csv\"\nprint t\n";

const FILE: &str = "x\n1\n\"\"\n3\n";

/// The numbers of workers that the runs are made with.
const WORKERS: [&str; 3] = ["run s f", "run s f --workers 2", "run --workers=8 s f"];

fn words(alloc: Global, text: &str) -> Result<Vec<String>, AllocError> {
    let mut words = Vec::new(alloc);
    for word in text.split_whitespace() {
        words.push(String::from_str(alloc, word)?)?;
    }
    Ok(words)
}

/// The files that are there, each with its name.
fn files(
    alloc: Global,
    texts: &[(&str, Option<&str>)],
) -> Result<Vec<(String, Vec<u8>)>, AllocError> {
    let mut files = Vec::new(alloc);
    for (name, text) in texts {
        if let Some(text) = text {
            let bytes = text.as_bytes().to_vec(alloc)?;
            files.push((String::from_str(alloc, name)?, bytes))?;
        }
    }
    Ok(files)
}

/// Makes a call over files, and gives its status and what was written to.
fn call_over<R: Threads + Wait + Sync, G: Gate>(
    rt: &R,
    alloc: Global,
    words_text: &str,
    files: Vec<(String, Vec<u8>)>,
    failing: Failing,
    gate: &G,
) -> Result<(u8, MemorySink), AllocError> {
    let words = words(alloc, words_text)?;
    let mut inputs = MemoryInputs::new(alloc, files, vec![in alloc; failing.load]?);
    let mut out = MemorySink::new(alloc, vec![in alloc; failing.write]?);
    let status = tick_main(rt, alloc, words.as_slice(), &mut inputs, &mut out, gate);
    Ok((status, out))
}

/// Makes a call over texts, and gives its status and what was written to.
fn call<R: Threads + Wait + Sync, G: Gate>(
    rt: &R,
    alloc: Global,
    words_text: &str,
    texts: &[(&str, Option<&str>)],
    failing: Failing,
    gate: &G,
) -> Result<(u8, MemorySink), AllocError> {
    call_over(rt, alloc, words_text, files(alloc, texts)?, failing, gate)
}

/// Makes a call and compares its status and bytes.
fn compare<R: Abort + Threads + Wait + Sync>(
    rt: &R,
    alloc: Global,
    words: &str,
    texts: &[(&str, Option<&str>)],
    failing: Failing,
    status: u8,
    bytes: &str,
) -> Result<(), Fail> {
    let (answer, out) = call(rt, alloc, words, texts, failing, &OpenGate)?;
    assert_eq!(rt; answer, status, "{words}");
    assert_eq!(rt; out.bytes(), bytes.as_bytes(), "{words}");
    Ok(())
}

fn run<R: Abort + Threads + Wait + Sync>(rt: &R, alloc: Global, case: &Case) -> Result<(), Fail> {
    let texts = [("s", case.script), ("f", case.feed), ("t.csv", case.table)];
    compare(
        rt,
        alloc,
        case.words,
        &texts,
        case.failing,
        case.status,
        case.bytes,
    )
}

/// A call over a script and a feed alone.
fn run_row<R: Abort + Threads + Wait + Sync>(
    rt: &R,
    alloc: Global,
    words: &str,
    row: &Row,
) -> Result<(), Fail> {
    let (script, feed, status, bytes) = *row;
    let texts = [("s", Some(script)), ("f", Some(feed))];
    compare(rt, alloc, words, &texts, Failing::NONE, status, bytes)
}

#[test]
fn updates_are_printed_whatever_the_workers(rt: HostRuntime) -> Result<(), Fail> {
    for words in WORKERS {
        for row in RUNS.iter() {
            run_row(&rt, rt.alloc(), words, row)?;
        }
        for row in STEPS.iter() {
            run_row(&rt, rt.alloc(), words, row)?;
        }
    }
    Ok(())
}

#[test]
fn the_first_refusal_is_told(rt: HostRuntime) -> Result<(), Fail> {
    for row in REFUSED.iter() {
        run_row(&rt, rt.alloc(), "run s f", row)?;
    }
    Ok(())
}

#[test]
fn a_feed_that_is_cut_is_refused(rt: HostRuntime) -> Result<(), Fail> {
    for (left, status, bytes) in CUTS.iter() {
        let feed = ONE_STEP.get(..*left).unwrap_or("");
        run_row(&rt, rt.alloc(), "run s f", &(FILTER, feed, *status, bytes))?;
    }
    Ok(())
}

#[test]
fn watched_rows_are_told(rt: HostRuntime) -> Result<(), Fail> {
    for (words, feed, status, bytes) in WATCHED.iter() {
        run_row(&rt, rt.alloc(), words, &(SORTED, feed, *status, bytes))?;
    }
    Ok(())
}

#[test]
fn made_runs_are_summed_up(rt: HostRuntime) -> Result<(), Fail> {
    for (words, text) in SUMMARIES.iter() {
        compare(&rt, rt.alloc(), words, &[], Failing::NONE, 0, text)?;
    }
    Ok(())
}

#[test]
fn so_many_words_are_kept(rt: HostRuntime) -> Result<(), Fail> {
    for (words, row) in KEPT.iter() {
        run_row(&rt, rt.alloc(), words, row)?;
    }
    Ok(())
}

#[test]
fn words_and_files_are_answered(rt: HostRuntime) -> Result<(), Fail> {
    let whole = Case {
        words: "run s f",
        script: Some(FROM_FILE),
        feed: Some(""),
        table: Some(FILE),
        failing: Failing::NONE,
        status: 0,
        bytes: "step,0,t\na,0,1\na,1,\na,2,3\ndone,0\n",
    };
    let cases = [
        whole,
        Case {
            table: Some("y\n1\n\"\"\n3\n"),
            status: 5,
            bytes: "fault,5,table,t,1,header\n",
            ..whole
        },
        Case {
            script: None,
            status: 3,
            bytes: "fault,3,read,s\n",
            ..whole
        },
        Case {
            table: None,
            status: 3,
            bytes: "fault,3,read,t.csv\n",
            ..whole
        },
        Case {
            feed: None,
            status: 3,
            bytes: "fault,3,read,f\n",
            ..whole
        },
        Case {
            words: "",
            status: 2,
            bytes: "fault,2,usage\n",
            ..whole
        },
        Case {
            words: "run s",
            status: 2,
            bytes: "fault,2,usage\n",
            ..whole
        },
        Case {
            words: "run s f --workers 0",
            status: 2,
            bytes: "fault,2,usage\n",
            ..whole
        },
        Case {
            failing: Failing::load(1),
            status: 3,
            bytes: "fault,3,read,s\n",
            ..whole
        },
        Case {
            failing: Failing::load(2),
            status: 3,
            bytes: "fault,3,read,t.csv\n",
            ..whole
        },
        Case {
            failing: Failing::load(3),
            status: 3,
            bytes: "fault,3,read,f\n",
            ..whole
        },
        Case {
            failing: Failing::write(1),
            status: 10,
            bytes: "",
            ..whole
        },
        Case {
            failing: Failing::write(2),
            status: 10,
            bytes: "step,0,t\na,0,1\na,1,\na,2,3\n",
            ..whole
        },
        Case {
            failing: Failing::write(3),
            ..whole
        },
    ];
    for case in &cases {
        run(&rt, rt.alloc(), case)?;
    }
    Ok(())
}

/// Words, a script, and the names that are asked for, one after the other.
const ASKED: [(&str, &str, &str); 5] = [
    ("run s f", FROM_FILE, "s t.csv f"),
    ("run s f", "no line\n", "s"),
    ("watch s f t 0 1", FROM_FILE, "s t.csv f"),
    ("watch s f u 0 1", FROM_FILE, "s"),
    ("demo 1", FROM_FILE, ""),
];

#[test]
fn files_are_asked_for_in_order(rt: HostRuntime) -> Result<(), Fail> {
    let alloc = rt.alloc();
    for (words_text, script, names) in ASKED {
        let texts = [("s", Some(script)), ("t.csv", Some(FILE)), ("f", Some(""))];
        let mut inputs = MemoryInputs::new(alloc, files(alloc, &texts)?, Vec::new(alloc));
        let arguments = words(alloc, words_text)?;
        tick_main(
            &rt,
            alloc,
            arguments.as_slice(),
            &mut inputs,
            &mut VoidSink,
            &OpenGate,
        );
        let names = words(alloc, names)?;
        let asked = inputs.asked().unwrap_or(&[]);
        assert_eq!(rt; asked.len(), names.len(), "{words_text}");
        for (name, expected) in asked.iter().zip(names.as_slice()) {
            assert_eq!(rt; name.as_str(), expected.as_str(), "{words_text}");
        }
    }
    Ok(())
}

/// A script of so many tables, which all have the same columns.
fn script_of_tables(alloc: Global, count: usize) -> Result<String, AllocError> {
    let mut script = String::new(alloc);
    for table in 0..count {
        script.push_str(format!(in alloc; "table t{table} x:long\n")?.as_str())?;
    }
    Ok(script)
}

#[test]
fn a_script_has_so_many_nodes(rt: HostRuntime) -> Result<(), Fail> {
    for (count, status, bytes) in [
        (256, 0, "done,0\n"),
        (257, 4, "fault,4,script,257,too-many-nodes\n"),
    ] {
        let script = script_of_tables(rt.alloc(), count)?;
        let texts = [("s", Some(script.as_str())), ("f", Some(""))];
        compare(
            &rt,
            rt.alloc(),
            "run s f",
            &texts,
            Failing::NONE,
            status,
            bytes,
        )?;
    }
    Ok(())
}

#[test]
fn a_line_that_is_no_text_is_told(rt: HostRuntime) -> Result<(), Fail> {
    let alloc = rt.alloc();
    let script = vec![in alloc; 255_u8]?;
    let files = vec![in alloc; (String::from_str(alloc, "s")?, script)]?;
    let (status, out) = call_over(&rt, alloc, "run s f", files, Failing::NONE, &OpenGate)?;
    assert_eq!(rt; status, 4);
    assert_eq!(rt; out.bytes(), b"fault,4,script,1,not-utf8\n".as_slice());
    Ok(())
}
