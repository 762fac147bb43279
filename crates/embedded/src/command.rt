//! The whole command over files in memory: the least that a program needs.

use crate::fault::Fault;
use crate::files::files_in_memory;
use feed_run::tick_main;
use std::alloc::{AllocError, Global};
use std::io::Print;
use std::sync::Wait;
use std::thread::Threads;
use tick_io::{MemorySink, OpenGate, StdSink, put_all};

/// The arguments of a command line.
fn arguments(alloc: Global, line: &str) -> Result<Vec<String>, AllocError> {
    let mut arguments = Vec::new(alloc);
    for word in line.split_whitespace() {
        arguments.push(String::from_str(alloc, word)?)?;
    }
    Ok(arguments)
}

/// Runs the command, and prints all that it writes and its status. A caller in a thread of its own takes a snapshot of the published table.
pub(crate) fn run_command<R: AllocGlobal + Print + Threads + Wait + Sync>(
    rt: &R,
) -> Result<(), Fault> {
    let alloc = rt.alloc();
    let words = arguments(alloc, "run script feed --callers 1")?;
    let mut inputs = files_in_memory(alloc)?;
    let mut out = MemorySink::new(alloc, Vec::new(alloc));
    let status = tick_main(
        rt,
        alloc,
        words.as_slice(),
        &mut inputs,
        &mut out,
        &OpenGate,
    );
    put_all(&mut StdSink::new(rt), out.bytes())?;
    println!(rt; "status {status}")?;
    Ok(())
}
