//! The engine in a program of one's own, over files in memory: first as the whole command, and then step by step, with the changes of a table and
//! a screen of its first rows.
#![tactic(auto)]

mod command;
mod fault;
mod files;
mod rows;
mod stepping;

use command::run_command;
use fault::Fault;
use feed_run::read_run;
use files::files_in_memory;
use std::io::Print;
use std::process::ExitCode;
use std::sync::Wait;
use std::thread::Threads;
use stepping::{node_named, print_steps};

/// Reads the run, and prints what its steps change.
fn run_by_steps<R: AllocGlobal + Print + Threads + Sync>(rt: &R) -> Result<(), Fault> {
    let alloc = rt.alloc();
    let mut inputs = files_in_memory(alloc)?;
    let run = read_run(alloc, &mut inputs, "script", "feed")?;
    match node_named(&run.plan, "totals") {
        Some(totals) => print_steps(rt, alloc, &run, totals),
        None => Err(Fault::NoTable),
    }
}

fn run_both_ways<R: AllocGlobal + Print + Threads + Wait + Sync>(rt: &R) -> Result<(), Fault> {
    run_command(rt)?;
    run_by_steps(rt)
}

fn main(rt: HostRuntime) -> ExitCode {
    match run_both_ways(&rt) {
        Ok(()) => ExitCode::SUCCESS,
        Err(_) => ExitCode::FAILURE,
    }
}
