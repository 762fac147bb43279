//! The command over this process: its words, its files and its standard output.
//!
//! `tick` is a `main` that calls `run`. A program of several commands calls `run_line` for each.
#![tactic(auto)]

ghost use Rattle.std.specs.Prelude.{◌≡◌, ◌≤◌, ◌⊎◌};
ghost use Rattle.std.specs.Process.{exit_status};

use feed_run::tick_main;
use std::alloc::{AllocError, Global};
use std::env;
use std::io::{ErrorKind, Print};
use std::process::ExitCode;
use std::rt::{Env, Files};
use std::sync::Wait;
use std::thread::Threads;
use tick_io::{HostInputs, OpenGate, StdSink};

/// The status where memory runs out.
const OUT_OF_MEMORY: u8 = 1;

/// The words after the program's name. Where one of them is not UTF-8 there are none, so they are of no command.
fn words_of_process<R: AllocGlobal + Env>(rt: &R) -> Result<Vec<String>, AllocError> {
    let mut words = Vec::new(rt.alloc());
    match env::args(rt) {
        Ok(args) => {
            for word in args.skip(1) {
                words.push(word)?;
            }
        }
        Err(error) if error.kind() == ErrorKind::OutOfMemory => return Err(AllocError),
        Err(_) => {}
    }
    Ok(words)
}

fn words_of_line(alloc: Global, line: &str) -> Result<Vec<String>, AllocError> {
    let mut words = Vec::new(alloc);
    for word in line.split_whitespace() {
        words.push(String::from_str(alloc, word)?)?;
    }
    Ok(words)
}

/// Does what words ask for, or answers the status of a process that has no memory where there was none for them.
fn run_words<R: AllocGlobal + Files + Print + Threads + Wait + Sync>(
    rt: &R,
    words: Result<Vec<String>, AllocError>,
) -> u8
    ensures { (result ≤ 10) ⊎ (result ≡ 12) }
{
    let Ok(words) = words else {
        return OUT_OF_MEMORY;
    };
    let mut inputs = HostInputs::new(rt);
    let mut out = StdSink::new(rt);
    tick_main(
        rt,
        rt.alloc(),
        words.as_slice(),
        &mut inputs,
        &mut out,
        &OpenGate,
    )
}

/// Does what the words of a command line ask for, with the files and the standard output of this process, and answers the status. Words are what stands between white space.
///
/// What is written is that of `tick_main`; no contract says what the files of a process are.
pub fn run_line<R: AllocGlobal + Files + Print + Threads + Wait + Sync>(rt: &R, line: &str) -> u8
    ensures { (result ≤ 10) ⊎ (result ≡ 12) }
{
    run_words(rt, words_of_line(rt.alloc(), line))
}

/// Does what the words of this process ask for, with its files and its standard output, and answers the status with which it is to end.
///
/// What is written is that of `tick_main`; no contract says what the words and files of a process are.
pub fn run<R: AllocGlobal + Env + Files + Print + Threads + Wait + Sync>(rt: &R) -> ExitCode
    ensures status { (exit_status result ≤ 10) ⊎ (exit_status result ≡ 12) }
{
    ExitCode::from(run_words(rt, words_of_process(rt)))
}
