//! The program `tick`: its words, files, standard output and status are the process's own.
#![tactic(auto)]

use std::process::ExitCode;

fn main(rt: HostRuntime) -> ExitCode {
    host_run::run(&rt)
}
