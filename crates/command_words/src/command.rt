//! What the words ask for.

ghost use Rattle.std.specs.Prelude.{◌≡◌, Some, IfOk, IfSome, map, string_bytes};
ghost use Rattle.clap.specs.Words.{found_of, rows_of, subcommand_rows_of};
ghost use Rattle.command_words.specs.Commands.{HasRanges, command as command_of};
ghost use Rattle.command_words.specs.Found.{command_found, command_in, with_found_numbers};

use crate::found::{setting, task_in};
use crate::program::matches_of;
use clap::ArgMatches;
use std::alloc::{AllocError, Global};
use tick_model::name::Name;

/// What is to be done.
#[derive(Debug, Drop)]
pub enum Task {
    /// A run of a script over a feed, by the names of their files.
    Run {
        script: Name,
        feed: Name,
    },
    /// The made run of so many steps.
    Demo {
        steps: u32,
    },
    /// Messages about the rows of a node of a run, by the names of its files and of the node: `count` rows, at the positions from `first` on.
    Watch {
        script: Name,
        feed: Name,
        node: Name,
        first: u32,
        count: u32,
    },
}

/// What is to be done, and the numbers that go with it.
#[derive(Debug, Drop)]
pub struct Command {
    pub task: Task,
    /// How many workers bring the nodes to a step: 1 to 64.
    pub workers: u32,
    /// How many callers take snapshots: at most 16.
    pub callers: u32,
    /// How many snapshots each caller takes beside the run: at most 64.
    pub snaps: u32,
    /// How often a snapshot is tried before it waits for its turn: at most 16.
    pub attempts: u32,
    /// How many steps lie between two messages about watched rows: 1 to 100,000.
    pub every: u32,
}

/// A task with the numbers that options give.
fn with_numbers(task: Task, matches: &ArgMatches<'_>) -> Option<Command>
    ensures command { result ≡ with_found_numbers (Some task) (rows_of (found_of matches.now)) }
    ensures ranges { IfSome result HasRanges }
{
    Some(Command {
        task,
        workers: setting(matches, "workers", 1, 64, 1)?,
        callers: setting(matches, "callers", 0, 16, 0)?,
        snaps: setting(matches, "snaps", 0, 64, 0)?,
        attempts: setting(matches, "attempts", 0, 16, 2)?,
        every: setting(matches, "every", 1, 100_000, 1)?,
    })
}

/// The command that a subcommand of this name makes.
fn command_named(
    alloc: Global,
    name: &str,
    matches: &ArgMatches<'_>,
) -> Result<Option<Command>, AllocError>
    ensures command { IfOk result (λ command. command ≡ command_found name.now (rows_of (found_of matches.now))) }
    ensures ranges { IfOk result (λ command. IfSome command HasRanges) }
{
    match task_in(alloc, name, matches)? {
        Some(task) => Ok(with_numbers(task, matches)),
        None => Ok(None),
    }
}

/// The command that matches make.
fn command_of_matches(
    alloc: Global,
    matches: &ArgMatches<'_>,
) -> Result<Option<Command>, AllocError>
    ensures command { IfOk result (λ command. command ≡ command_in (Some (subcommand_rows_of matches.now))) }
    ensures ranges { IfOk result (λ command. IfSome command HasRanges) }
{
    match matches.subcommand() {
        Some((name, matches)) => command_named(alloc, name, matches),
        None => Ok(None),
    }
}

/// The command that the words after the program's name make, or `None` where they are of no command.
pub fn read_words(alloc: Global, words: &[String]) -> Result<Option<Command>, AllocError>
    ensures command { IfOk result (λ command. command ≡ command_of (map string_bytes words.now)) }
    ensures ranges { IfOk result (λ command. IfSome command HasRanges) }
{
    match matches_of(alloc, words)? {
        Some(matches) => command_of_matches(alloc, &matches),
        None => Ok(None),
    }
}
