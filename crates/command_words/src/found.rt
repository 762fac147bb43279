//! What a command's matches say: its task, and the numbers that its options give.

ghost use Rattle.std.specs.Prelude.{◌≡◌, ◌≤◌, IfOk, IfSome, option_map};
ghost use Rattle.clap.specs.Words.{first_of, found_of, rows_of};
ghost use Rattle.command_words.specs.Found.{found_demo, found_number, found_run, found_setting, found_task, found_watch};

use crate::command::Task;
use crate::numbers::number_within;
use clap::ArgMatches;
use std::alloc::{AllocError, Global};
use tick_model::limits::MOST_ROWS;
use tick_model::name::Name;

/// The word that was found for a name.
fn word_in<'a>(matches: &ArgMatches<'a>, name: &str) -> Option<&'a str>
    ensures { option_map (λ word. word.now) result ≡ first_of name.now (rows_of (found_of matches.now)) }
{
    matches.get_str(name)
}

/// The word that was found for a name, as a name of its own.
fn name_in(alloc: Global, matches: &ArgMatches<'_>, name: &str) -> Result<Option<Name>, AllocError>
    ensures { IfOk result (λ word. word ≡ first_of name.now (rows_of (found_of matches.now))) }
{
    match word_in(matches, name) {
        Some(word) => Ok(Some(Name::of(String::from_str(alloc, word)?))),
        None => Ok(None),
    }
}

/// The number that was found for a name, where it is in a range.
fn number_in(matches: &ArgMatches<'_>, name: &str, least: u32, most: u32) -> Option<u32>
    ensures { result ≡ found_number least most (first_of name.now (rows_of (found_of matches.now))) }
{
    number_within(word_in(matches, name)?, least, most)
}

/// `run SCRIPT FEED`.
fn run_task(alloc: Global, matches: &ArgMatches<'_>) -> Result<Option<Task>, AllocError>
    ensures { IfOk result (λ task. task ≡ found_run (rows_of (found_of matches.now))) }
{
    let Some(script) = name_in(alloc, matches, "script")? else {
        return Ok(None);
    };
    let Some(feed) = name_in(alloc, matches, "feed")? else {
        return Ok(None);
    };
    Ok(Some(Task::Run { script, feed }))
}

/// `demo STEPS`.
fn demo_task(matches: &ArgMatches<'_>) -> Option<Task>
    ensures { result ≡ found_demo (rows_of (found_of matches.now)) }
{
    let steps = number_in(matches, "steps", 0, 10_000)?;
    Some(Task::Demo { steps })
}

/// `watch SCRIPT FEED NAME FIRST COUNT`.
fn watch_task(alloc: Global, matches: &ArgMatches<'_>) -> Result<Option<Task>, AllocError>
    ensures { IfOk result (λ task. task ≡ found_watch (rows_of (found_of matches.now))) }
{
    let Some(script) = name_in(alloc, matches, "script")? else {
        return Ok(None);
    };
    let Some(feed) = name_in(alloc, matches, "feed")? else {
        return Ok(None);
    };
    let Some(node) = name_in(alloc, matches, "name")? else {
        return Ok(None);
    };
    let Some(first) = number_in(matches, "first", 0, MOST_ROWS - 1) else {
        return Ok(None);
    };
    let Some(count) = number_in(matches, "count", 1, MOST_ROWS) else {
        return Ok(None);
    };
    Ok(Some(Task::Watch {
        script,
        feed,
        node,
        first,
        count,
    }))
}

/// The task of a subcommand of this name.
pub(crate) fn task_in(
    alloc: Global,
    name: &str,
    matches: &ArgMatches<'_>,
) -> Result<Option<Task>, AllocError>
    ensures { IfOk result (λ task. task ≡ found_task name.now (rows_of (found_of matches.now))) }
{
    match name {
        "run" => run_task(alloc, matches),
        "demo" => Ok(demo_task(matches)),
        "watch" => watch_task(alloc, matches),
        _ => Ok(None),
    }
}

/// The number that an option gives, where it is in a range, or its default.
pub(crate) fn setting(
    matches: &ArgMatches<'_>,
    name: &str,
    least: u32,
    most: u32,
    default: u32,
) -> Option<u32>
    requires low { least ≤ default }
    requires high { default ≤ most }
    ensures number { result ≡ found_setting name.now least most default (rows_of (found_of matches.now)) }
    ensures within { IfSome result (λ number. (least ≤ number) × (number ≤ most)) }
{
    match word_in(matches, name) {
        Some(value) => number_within(value, least, most),
        None => Some(default),
    }
}
