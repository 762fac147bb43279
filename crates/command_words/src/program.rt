//! The program's command, as `clap` is told of it: three subcommands with their options, and no help and no version.

ghost use Rattle.std.specs.Prelude.{◌≡◌, IfOk, false, map, option_map, string_bytes};
ghost use Rattle.clap.specs.Words.{app_of, rule_of, subcommand_rows_of};
ghost use Rattle.clap.specs.declared.builder.command.Command.TheViews.{out-Command as fields_of};
ghost use Rattle.command_words.specs.Program.{bare_app, demo_app, found_in, option_rule, program_app, run_app, watch_app, with_file_rules, with_option_rules, with_place_rules, word_rule};

use clap::error::ErrorKind;
use clap::{Arg, ArgMatches, Command};
use std::alloc::{AllocError, Global};

/// A positional word, which has to be there.
fn word<'a>(alloc: Global, name: &'a str) -> Arg<'a>
    ensures rule { rule_of result ≡ word_rule name.entry.now }
    ensures local { result.global ≡ false }
{
    Arg::new(alloc, name).required(true)
}

/// `--NAME VALUE` or `--NAME=VALUE`, which may be left out.
fn option<'a>(alloc: Global, name: &'a str) -> Arg<'a>
    ensures rule { rule_of result ≡ option_rule name.entry.now }
    ensures local { result.global ≡ false }
{
    Arg::new(alloc, name).long(name)
}

/// The command with the names of a script and of a feed.
fn with_files<'a>(alloc: Global, command: Command<'a>) -> Result<Command<'a>, AllocError>
    ensures app { IfOk result (λ with. app_of with ≡ with_file_rules (app_of command.entry)) }
    ensures local { IfOk result (λ with. (fields_of command.entry).has_globals ≡ false → (fields_of with).has_globals ≡ false) }
{
    command.arg(word(alloc, "script"))?.arg(word(alloc, "feed"))
}

/// The command with the name of a node and the numbers of a slice.
fn with_places<'a>(alloc: Global, command: Command<'a>) -> Result<Command<'a>, AllocError>
    ensures app { IfOk result (λ with. app_of with ≡ with_place_rules (app_of command.entry)) }
    ensures local { IfOk result (λ with. (fields_of command.entry).has_globals ≡ false → (fields_of with).has_globals ≡ false) }
{
    command
        .arg(word(alloc, "name"))?
        .arg(word(alloc, "first"))?
        .arg(word(alloc, "count"))
}

/// The command with the options of a run.
fn with_options<'a>(alloc: Global, command: Command<'a>) -> Result<Command<'a>, AllocError>
    ensures app { IfOk result (λ with. app_of with ≡ with_option_rules (app_of command.entry)) }
    ensures local { IfOk result (λ with. (fields_of command.entry).has_globals ≡ false → (fields_of with).has_globals ≡ false) }
{
    command
        .arg(option(alloc, "workers"))?
        .arg(option(alloc, "callers"))?
        .arg(option(alloc, "snaps"))?
        .arg(option(alloc, "attempts"))
}

/// `run SCRIPT FEED`.
fn run<'a>(alloc: Global) -> Result<Command<'a>, AllocError>
    ensures app { IfOk result (λ run. app_of run ≡ run_app) }
    ensures local { IfOk result (λ run. (fields_of run).has_globals ≡ false) }
{
    let run = Command::new(alloc, "run");
    let run = with_files(alloc, run)?;
    with_options(alloc, run)
}

/// `demo STEPS`.
fn demo<'a>(alloc: Global) -> Result<Command<'a>, AllocError>
    ensures app { IfOk result (λ demo. app_of demo ≡ demo_app) }
    ensures local { IfOk result (λ demo. (fields_of demo).has_globals ≡ false) }
{
    let demo = Command::new(alloc, "demo").arg(word(alloc, "steps"))?;
    with_options(alloc, demo)
}

/// `watch SCRIPT FEED NAME FIRST COUNT`.
fn watch<'a>(alloc: Global) -> Result<Command<'a>, AllocError>
    ensures app { IfOk result (λ watch. app_of watch ≡ watch_app) }
    ensures local { IfOk result (λ watch. (fields_of watch).has_globals ≡ false) }
{
    let watch = with_files(alloc, Command::new(alloc, "watch"))?;
    with_places(alloc, watch)?
        .arg(option(alloc, "workers"))?
        .arg(option(alloc, "every"))
}

/// The command of which the words are all the arguments, without its subcommands.
fn bare<'a>(alloc: Global) -> Command<'a>
    ensures { app_of result ≡ bare_app }
{
    Command::new(alloc, "tick")
        .no_binary_name(true)
        .disable_help_flag(true)
        .disable_help_subcommand(true)
        .disable_version_flag(true)
        .subcommand_required(true)
}

/// The command with its subcommands.
fn program<'a>(alloc: Global) -> Result<Command<'a>, AllocError>
    ensures { IfOk result (λ program. app_of program ≡ program_app) }
{
    bare(alloc)
        .subcommand(run(alloc)?)?
        .subcommand(demo(alloc)?)?
        .subcommand(watch(alloc)?)
}

/// What `clap` finds in the words, or `None` where it refuses them.
pub(crate) fn matches_of<'a>(
    alloc: Global,
    words: &'a [String],
) -> Result<Option<ArgMatches<'a>>, AllocError>
    ensures { IfOk result (λ matches. option_map subcommand_rows_of matches ≡ found_in (map string_bytes words.entry.now)) }
{
    match program(alloc)?.try_get_matches_from(words) {
        Ok(matches) => Ok(Some(matches)),
        Err(error) if error.kind() == ErrorKind::OutOfMemory => Err(AllocError),
        Err(_) => Ok(None),
    }
}
