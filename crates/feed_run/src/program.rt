//! All that the program does.

ghost use Rattle.std.specs.Prelude.{◌≡◌, ◌≤◌, IsTrue, map, string_bytes};
ghost use Rattle.tick_io.specs.Asked.{AsksFor, AsksSome};
ghost use Rattle.tick_io.specs.Counts.{Rose};
ghost use Rattle.feed_run.specs.Answers.{Answers, HasAsked, IsInRange};
ghost use Rattle.feed_run.specs.Headline.{IsComplete, IsOfVerdict, IsOneOf, IsRead, IsStatus, IsTaskStatus, IsWritten, LoadFailed, NoLoadFailed, NoneFailed, SomeName, TellsLoadFault, TellsVerdict, WritesPrefix, WritesPrefixOrNothing};
ghost use Rattle.feed_run.specs.Verdicts.{are_told, files, knobs_of as knobs_of_command, task_files, task_told, task_verdict, verdict};

use crate::demo::demo;
use crate::refusal::{LoadStop, Refusal};
use crate::reports::report_stop;
use crate::run::{read_run, run_to_end};
use crate::watching::{Asked, watch};
use command_words::{Command, Task, read_words};
use replay::Knobs;
use std::alloc::{AllocError, Global};
use std::sync::Wait;
use std::thread::Threads;
use tick_io::{Gate, Inputs, Sink};

/// How a command is run.
fn knobs_of(command: &Command) -> Knobs
    ensures { result ≡ knobs_of_command command.now }
{
    Knobs {
        workers: command.workers,
        callers: command.callers,
        snaps: command.snaps,
        attempts: command.attempts,
    }
}

/// Does what a task asks for, and answers the status.
fn run_task<R: Threads + Wait + Sync, I: Inputs, S: Sink, G: Gate>(
    rt: &R,
    alloc: Global,
    task: &Task,
    knobs: &Knobs,
    every: u32,
    inputs: &mut I,
    out: &mut S,
    gate: &G,
) -> u8
    requires numbers { IsInRange task.now }
    requires some_workers { 1 ≤ knobs.now.workers }
    requires few_workers { knobs.now.workers ≤ 64 }
    requires few_callers { knobs.now.callers ≤ 16 }
    requires few_snaps { knobs.now.snaps ≤ 64 }
    requires some_between { 1 ≤ every }
    requires few_between { every ≤ 100000 }
    ensures answers { Answers (task_told I.told task.now) (task_verdict (I.content inputs.old) knobs.now every task.now)
        (LoadFailed I.failures inputs.old inputs.new) (IsOneOf (task_files (I.content inputs.old) task.now))
        (Rose (S.failures out.old) (S.failures out.new)) (S.bytes out.old) (S.bytes out.new) result }
    ensures status { IsTaskStatus task.now result }
    ensures asks { HasAsked (task_told I.told task.now) (I.asked inputs.old) (I.asked inputs.new)
        (task_files (I.content inputs.old) task.now) (NoLoadFailed I.failures inputs.old inputs.new) result }
    ensures steady { IsWritten result → S.failures out.new ≡ S.failures out.old }
{
    let (script, feed) = match task {
        Task::Run { script, feed } => (script.as_str(), feed.as_str()),
        Task::Demo { steps } => return demo(rt, alloc, *steps, knobs, out, gate),
        Task::Watch {
            script,
            feed,
            node,
            first,
            count,
        } => {
            let asked = Asked {
                script: script.as_str(),
                feed: feed.as_str(),
                name: node.as_str(),
                first: *first,
                count: *count,
                every,
            };
            return watch(rt, alloc, asked, knobs.workers, inputs, out, gate);
        }
    };
    let own = match read_run(alloc, inputs, script, feed) {
        Ok(own) => own,
        Err(stop) => return report_stop(alloc, out, &stop),
    };
    run_to_end(rt, alloc, &own, knobs, out, gate)
}

/// Does what the words ask for, and answers the status.
fn answer<R: Threads + Wait + Sync, I: Inputs, S: Sink, G: Gate>(
    rt: &R,
    alloc: Global,
    words: &[String],
    inputs: &mut I,
    out: &mut S,
    gate: &G,
) -> u8
    ensures answers { Answers (are_told I.told (map string_bytes words.now)) (verdict (map string_bytes words.now) (I.content inputs.old))
        (LoadFailed I.failures inputs.old inputs.new) (IsRead (map string_bytes words.now) (I.content inputs.old))
        (Rose (S.failures out.old) (S.failures out.new)) (S.bytes out.old) (S.bytes out.new) result }
    ensures status { IsStatus (map string_bytes words.now) result }
    ensures asks { HasAsked (are_told I.told (map string_bytes words.now)) (I.asked inputs.old) (I.asked inputs.new)
        (files (map string_bytes words.now) (I.content inputs.old)) (NoLoadFailed I.failures inputs.old inputs.new) result }
    ensures steady { IsWritten result → S.failures out.new ≡ S.failures out.old }
{
    let command = match read_words(alloc, words) {
        Ok(Some(command)) => command,
        Ok(None) => return report_stop(alloc, out, &LoadStop::Refused(Refusal::Usage)),
        Err(AllocError) => return 1,
    };
    let knobs = knobs_of(&command);
    run_task(
        rt,
        alloc,
        &command.task,
        &knobs,
        command.every,
        inputs,
        out,
        gate,
    )
}

/// All that the program does, from the words after its name to the status with which it ends.
///
/// The words, the script, its table files and the feed decide a verdict, which gives the status and the bytes written, but for the steps at
/// which callers take their snapshots beside the run. Beside these, status 1 says that memory ran out, 3 that a file could not be read, and
/// 10 that the output could not be written.
pub fn tick_main<R: Threads + Wait + Sync, I: Inputs, S: Sink, G: Gate>(
    rt: &R,
    alloc: Global,
    words: &[String],
    inputs: &mut I,
    out: &mut S,
    gate: &G,
) -> u8
    // Where memory did not run out, and no load and no write failed.
    ensures verdict { IsTrue (are_told I.told (map string_bytes words.now))
        → TellsVerdict (verdict (map string_bytes words.now) (I.content inputs.old)) result
        (S.bytes out.old) (S.bytes out.new) }

    ensures no_load_failed { IsOfVerdict result → NoLoadFailed I.failures inputs.old inputs.new }
    ensures no_write_failed { IsWritten result → S.failures out.new ≡ S.failures out.old }

    // The files that have to be read are asked for in their order, and no other: all of them with a status of a verdict.
    ensures asked_in_order { IsTrue (are_told I.told (map string_bytes words.now))
        → AsksSome (I.asked inputs.old) (I.asked inputs.new)
        (files (map string_bytes words.now) (I.content inputs.old)) }
    ensures all_asked { IsTrue (are_told I.told (map string_bytes words.now)) → IsOfVerdict result
        → AsksFor (I.asked inputs.old) (I.asked inputs.new)
        (files (map string_bytes words.now) (I.content inputs.old)) }

    // Where a file could not be read.
    ensures load_counted { result ≡ 3 → SomeName (LoadFailed I.failures inputs.old inputs.new) }
    ensures load_fault { result ≡ 3 → IsTrue (are_told I.told (map string_bytes words.now))
        → TellsLoadFault (LoadFailed I.failures inputs.old inputs.new)
        (IsRead (map string_bytes words.now) (I.content inputs.old))
        (S.bytes out.old) (S.bytes out.new) }

    // Where the output could not be written.
    ensures write_counted { result ≡ 10 → Rose (S.failures out.old) (S.failures out.new) }
    ensures write_fault { result ≡ 10 → IsTrue (are_told I.told (map string_bytes words.now))
        → WritesPrefix (verdict (map string_bytes words.now) (I.content inputs.old))
        (LoadFailed I.failures inputs.old inputs.new)
        (IsRead (map string_bytes words.now) (I.content inputs.old))
        (S.bytes out.old) (S.bytes out.new) }

    // Where memory ran out.
    ensures memory { result ≡ 1 → IsTrue (are_told I.told (map string_bytes words.now))
        → WritesPrefixOrNothing (verdict (map string_bytes words.now) (I.content inputs.old))
        (LoadFailed I.failures inputs.old inputs.new)
        (IsRead (map string_bytes words.now) (I.content inputs.old))
        (S.bytes out.old) (S.bytes out.new) }

    // There is no other status, and none but that of the verdict where nothing failed and memory sufficed.
    ensures statuses { IsStatus (map string_bytes words.now) result }
    ensures complete { IsTrue (are_told I.told (map string_bytes words.now))
        → NoneFailed (LoadFailed I.failures inputs.old inputs.new)
        (IsRead (map string_bytes words.now) (I.content inputs.old))
        → (Rose (S.failures out.old) (S.failures out.new) → ⊥)
        → IsComplete (verdict (map string_bytes words.now) (I.content inputs.old)) result }
{
    answer(rt, alloc, words, inputs, out, gate)
}
