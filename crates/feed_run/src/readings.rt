//! The script, a table file and the feed, each read from its file.

ghost use Rattle.std.specs.Prelude.{◌≡◌, ◌<◌, ◌≤◌, ◌^◌, ◌∷◌, [], ℕ, List, Ok, IfOk, length, option_map};
ghost use Rattle.feed_reader.specs.Assembled.{IsTableOf};
ghost use Rattle.feed_reader.specs.Feeds.{feed_of};
ghost use Rattle.script_reader.specs.Plain.{plain_script};
ghost use Rattle.tick_io.specs.Asked.{AsksFor};
ghost use Rattle.feed_run.specs.Headline.{IsOneOf, LoadFailed, NoLoadFailed};
ghost use Rattle.feed_run.specs.Readings.{feed_in, script_in, table_in};
ghost use Rattle.feed_run.specs.Stops.{IsRefusal, OnFound, Reads, Says};
ghost use Rattle.feed_run.specs.declared.refusal.Refusal.TheVariants.{Table};

use crate::loading::load;
use crate::refusal::{LoadStop, Refusal};
use feed_reader::{MOST_BYTES, RawFeed, RawTable, TextFault, TextKind, read_feed, read_table};
use script_lines::fault::ScriptKind;
use script_reader::fault::ScriptFault;
use script_reader::reader::{MOST_SCRIPT_BYTES, read_script};
use script_reader::script::Script;
use std::alloc::Global;
use tick_io::Inputs;
use tick_model::name::Name;
use tick_model::plan::{Node, Plan};

/// The script that bytes spell.
fn spelled_script(alloc: Global, bytes: &[u8]) -> Result<Script, LoadStop>
    ensures { Says (script_in bytes.now) plain_script result }
{
    match read_script(alloc, bytes) {
        Ok(script) => Ok(script),
        Err(ScriptFault::Memory) => Err(LoadStop::Memory),
        Err(ScriptFault::Refused { line, kind }) => {
            Err(LoadStop::Refused(Refusal::Script { line, kind }))
        }
    }
}

/// The script of a file.
pub(crate) fn load_script<I: Inputs>(
    alloc: Global,
    inputs: &mut I,
    name: &str,
) -> Result<Script, LoadStop>
    ensures reads { Reads I.told (LoadFailed I.failures inputs.old inputs.new) (IsOneOf (name.now ∷ []))
        (option_map script_in (I.content inputs.old name.now)) plain_script result }
    ensures script { IfOk result (λ script. (bytes : List ℕ) × (script_in bytes ≡ Ok (plain_script script))) }
    ensures never_falls { (other : List ℕ) → I.failures inputs.old other ≤ I.failures inputs.new other }
    ensures kept { I.content inputs.new ≡ I.content inputs.old }
    ensures asks { AsksFor (I.asked inputs.old) (I.asked inputs.new) (name.now ∷ []) }
    ensures steady { OnFound result (NoLoadFailed I.failures inputs.old inputs.new) }
{
    match load(alloc, inputs, name, MOST_SCRIPT_BYTES)? {
        Some(bytes) => spelled_script(alloc, bytes.as_slice()),
        None => Err(LoadStop::Refused(Refusal::Script {
            line: 0,
            kind: ScriptKind::TooLong,
        })),
    }
}

/// That a record of the table file of a source is refused.
fn refused_table(alloc: Global, source: &Node, number: u64, kind: TextKind) -> LoadStop
    ensures { IsRefusal (Table source.now.name number kind) result }
{
    match String::from_str(alloc, source.name.as_str()) {
        Ok(name) => LoadStop::Refused(Refusal::Table {
            source: Name::of(name),
            number,
            kind,
        }),
        Err(_) => LoadStop::Memory,
    }
}

/// The table that bytes spell, of a source.
fn spelled_table(alloc: Global, source: &Node, bytes: &[u8]) -> Result<RawTable, LoadStop>
    ensures { Says (table_in source.now bytes.now) (λ table. table) result }
{
    match read_table(alloc, bytes, &source.columns) {
        Ok(table) => Ok(table),
        Err(TextFault::Memory) => Err(LoadStop::Memory),
        Err(TextFault::Refused { number, kind }) => Err(refused_table(alloc, source, number, kind)),
    }
}

/// The table of a file, of a source.
pub(crate) fn load_table<I: Inputs>(
    alloc: Global,
    inputs: &mut I,
    source: &Node,
    name: &str,
) -> Result<RawTable, LoadStop>
    ensures reads { Reads I.told (LoadFailed I.failures inputs.old inputs.new) (IsOneOf (name.now ∷ []))
        (option_map (table_in source.now) (I.content inputs.old name.now)) (λ table. table) result }
    ensures table { IfOk result (IsTableOf source.now.columns) }
    ensures never_falls { (other : List ℕ) → I.failures inputs.old other ≤ I.failures inputs.new other }
    ensures kept { I.content inputs.new ≡ I.content inputs.old }
    ensures asks { AsksFor (I.asked inputs.old) (I.asked inputs.new) (name.now ∷ []) }
    ensures steady { OnFound result (NoLoadFailed I.failures inputs.old inputs.new) }
{
    match load(alloc, inputs, name, MOST_BYTES)? {
        Some(bytes) => spelled_table(alloc, source, bytes.as_slice()),
        None => Err(refused_table(alloc, source, 0, TextKind::TooLong)),
    }
}

/// The feed that bytes spell, of a plan.
fn spelled_feed(alloc: Global, plan: &Plan, bytes: &[u8]) -> Result<RawFeed, LoadStop>
    requires { length plan.now.nodes < 2 ^ 32 }
    ensures { Says (feed_in plan.now bytes.now) (λ feed. feed) result }
{
    match read_feed(alloc, bytes, plan) {
        Ok(feed) => Ok(feed),
        Err(TextFault::Memory) => Err(LoadStop::Memory),
        Err(TextFault::Refused { number, kind }) => {
            Err(LoadStop::Refused(Refusal::Feed { number, kind }))
        }
    }
}

/// The feed of a file, of a plan.
pub(crate) fn load_feed<I: Inputs>(
    alloc: Global,
    inputs: &mut I,
    plan: &Plan,
    name: &str,
) -> Result<RawFeed, LoadStop>
    requires { length plan.now.nodes < 2 ^ 32 }
    ensures reads { Reads I.told (LoadFailed I.failures inputs.old inputs.new) (IsOneOf (name.now ∷ []))
        (option_map (feed_in plan.now) (I.content inputs.old name.now)) (λ feed. feed) result }
    ensures feed { IfOk result (λ feed. (bytes : List ℕ) × (feed_of plan.now bytes ≡ Ok feed)) }
    ensures never_falls { (other : List ℕ) → I.failures inputs.old other ≤ I.failures inputs.new other }
    ensures kept { I.content inputs.new ≡ I.content inputs.old }
    ensures asks { AsksFor (I.asked inputs.old) (I.asked inputs.new) (name.now ∷ []) }
    ensures steady { OnFound result (NoLoadFailed I.failures inputs.old inputs.new) }
{
    match load(alloc, inputs, name, MOST_BYTES)? {
        Some(bytes) => spelled_feed(alloc, plan, bytes.as_slice()),
        None => Err(LoadStop::Refused(Refusal::Feed {
            number: 0,
            kind: TextKind::TooLong,
        })),
    }
}
