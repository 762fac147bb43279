//! The tables that sources open with.

ghost use Rattle.std.specs.Prelude.{◌≡◌, ◌≤◌, ◌∷◌, [], ℕ, List, IfOk, MatchOption, drop, map};
ghost use Rattle.std.specs.Option.{option_to_list};
ghost use Rattle.feed_reader.specs.Assembled.{AreTablesOf, IsTableOf};
ghost use Rattle.tick_io.specs.Asked.{AsksFor};
ghost use Rattle.tick_model.specs.LawfulRuns.{sources_of};
ghost use Rattle.feed_run.specs.Headline.{IsOneOf, LoadFailed, NoLoadFailed};
ghost use Rattle.feed_run.specs.Readings.{first_file, no_rows as no_rows_at_all, opening_by, tables_found, tables_read};
ghost use Rattle.feed_run.specs.Stops.{Asks, OnFound, Reads};

use crate::readings::load_table;
use crate::refusal::LoadStop;
use feed_reader::{RawRows, RawTable};
use script_reader::script::SourceFile;
use std::alloc::{AllocError, Global};
use tick_io::Inputs;
use tick_model::items::Items;
use tick_model::plan::Node;
use tick_model::sources::is_source;

fn no_rows(alloc: Global) -> RawTable
    ensures { result ≡ no_rows_at_all }
{
    RawTable {
        rows: RawRows::new(alloc),
    }
}

/// What a source opens with: the rows of the first of the files, and none where there is no file.
fn opening<I: Inputs>(
    alloc: Global,
    inputs: &mut I,
    source: &Node,
    files: &[SourceFile],
) -> Result<RawTable, LoadStop>
    ensures reads { Reads I.told (LoadFailed I.failures inputs.old inputs.new) (IsOneOf (option_to_list (first_file files.now)))
        (opening_by (I.content inputs.old) source.now (first_file files.now)) (λ table. table) result }
    ensures table { IfOk result (IsTableOf source.now.columns) }
    ensures never_falls { (other : List ℕ) → I.failures inputs.old other ≤ I.failures inputs.new other }
    ensures kept { I.content inputs.new ≡ I.content inputs.old }
    ensures asks { MatchOption (first_file files.now) (I.asked inputs.new ≡ I.asked inputs.old)
        (λ file. AsksFor (I.asked inputs.old) (I.asked inputs.new) (file ∷ [])) }
    ensures steady { OnFound result (NoLoadFailed I.failures inputs.old inputs.new) }
{
    let [first, ..] = files else {
        return Ok(no_rows(alloc));
    };
    match &first.file {
        Some(file) => load_table(alloc, inputs, source, file.as_str()),
        None => Ok(no_rows(alloc)),
    }
}

fn after_first(files: &[SourceFile]) -> &[SourceFile]
    ensures { result.now ≡ drop 1 files.now }
{
    match files.split_first() {
        Some((_, others)) => others,
        None => files,
    }
}

/// The sources among nodes.
fn sources_among(alloc: Global, nodes: &[Node]) -> Result<Vec<&Node>, AllocError>
    ensures { IfOk result (λ sources. map (λ source. source.now) sources.items ≡ sources_of nodes.now) }
{
    let mut sources = Vec::new(alloc);
    for node in nodes {
        if is_source(node) {
            sources.push(node)?;
        }
    }
    Ok(sources)
}

/// The tables of sources, one after the other, each with the next of the files.
fn open_sources<I: Inputs>(
    alloc: Global,
    inputs: &mut I,
    sources: &[&Node],
    files: &[SourceFile],
) -> Result<Items<RawTable>, LoadStop>
    ensures reads { Reads I.told (LoadFailed I.failures inputs.old inputs.new)
        (IsOneOf (tables_read (I.content inputs.old) (map (λ source. source.now) sources.now) files.now))
        (tables_found (I.content inputs.old) (map (λ source. source.now) sources.now) files.now) (λ tables. tables) result }
    ensures tables { IfOk result (AreTablesOf (map (λ source. source.now) sources.now)) }
    ensures never_falls { (other : List ℕ) → I.failures inputs.old other ≤ I.failures inputs.new other }
    ensures kept { I.content inputs.new ≡ I.content inputs.old }
    ensures asks { Asks I.told (I.asked inputs.old) (I.asked inputs.new)
        (tables_read (I.content inputs.old) (map (λ source. source.now) sources.now) files.now) result }
    ensures steady { OnFound result (NoLoadFailed I.failures inputs.old inputs.new) }
{
    let mut tables = Items::new(alloc);
    let mut left = files;
    for source in sources {
        tables.push(opening(alloc, inputs, source, left)?)?;
        left = after_first(left);
    }
    Ok(tables)
}

/// The tables of the sources among nodes, each with the next of the files.
pub(crate) fn load_tables<I: Inputs>(
    alloc: Global,
    inputs: &mut I,
    nodes: &[Node],
    files: &[SourceFile],
) -> Result<Items<RawTable>, LoadStop>
    ensures reads { Reads I.told (LoadFailed I.failures inputs.old inputs.new)
        (IsOneOf (tables_read (I.content inputs.old) (sources_of nodes.now) files.now))
        (tables_found (I.content inputs.old) (sources_of nodes.now) files.now) (λ tables. tables) result }
    ensures tables { IfOk result (AreTablesOf (sources_of nodes.now)) }
    ensures never_falls { (other : List ℕ) → I.failures inputs.old other ≤ I.failures inputs.new other }
    ensures kept { I.content inputs.new ≡ I.content inputs.old }
    ensures asks { Asks I.told (I.asked inputs.old) (I.asked inputs.new)
        (tables_read (I.content inputs.old) (sources_of nodes.now) files.now) result }
    ensures steady { OnFound result (NoLoadFailed I.failures inputs.old inputs.new) }
{
    let sources = sources_among(alloc, nodes)?;
    open_sources(alloc, inputs, sources.as_slice(), files)
}
