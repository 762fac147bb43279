//! The texts of a run, each once and in byte order.

ghost use Rattle.std.specs.Prelude.{◌≡◌, OnOk, IfOk, flat_map};
ghost use Rattle.tick_model.specs.LawfulRuns.{AreTexts};
ghost use Rattle.feed_reader.specs.Coding.{with_texts, table_texts, texts_of as texts_of_run};

use crate::noted::NotedTexts;
use crate::raw::{RawFeed, RawTable};
use std::alloc::{AllocError, Global};
use tick_model::items::Items;
use tick_model::name::Name;

fn note_names<'a>(texts: &mut NotedTexts<'a>, names: &'a [Name]) -> Result<(), AllocError>
    ensures { OnOk result (texts.new ≡ with_texts texts.old names.now) }
{
    for name in names {
        texts.note(name.as_str())?;
    }
    Ok(())
}

fn note_tables<'a>(texts: &mut NotedTexts<'a>, tables: &'a [RawTable]) -> Result<(), AllocError>
    requires { AreTexts texts.old }
    ensures { OnOk result (texts.new ≡ with_texts texts.old (flat_map table_texts tables.now)) }
{
    for table in tables {
        note_names(texts, table.rows.cell_texts())?;
    }
    Ok(())
}

/// The distinct texts of a script, of table files and of a feed, in byte order.
pub(crate) fn texts_of(
    alloc: Global,
    literals: &[Name],
    tables: &[RawTable],
    feed: &RawFeed,
) -> Result<Items<Name>, AllocError>
    ensures { IfOk result (λ texts. texts ≡ texts_of_run literals.now tables.now feed.now) }
{
    let mut texts = NotedTexts::new(alloc);
    note_names(&mut texts, literals)?;
    note_tables(&mut texts, tables)?;
    note_names(&mut texts, feed.batches.cell_texts())?;
    texts.names(alloc)
}
