//! One entry, read back.
ghost use Rattle.std.specs.Prelude.{◌≡◌, ℕ, ◌^◌, ◌<◌, List, [], ◌∷◌, true, codes, drop, length, map, IfOk, IfSome, Some, slice_index_or};
ghost use Rattle.tick_model.specs.Changes.{Change as ChangeOf};
ghost use Rattle.tick_model.specs.Names.{are_distinct};
ghost use Rattle.tick_model.specs.Texts.{done_record, record_text};
ghost use Rattle.update_text.specs.declared.shown.Shown.{Shown as ShownOf};
ghost use Rattle.update_text.specs.declared.printed.Snapshot.{Snapshot as SnapshotOf};
ghost use Rattle.update_text.specs.Reading.{Gives};
ghost use Rattle.run_output.specs.declared.entry.OutputEntry.{OutputEntry as EntryOf};
ghost use Rattle.run_output.specs.declared.entry.OutputEntry.TheVariants.{Update, Snapshot as SnapshotEntry, Done, Fault};
ghost use Rattle.run_output.specs.Entries.{AreShown, IsEntry, entry_text, shown_at};

use crate::entry::OutputEntry;
use std::alloc::Global;
use tick_model::items::Items;
use tick_model::name::Name;
use update_text::{
    PrintedFault, Shown, read_first_fields, read_number, read_record, read_snapshot, read_update,
};

/// The place of the table of this name.
fn table_named(tables: &[Shown], name: &[u8]) -> Option<usize>
    ensures there { IfSome result (λ table. table < length tables.now) }
    ensures told { (table : ℕ) → are_distinct (map (λ shown. shown.name) tables.now) ≡ true → table < length tables.now → name.now ≡ (shown_at tables.now table).name
        → result ≡ Some table }
{
    tables
        .iter()
        .position(|shown| shown.name.as_str().as_bytes() == name)
}

/// Reads an update of the table of this name.
fn read_change(
    alloc: Global,
    bytes: &[u8],
    tables: &[Shown],
    texts: &Items<Name>,
    name: &[u8],
) -> Result<OutputEntry, PrintedFault>
    requires { AreShown tables.now texts.now }
    ensures entry { IfOk result (IsEntry tables.now texts.now) }
    ensures text { IfOk result (λ entry. bytes.now ≡ entry_text tables.now texts.now entry) }
    ensures told { (table step : ℕ) (change : ChangeOf) → IsEntry tables.now texts.now (Update table step change) → name.now ≡ (shown_at tables.now table).name
        → bytes.now ≡ entry_text tables.now texts.now (Update table step change) → Gives result (λ read. read ≡ Update table step change) }
{
    let Some(table) = table_named(tables, name) else {
        return Err(PrintedFault::NotPrinted);
    };
    let printed = read_update(alloc, bytes, &tables[table], texts)?;
    Ok(OutputEntry::Update {
        table,
        step: printed.step,
        change: printed.change,
    })
}

/// Reads a snapshot of the table of this name.
fn read_table(
    alloc: Global,
    bytes: &[u8],
    tables: &[Shown],
    texts: &Items<Name>,
    name: &[u8],
) -> Result<OutputEntry, PrintedFault>
    requires { AreShown tables.now texts.now }
    ensures entry { IfOk result (IsEntry tables.now texts.now) }
    ensures text { IfOk result (λ entry. bytes.now ≡ entry_text tables.now texts.now entry) }
    ensures told { (table : ℕ) (snapshot : SnapshotOf) → IsEntry tables.now texts.now (SnapshotEntry table snapshot) → name.now ≡ (shown_at tables.now table).name
        → bytes.now ≡ entry_text tables.now texts.now (SnapshotEntry table snapshot) → Gives result (λ read. read ≡ SnapshotEntry table snapshot) }
{
    let Some(table) = table_named(tables, name) else {
        return Err(PrintedFault::NotPrinted);
    };
    let snapshot = read_snapshot(alloc, bytes, &tables[table], texts)?;
    Ok(OutputEntry::Snapshot { table, snapshot })
}

/// Whether a field is this tag.
fn is_tag(field: &[u8], tag: &[u8]) -> bool
    ensures yes { result ≡ true → field.now ≡ tag.now }
    ensures told { field.now ≡ tag.now → result ≡ true }
{
    field == tag
}

/// The field at a place. Past the last there is an empty one.
fn field_at(fields: &Items<Items<u8>>, place: usize) -> &[u8]
    ensures { result.now ≡ slice_index_or fields.now place [] }
{
    fields
        .as_slice()
        .get(place)
        .map_or(b"", |field| field.as_slice())
}

/// Whether the fields are those of the end: the tag, and a number.
fn is_done(fields: &Items<Items<u8>>) -> bool
    ensures yes { result ≡ true → fields.now ≡ codes "done" ∷ slice_index_or fields.now 1 [] ∷ [] }
    ensures told { (number : List ℕ) → fields.now ≡ codes "done" ∷ number ∷ [] → result ≡ true }
{
    if fields.len() != 2 {
        return false;
    }
    is_tag(field_at(fields, 0), b"done")
}

/// Reads the end of an output without a fault.
fn read_done(alloc: Global, bytes: &[u8]) -> Result<OutputEntry, PrintedFault>
    ensures entry { (tables : List ShownOf) (texts : List (List ℕ)) → IfOk result (IsEntry tables texts) }
    ensures text { (tables : List ShownOf) (texts : List (List ℕ)) → IfOk result (λ entry. bytes.now ≡ entry_text tables texts entry) }
    ensures told { (step : ℕ) → step < 2 ^ 64 → bytes.now ≡ record_text (done_record step) → Gives result (λ read. read ≡ Done step) }
{
    let fields = read_record(alloc, bytes)?;
    if is_done(&fields) {
        let step = read_number(field_at(&fields, 1))?;
        Ok(OutputEntry::Done { step })
    } else {
        Err(PrintedFault::NotPrinted)
    }
}

/// The fields behind the first.
fn behind_first(fields: Items<Items<u8>>) -> Items<Items<u8>>
    requires { 0 < length fields }
    ensures { result ≡ drop 1 fields }
{
    let mut others = fields.into_vec();
    let _ = others.remove(0);
    Items::of(others)
}

/// Reads the end of an output by a fault.
fn read_fault(alloc: Global, bytes: &[u8]) -> Result<OutputEntry, PrintedFault>
    ensures entry { (tables : List ShownOf) (texts : List (List ℕ)) → IfOk result (IsEntry tables texts) }
    ensures text { (tables : List ShownOf) (texts : List (List ℕ)) → IfOk result (λ entry. bytes.now ≡ entry_text tables texts entry) }
    ensures told { (fields : List (List ℕ)) → bytes.now ≡ record_text (codes "fault" ∷ fields) → Gives result (λ read. read ≡ Fault fields) }
{
    let fields = read_record(alloc, bytes)?;
    if is_tag(field_at(&fields, 0), b"fault") {
        Ok(OutputEntry::Fault {
            fields: behind_first(fields),
        })
    } else {
        Err(PrintedFault::NotPrinted)
    }
}

/// The entry whose text this is.
pub(crate) fn read_entry(
    alloc: Global,
    bytes: &[u8],
    tables: &[Shown],
    texts: &Items<Name>,
) -> Result<OutputEntry, PrintedFault>
    requires { AreShown tables.now texts.now }
    ensures entry { IfOk result (IsEntry tables.now texts.now) }
    ensures text { IfOk result (λ entry. bytes.now ≡ entry_text tables.now texts.now entry) }
    ensures told { (entry : EntryOf) → IsEntry tables.now texts.now entry → bytes.now ≡ entry_text tables.now texts.now entry → Gives result (λ read. read ≡ entry) }
{
    let fields = read_first_fields(alloc, bytes)?;
    let tag = field_at(&fields, 0);
    if is_tag(tag, b"step") {
        read_change(alloc, bytes, tables, texts, field_at(&fields, 2))
    } else if is_tag(tag, b"snap") {
        read_table(alloc, bytes, tables, texts, field_at(&fields, 4))
    } else if is_tag(tag, b"done") {
        read_done(alloc, bytes)
    } else {
        read_fault(alloc, bytes)
    }
}
