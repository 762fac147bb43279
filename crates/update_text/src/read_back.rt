//! A change, read back from its text: its records are read one by one, and then the change that they tell is written again and compared.
ghost use Rattle.std.specs.Prelude.{◌≡◌, ℕ, ◌^◌, ◌<◌, ◌≤◌, List, length, true, false, IfOk, OnOk, IsErrOf};
ghost use Rattle.row_set.specs.Sets.{IsKeySet};
ghost use Rattle.shift_data.specs.ShiftLists.{IsShiftList};
ghost use Rattle.tick_model.specs.declared.table.PlainRow.{PlainRow};
ghost use Rattle.tick_model.specs.Changes.{Change as ChangeOf, is_empty};
ghost use Rattle.tick_model.specs.Printable.{IsPrintable};
ghost use Rattle.tick_model.specs.Texts.{records_text};
ghost use Rattle.update_text.specs.OneToOne.{IsPrinted, TellApart, change_text as text_of};
ghost use Rattle.update_text.specs.Reading.{AreTold, Gives, IsConsistent};
ghost use Rattle.update_text.specs.Told.{change_with, parts_shown};

use crate::Shown;
use crate::changes::change_text;
use crate::printed::{Printed, PrintedFault};
use crate::read_changes::{read_columns, read_removed, read_shifts, read_step};
use crate::read_rows::read_rows;
use row_set::RowSet;
use shift_data::ShiftData;
use std::alloc::{AllocError, Global};
use table_update::{ColumnSet, Update};
use tick_model::items::Items;
use tick_model::name::Name;
use tick_model::plan::ColumnSpec;
use tick_table::Change;

/// Reads the records of a change behind the first one.
fn read_parts(
    alloc: Global,
    bytes: &[u8],
    columns: &[ColumnSpec],
    texts: &[Name],
    field: &mut Vec<u8>,
) -> Result<(Update, Vec<i64>), PrintedFault>
    requires { length columns.now ≤ 32 }
    ensures read { IfOk result (λ read. (added : List PlainRow) × (modified : List PlainRow) × AreTold columns.now texts.now added modified (change_with read.0 read.1.items)) }
    ensures told { (change : ChangeOf) → TellApart columns.now texts.now → IsPrintable columns.now texts.now change
        → bytes.now ≡ records_text (parts_shown columns.now texts.now change)
        → Gives result (λ read. change_with read.0 read.1.items ≡ change) }
{
    let mut removed = RowSet::new(alloc);
    let mut shifted = ShiftData::new(alloc);
    let mut added = RowSet::new(alloc);
    let mut modified = RowSet::new(alloc);
    let mut chosen = ColumnSet::none();
    let mut cells = Vec::new(alloc);
    let rest = read_removed(bytes, &mut removed, field)?;
    let rest = read_shifts(rest, &mut shifted, field)?;
    let rest = read_rows(rest, b'a', columns, texts, &mut added, &mut cells, field)?;
    let rest = read_columns(rest, columns, &mut chosen, field)?;
    let _ = read_rows(rest, b'm', columns, texts, &mut modified, &mut cells, field)?;
    let update = Update {
        removed,
        added,
        modified,
        shifted,
        columns: chosen,
    };
    Ok((update, cells))
}

/// Whether no row is in both sets, and columns are told where rows are.
fn belong_together(is_apart: bool, no_columns: bool, no_rows: bool) -> bool
    ensures yes { result ≡ true → (is_apart ≡ true) × (no_columns ≡ no_rows) }
    ensures told { is_apart ≡ true → no_columns ≡ no_rows → result ≡ true }
{
    if is_apart {
        no_columns == no_rows
    } else {
        false
    }
}

/// Whether the parts of an update belong together: no row is both added and modified, and columns are told where rows are modified.
fn is_consistent(update: &Update) -> Result<bool, AllocError>
    ensures yes { IfOk result (λ consistent. consistent ≡ true → IsConsistent update.now) }
    ensures told { IfOk result (λ consistent. IsConsistent update.now → consistent ≡ true) }
    ensures removed { OnOk result (IsKeySet update.now.removed) }
    ensures added { OnOk result (IsKeySet update.now.added) }
    ensures modified { OnOk result (IsKeySet update.now.modified) }
    ensures shifted { OnOk result (IsShiftList update.now.shifted) }
{
    let _removed = update.removed();
    let _ranges = update.shifted().ranges();
    let modified = update.modified();
    let both = modified.intersect(update.added())?;
    let is_apart = both.is_empty();
    let no_columns = update.columns().is_empty();
    let no_rows = modified.is_empty();
    Ok(belong_together(is_apart, no_columns, no_rows))
}

/// Reads the update and the cells that a text tells, and the step.
fn read_records(
    alloc: Global,
    bytes: &[u8],
    shown: &Shown,
    texts: &Items<Name>,
) -> Result<(u64, Update, Vec<i64>), PrintedFault>
    requires { length shown.now.columns ≤ 32 }
    ensures read { IfOk result (λ read. (added : List PlainRow) × (modified : List PlainRow) × AreTold shown.now.columns texts.now added modified (change_with read.1 read.2.items)) }
    ensures told { (step : ℕ) (change : ChangeOf) → TellApart shown.now.columns texts.now → IsPrinted shown.now.columns texts.now step change
        → bytes.now ≡ text_of step shown.now.name shown.now.columns texts.now change
        → Gives result (λ read. (read.0 ≡ step) × (change_with read.1 read.2.items ≡ change)) }
{
    let mut field = Vec::new(alloc);
    let (step, rest) = read_step(bytes, &mut field)?;
    let (update, cells) = read_parts(
        alloc,
        rest,
        shown.columns.as_slice(),
        texts.as_slice(),
        &mut field,
    )?;
    Ok((step, update, cells))
}

/// The change that was read, where its text is the one that it was read from.
fn compared(
    alloc: Global,
    bytes: &[u8],
    shown: &Shown,
    texts: &Items<Name>,
    step: u64,
    update: Update,
    cells: Vec<i64>,
) -> Result<Printed, PrintedFault>
    requires few { length shown.now.columns ≤ 32 }
    requires printable { IsPrintable shown.now.columns texts.now (change_with update cells.items) }
    requires some { is_empty update ≡ false }
    ensures within { step < 2 ^ 64 }
    ensures step { IfOk result (λ printed. printed.step ≡ step) }
    ensures change { IfOk result (λ printed. printed.change ≡ change_with update cells.items) }
    ensures text { OnOk result (bytes.now ≡ text_of step shown.now.name shown.now.columns texts.now (change_with update cells.items)) }
    ensures none { IsErrOf result PrintedFault.NotPrinted → bytes.now ≡ text_of step shown.now.name shown.now.columns texts.now (change_with update cells.items) → ⊥ }
{
    let text = change_text(alloc, step, shown, texts, &update, &cells)?;
    if text.as_slice() == bytes {
        let change = Change {
            update,
            cells: Items::of(cells),
        };
        Ok(Printed { step, change })
    } else {
        Err(PrintedFault::NotPrinted)
    }
}

/// The one change, and its step, whose text this is, for the name, the columns and the texts.
///
/// There are 1 to 32 columns of distinct names, and the texts are not empty and rise in the order of their bytes. `NotPrinted` comes
/// exactly where the text is that of no change that can be printed and is not empty, at a step of 64 bits.
pub fn read_update(
    alloc: Global,
    bytes: &[u8],
    shown: &Shown,
    texts: &Items<Name>,
) -> Result<Printed, PrintedFault>
    requires some { 1 ≤ length shown.now.columns }
    requires few { length shown.now.columns ≤ 32 }
    requires apart { TellApart shown.now.columns texts.now }
    ensures printed { IfOk result (λ printed. IsPrinted shown.now.columns texts.now printed.step printed.change) }
    ensures text { IfOk result (λ printed. bytes.now ≡ text_of printed.step shown.now.name shown.now.columns texts.now printed.change) }
    ensures none { IsErrOf result PrintedFault.NotPrinted → (step : ℕ) (change : ChangeOf) → IsPrinted shown.now.columns texts.now step change
        → bytes.now ≡ text_of step shown.now.name shown.now.columns texts.now change → ⊥ }
{
    let (step, update, cells) = read_records(alloc, bytes, shown, texts)?;
    if update.is_empty() {
        return Err(PrintedFault::NotPrinted);
    }
    let consistent = is_consistent(&update)?;
    if consistent {
        return compared(alloc, bytes, shown, texts, step, update, cells);
    }
    Err(PrintedFault::NotPrinted)
}
