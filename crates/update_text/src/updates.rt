//! Changes as records.
ghost use Rattle.std.specs.Prelude.{◌≡◌, ◌≤◌, OnOk, OnErr, IfOk, IsErrOf, length, false};
ghost use Rattle.std.specs.Io.KnownBytes.{append_known};
ghost use Rattle.tick_io.specs.Counts.{Rose};
ghost use Rattle.tick_io.specs.Written.{AppendsPrefix};
ghost use Rattle.tick_model.specs.Changes.{is_empty};
ghost use Rattle.tick_model.specs.Printable.{IsPrintable};
ghost use Rattle.tick_model.specs.Texts.{records_text};
ghost use Rattle.update_text.specs.Told.{told_change, update_shown};

use crate::changes::{change_text, count_records};
use crate::told::told_cells;
use crate::{Shown, WriteFault};
use std::alloc::{AllocError, Global};
use tick_io::{Sink, put_all};
use tick_model::items::Items;
use tick_model::name::Name;
use tick_table::TickTable;

/// Writes the records of the last change of a table, and gives their number. It writes nothing where the update is empty.
///
/// The table has one column for each column shown, and its change can be printed. Only the rows that it tells are read.
///
/// After an error a prefix of the text was written.
pub fn write_update<S: Sink>(
    alloc: Global,
    sink: &mut S,
    step: u64,
    shown: &Shown,
    texts: &Items<Name>,
    table: &TickTable,
) -> Result<u64, WriteFault>
    requires width { table.now.new.width ≡ length shown.now.columns }
    requires printable { IsPrintable shown.now.columns texts.now (told_change table.now) }
    ensures count { IfOk result (λ count. count ≡ length (update_shown step shown.now texts.now table.now)) }
    ensures whole { OnOk result (S.bytes sink.new ≡ append_known (S.bytes sink.old)
        (records_text (update_shown step shown.now texts.now table.now))) }
    ensures err { OnErr result (AppendsPrefix (S.bytes sink.old) (S.bytes sink.new)
        (records_text (update_shown step shown.now texts.now table.now))) }
    ensures failed { IsErrOf result WriteFault.Failed
        → Rose (S.failures sink.old) (S.failures sink.new) }
    ensures never_falls { S.failures sink.old ≤ S.failures sink.new }
    ensures steady { OnOk result (S.failures sink.new ≡ S.failures sink.old) }
{
    let update = table.update();
    if update.is_empty() {
        return Ok(0);
    }
    let text = update_text(alloc, step, shown, texts, table)?;
    put_all(sink, text.as_slice())?;
    Ok(count_records(update))
}

/// The text of the last change of a table, which is not empty.
fn update_text(
    alloc: Global,
    step: u64,
    shown: &Shown,
    texts: &Items<Name>,
    table: &TickTable,
) -> Result<Vec<u8>, AllocError>
    requires width { table.now.new.width ≡ length shown.now.columns }
    requires printable { IsPrintable shown.now.columns texts.now (told_change table.now) }
    requires some { is_empty table.now.update ≡ false }
    ensures { IfOk result (λ text. text.items ≡ records_text (update_shown step shown.now texts.now table.now)) }
{
    let _width = table.width();
    let cells = told_cells(table);
    change_text(alloc, step, shown, texts, table.update(), cells)
}
