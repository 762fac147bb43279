//! A whole output, read back.
ghost use Rattle.std.specs.Prelude.{◌≡◌, List, IfOk};
ghost use Rattle.std.specs.List.{AllByRecursion};
ghost use Rattle.update_text.specs.Reading.{Gives};
ghost use Rattle.run_output.specs.declared.entry.OutputEntry.{OutputEntry as EntryOf};
ghost use Rattle.run_output.specs.Entries.{AreShown, IsEntry, output_text};

use crate::entry::OutputEntry;
use crate::one_entry::read_entry;
use crate::split::split_entry;
use std::alloc::Global;
use tick_model::items::Items;
use tick_model::name::Name;
use update_text::{PrintedFault, Shown};

/// The entries of an output, in their order.
///
/// The tables are those that it may show, and the texts those of its run. `NotPrinted` comes exactly where the bytes are the text of no
/// entries.
pub fn read_output(
    alloc: Global,
    bytes: &[u8],
    tables: &Items<Shown>,
    texts: &Items<Name>,
) -> Result<Items<OutputEntry>, PrintedFault>
    requires { AreShown tables.now texts.now }
    ensures entries { IfOk result (AllByRecursion (IsEntry tables.now texts.now)) }
    ensures text { IfOk result (λ entries. bytes.now ≡ output_text tables.now texts.now entries) }
    ensures told { (entries : List EntryOf) → AllByRecursion (IsEntry tables.now texts.now) entries → bytes.now ≡ output_text tables.now texts.now entries
        → Gives result (λ read. read ≡ entries) }
{
    let mut entries = Items::new(alloc);
    let mut rest = bytes;
    while !rest.is_empty() {
        let (text, behind) = split_entry(rest);
        let entry = read_entry(alloc, text, tables.as_slice(), texts)?;
        entries.push(entry)?;
        rest = behind;
    }
    Ok(entries)
}
