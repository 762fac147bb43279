//! What is written at the end: one record, and the status that goes with it.

ghost use Rattle.std.specs.Io.KnownBytes.{append_known};
ghost use Rattle.std.specs.Prelude.{◌≡◌, ◌≤◌, ℕ, List, IfOk, IsErrOf, OnErr, OnOk};
ghost use Rattle.tick_io.specs.Counts.{Rose};
ghost use Rattle.tick_io.specs.Written.{AppendsPrefix};
ghost use Rattle.tick_model.specs.Texts.{record_text, records_text};
ghost use Rattle.feed_run.specs.Answers.{Ends, EndsByStop, status_of_write};
ghost use Rattle.feed_run.specs.Headline.{IsWritten};

use crate::fault_records::{refusal_record, refusal_status, unread_record};
use crate::fields::Fields;
use crate::refusal::LoadStop;
use std::alloc::{AllocError, Global};
use tick_io::Sink;
use tick_model::items::Items;
use update_text::{WriteFault, write_fields};

/// The status that goes with what was written.
fn status_after(status: u8, written: Result<(), WriteFault>) -> u8
    ensures { result ≡ status_of_write status written }
{
    match written {
        Ok(()) => status,
        Err(WriteFault::Memory) => 1,
        Err(WriteFault::Failed) => 10,
    }
}

/// Writes a record, unless memory ran out where it was made, and answers its status.
pub(crate) fn report<S: Sink>(
    alloc: Global,
    out: &mut S,
    status: u8,
    fields: Result<Fields, AllocError>,
) -> u8
    ensures ends { (told : List (List ℕ)) → IfOk fields (λ own. own ≡ told)
        → Ends status (record_text told) (Rose (S.failures out.old) (S.failures out.new)) (S.bytes out.old) (S.bytes out.new) result }
    ensures steady { IsWritten result → S.failures out.new ≡ S.failures out.old }
{
    match fields {
        Ok(fields) => {
            let written = write_fields(alloc, out, fields.as_slice());
            status_after(status, written)
        }
        Err(_) => 1,
    }
}

/// Writes records, one after the other.
fn write_records<S: Sink>(alloc: Global, out: &mut S, records: &[Fields]) -> Result<(), WriteFault>
    ensures whole { OnOk result (S.bytes out.new ≡ append_known (S.bytes out.old) (records_text records.now)) }
    ensures err { OnErr result (AppendsPrefix (S.bytes out.old) (S.bytes out.new) (records_text records.now)) }
    ensures failed { IsErrOf result WriteFault.Failed → Rose (S.failures out.old) (S.failures out.new) }
    ensures never_falls { S.failures out.old ≤ S.failures out.new }
    ensures steady { OnOk result (S.failures out.new ≡ S.failures out.old) }
{
    for fields in records {
        write_fields(alloc, out, fields.as_slice())?;
    }
    Ok(())
}

/// Writes records, unless memory ran out where they were made, and answers their status.
pub(crate) fn report_all<S: Sink>(
    alloc: Global,
    out: &mut S,
    status: u8,
    records: Result<Items<Fields>, AllocError>,
) -> u8
    ensures ends { (told : List ℕ) → IfOk records (λ own. records_text own ≡ told)
        → Ends status told (Rose (S.failures out.old) (S.failures out.new)) (S.bytes out.old) (S.bytes out.new) result }
    ensures steady { IsWritten result → S.failures out.new ≡ S.failures out.old }
{
    match records {
        Ok(records) => {
            let written = write_records(alloc, out, records.as_slice());
            status_after(status, written)
        }
        Err(_) => 1,
    }
}

/// Reports why there is no run.
pub(crate) fn report_stop<S: Sink>(alloc: Global, out: &mut S, stop: &LoadStop) -> u8
    ensures ends { EndsByStop stop.now (Rose (S.failures out.old) (S.failures out.new)) (S.bytes out.old) (S.bytes out.new) result }
    ensures steady { IsWritten result → S.failures out.new ≡ S.failures out.old }
{
    match stop {
        LoadStop::Memory => 1,
        LoadStop::Unread(name) => report(alloc, out, 3, unread_record(alloc, name.as_str())),
        LoadStop::Refused(refusal) => report(
            alloc,
            out,
            refusal_status(refusal),
            refusal_record(alloc, refusal),
        ),
    }
}
