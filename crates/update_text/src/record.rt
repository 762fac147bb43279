//! Whole records.
ghost use Rattle.std.specs.Prelude.{◌≡◌, ◌≤◌, ◌++◌, OnOk, OnErr, IsErrOf, flat_map, map, string_bytes};
ghost use Rattle.std.specs.Io.KnownBytes.{append_known};
ghost use Rattle.tick_io.specs.Counts.{Rose};
ghost use Rattle.tick_io.specs.Written.{AppendsPrefix};
ghost use Rattle.tick_model.specs.Texts.{comma_before, fields_text, record_text};

use crate::WriteFault;
use crate::fields::push_field;
use std::alloc::{AllocError, Global};
use tick_io::{Sink, put_all};

/// Appends a comma and a field.
pub(crate) fn push_next_field(text: &mut Vec<u8>, field: &[u8]) -> Result<(), AllocError>
    ensures { OnOk result (text.new.items ≡ text.old.items ++ comma_before field.now) }
{
    text.push(b',')?;
    push_field(text, field)
}

/// Appends these fields, each after a comma.
fn push_next_fields(text: &mut Vec<u8>, fields: &[String]) -> Result<(), AllocError>
    ensures { OnOk result (text.new.items ≡ text.old.items ++ flat_map comma_before (map string_bytes fields.now)) }
{
    for field in fields {
        push_next_field(text, field.as_bytes())?;
    }
    Ok(())
}

/// Appends the fields of a record, joined by commas.
fn push_fields(text: &mut Vec<u8>, fields: &[String]) -> Result<(), AllocError>
    ensures { OnOk result (text.new.items ≡ text.old.items ++ fields_text (map string_bytes fields.now)) }
{
    match fields {
        [] => Ok(()),
        [first, others @ ..] => {
            push_field(text, first.as_bytes())?;
            push_next_fields(text, others)
        }
    }
}

/// Writes one record of these fields.
///
/// After an error a prefix of its text was written.
pub fn write_fields<S: Sink>(
    alloc: Global,
    sink: &mut S,
    fields: &[String],
) -> Result<(), WriteFault>
    ensures whole { OnOk result (S.bytes sink.new
        ≡ append_known (S.bytes sink.old) (record_text (map string_bytes fields.now))) }
    ensures err { OnErr result (AppendsPrefix (S.bytes sink.old) (S.bytes sink.new)
        (record_text (map string_bytes fields.now))) }
    ensures failed { IsErrOf result WriteFault.Failed
        → Rose (S.failures sink.old) (S.failures sink.new) }
    ensures never_falls { S.failures sink.old ≤ S.failures sink.new }
    ensures steady { OnOk result (S.failures sink.new ≡ S.failures sink.old) }
{
    let mut text = Vec::new(alloc);
    push_fields(&mut text, fields)?;
    text.push(b'\n')?;
    put_all(sink, text.as_slice())?;
    Ok(())
}
