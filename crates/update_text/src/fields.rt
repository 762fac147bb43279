//! Fields as they stand in a record, appended to a buffer.
ghost use Rattle.std.specs.Prelude.{◌≡◌, [], ◌∷◌, ◌++◌, OnOk, flat_map};
ghost use Rattle.std.specs.List.{list_any};
ghost use Rattle.std.specs.Fmt.{decimal, signed_decimal};
ghost use Rattle.tick_model.specs.Texts.{needs_quotes as stands_in_quotes, doubled, field_text};

use itoa::Buffer;
use std::alloc::AllocError;

/// Whether a field that holds this byte stands in quotes.
fn needs_quotes(byte: u8) -> bool
    ensures { result ≡ stands_in_quotes byte }
{
    matches!(byte, b',' | b'"' | b'\r' | b'\n')
}

/// Whether a field stands in quotes.
fn is_quoted(field: &[u8]) -> bool
    ensures { result ≡ list_any stands_in_quotes field.now }
{
    field.iter().any(|byte| needs_quotes(*byte))
}

/// Appends a field, in quotes where it needs them.
pub(crate) fn push_field(text: &mut Vec<u8>, field: &[u8]) -> Result<(), AllocError>
    ensures { OnOk result (text.new.items ≡ text.old.items ++ field_text field.now) }
{
    if is_quoted(field) {
        push_quoted(text, field)
    } else {
        text.extend_from_slice(field)
    }
}

/// Appends a field in quotes.
fn push_quoted(text: &mut Vec<u8>, field: &[u8]) -> Result<(), AllocError>
    ensures { OnOk result (text.new.items
        ≡ text.old.items ++ (34 ∷ flat_map doubled field.now ++ 34 ∷ [])) }
{
    text.push(b'"')?;
    for byte in field {
        push_doubled(text, *byte)?;
    }
    text.push(b'"')?;
    Ok(())
}

/// Appends a byte of a field in quotes: a double quote stands twice.
fn push_doubled(text: &mut Vec<u8>, byte: u8) -> Result<(), AllocError>
    ensures { OnOk result (text.new.items ≡ text.old.items ++ doubled byte) }
{
    if byte == b'"' {
        text.extend_from_slice(b"\"\"")
    } else {
        text.push(byte)?;
        Ok(())
    }
}

/// Appends a number, which needs no quotes.
pub(crate) fn push_number(text: &mut Vec<u8>, number: u64) -> Result<(), AllocError>
    ensures { OnOk result (text.new.items ≡ text.old.items ++ field_text (decimal number)) }
{
    let mut digits = Buffer::new();
    text.extend_from_slice(digits.format(number).as_bytes())
}

/// Appends a number that may be negative, which needs no quotes.
pub(crate) fn push_signed(text: &mut Vec<u8>, number: i64) -> Result<(), AllocError>
    ensures { OnOk result (text.new.items ≡ text.old.items ++ field_text (signed_decimal number)) }
{
    let mut digits = Buffer::new();
    text.extend_from_slice(digits.format(number).as_bytes())
}
