//! Whole records, read back.
ghost use Rattle.std.specs.Prelude.{◌≡◌, ℕ, ◌^◌, ◌<◌, List, ◌∷◌, ◌++◌, [], flat_map, true, IfOk, OnOk};
ghost use Rattle.std.specs.Fmt.{decimal};
ghost use Rattle.tick_model.specs.Texts.{comma_before, fields_text, record_text};
ghost use Rattle.update_text.specs.Reading.{Gives, next_fields};

use crate::fields::push_field;
use crate::printed::PrintedFault;
use crate::read_fields::{
    begins_with_comma, number_of, read_field, read_line_end, read_next_field,
};
use crate::record::push_next_field;
use itoa::Buffer;
use std::alloc::{AllocError, Global};
use tick_model::items::Items;

/// Reads fields, each behind a comma, up to the end of their record, and puts them behind others.
fn read_next_fields<'a>(
    alloc: Global,
    bytes: &'a [u8],
    fields: &mut Items<Items<u8>>,
) -> Result<&'a [u8], PrintedFault>
    ensures { (told : List (List ℕ)) (rest : List ℕ) → bytes.now ≡ next_fields told rest
        → Gives result (λ left. (left.now ≡ rest) × (fields.new ≡ fields.old ++ told)) }
{
    let mut rest = bytes;
    while begins_with_comma(rest) {
        let mut field = Vec::new(alloc);
        rest = read_next_field(rest, &mut field)?;
        fields.push(Items::of(field))?;
    }
    read_line_end(rest)
}

/// The fields of the record that a text begins with. Of a text that begins with no record it gives any fields, or `NotPrinted`.
pub fn read_first_fields(alloc: Global, bytes: &[u8]) -> Result<Items<Items<u8>>, PrintedFault>
    ensures { (first : List ℕ) (others : List (List ℕ)) (rest : List ℕ) → bytes.now ≡ record_text (first ∷ others) ++ rest
        → Gives result (λ fields. fields ≡ first ∷ others) }
{
    let mut fields = Items::new(alloc);
    let mut first = Vec::new(alloc);
    let rest = read_field(bytes, &mut first)?;
    fields.push(Items::of(first))?;
    let _ = read_next_fields(alloc, rest, &mut fields)?;
    Ok(fields)
}

/// Appends these fields, each after a comma.
fn push_next_items(text: &mut Vec<u8>, fields: &[Items<u8>]) -> Result<(), AllocError>
    ensures { OnOk result (text.new.items ≡ text.old.items ++ flat_map comma_before fields.now) }
{
    for field in fields {
        push_next_field(text, field.as_slice())?;
    }
    Ok(())
}

/// Appends the fields of a record, joined by commas.
fn push_items(text: &mut Vec<u8>, fields: &[Items<u8>]) -> Result<(), AllocError>
    ensures { OnOk result (text.new.items ≡ text.old.items ++ fields_text fields.now) }
{
    match fields {
        [] => Ok(()),
        [first, others @ ..] => {
            push_field(text, first.as_slice())?;
            push_next_items(text, others)
        }
    }
}

/// The text of a record of these fields.
fn text_of_fields(alloc: Global, fields: &[Items<u8>]) -> Result<Vec<u8>, AllocError>
    ensures { IfOk result (λ text. text.items ≡ record_text fields.now) }
{
    let mut text = Vec::new(alloc);
    push_items(&mut text, fields)?;
    text.push(b'\n')?;
    Ok(text)
}

/// The fields of the one record whose text this is, of which there is one at least. `NotPrinted` comes exactly where the text is that of no
/// such record.
pub fn read_record(alloc: Global, bytes: &[u8]) -> Result<Items<Items<u8>>, PrintedFault>
    ensures text { IfOk result (λ fields. bytes.now ≡ record_text fields) }
    ensures told { (first : List ℕ) (others : List (List ℕ)) → bytes.now ≡ record_text (first ∷ others) → Gives result (λ fields. fields ≡ first ∷ others) }
{
    let fields = read_first_fields(alloc, bytes)?;
    let text = text_of_fields(alloc, fields.as_slice())?;
    if text.as_slice() == bytes {
        Ok(fields)
    } else {
        Err(PrintedFault::NotPrinted)
    }
}

/// Whether a number is written so.
fn is_decimal(number: u64, field: &[u8]) -> bool
    ensures yes { result ≡ true → field.now ≡ decimal number }
    ensures told { field.now ≡ decimal number → result ≡ true }
{
    let mut digits = Buffer::new();
    digits.format(number).as_bytes() == field
}

/// The number of 64 bits that a field is, written as numbers are. `NotPrinted` comes exactly where it is none.
pub fn read_number(field: &[u8]) -> Result<u64, PrintedFault>
    ensures text { IfOk result (λ number. field.now ≡ decimal number) }
    ensures told { (number : ℕ) → number < 2 ^ 64 → field.now ≡ decimal number → Gives result (λ read. read ≡ number) }
{
    let number = number_of(field)?;
    if is_decimal(number, field) {
        Ok(number)
    } else {
        Err(PrintedFault::NotPrinted)
    }
}
