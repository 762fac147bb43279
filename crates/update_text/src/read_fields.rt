//! Fields of records, read back: each call takes the text from a place on, and gives the text behind what it read.
ghost use Rattle.std.specs.Prelude.{◌≡◌, ℕ, ◌^◌, ◌<◌, ◌≤◌, List, ◌∷◌, ◌++◌, [], ℤ, length, flat_map, true, false, FitsSigned, IfOk, MatchOption};
ghost use Rattle.std.specs.Fmt.{decimal, signed_decimal};
ghost use Rattle.std.specs.Int.{w64};
ghost use Rattle.std.specs.List.{list_any, position_or_len};
ghost use Rattle.tick_model.specs.Texts.{doubled, field_text, needs_quotes};
ghost use Rattle.update_text.specs.Reading.{Gives, begins_with_end, has_comma, has_tag, is_end, next_fields};

use crate::printed::PrintedFault;
use std::str;

/// Whether a field ends before this byte.
fn ends_field(byte: u8) -> bool
    ensures { result ≡ is_end byte }
{
    matches!(byte, b',' | b'\n')
}

/// What stands behind this byte, where the text begins with it.
fn after_byte(bytes: &[u8], byte: u8) -> Option<&[u8]>
    ensures { MatchOption result ((left : List ℕ) → bytes.now ≡ byte ∷ left → ⊥) (λ left. bytes.now ≡ byte ∷ left.now) }
{
    let (first, others) = bytes.split_first()?;
    if *first == byte { Some(others) } else { None }
}

/// What stands behind a tag, where the text begins with a record that this tag begins.
pub(crate) fn after_tag(bytes: &[u8], tag: u8) -> Option<&[u8]>
    ensures { MatchOption result (has_tag tag bytes.now ≡ false) (λ fields. (has_tag tag bytes.now ≡ true) × (bytes.now ≡ tag ∷ fields.now)) }
{
    let fields = after_byte(bytes, tag)?;
    match after_byte(fields, b',') {
        Some(_) => Some(fields),
        None => None,
    }
}

/// Whether the text begins with a comma.
pub(crate) fn begins_with_comma(bytes: &[u8]) -> bool
    ensures { result ≡ has_comma bytes.now }
{
    bytes.first() == Some(&b',')
}

/// How many bytes stand before the first comma or line feed.
fn length_of_plain(bytes: &[u8]) -> usize
    ensures place { result ≡ position_or_len is_end bytes.now }
    ensures within { result ≤ length bytes.now }
{
    bytes
        .iter()
        .position(|byte| ends_field(*byte))
        .unwrap_or(bytes.len())
}

/// Reads a field that stands in no quotes.
fn read_plain<'a>(bytes: &'a [u8], field: &mut Vec<u8>) -> Result<&'a [u8], PrintedFault>
    ensures shorter { IfOk result (λ left. length left.now ≤ length bytes.now) }
    ensures told { (told rest : List ℕ) → list_any needs_quotes told ≡ false → begins_with_end rest ≡ true
        → bytes.now ≡ told ++ rest
        → Gives result (λ left. (left.now ≡ rest) × (field.new.items ≡ field.old.items ++ told)) }
{
    let (plain, rest) = bytes.split_at(length_of_plain(bytes));
    field.extend_from_slice(plain)?;
    Ok(rest)
}

/// Reads a field that stands in quotes, behind the first of them.
fn read_quoted<'a>(bytes: &'a [u8], field: &mut Vec<u8>) -> Result<&'a [u8], PrintedFault>
    ensures shorter { IfOk result (λ left. length left.now ≤ length bytes.now) }
    ensures told { (told rest : List ℕ) → begins_with_end rest ≡ true
        → bytes.now ≡ flat_map doubled told ++ 34 ∷ rest
        → Gives result (λ left. (left.now ≡ rest) × (field.new.items ≡ field.old.items ++ told)) }
{
    let mut rest = bytes;
    while let Some((byte, others)) = rest.split_first() {
        if *byte != b'"' {
            field.push(*byte)?;
            rest = others;
            continue;
        }
        match after_byte(others, b'"') {
            Some(behind) => {
                field.push(b'"')?;
                rest = behind;
            }
            None => return Ok(others),
        }
    }
    Err(PrintedFault::NotPrinted)
}

/// Reads a field.
pub(crate) fn read_field<'a>(bytes: &'a [u8], field: &mut Vec<u8>) -> Result<&'a [u8], PrintedFault>
    ensures shorter { IfOk result (λ left. length left.now ≤ length bytes.now) }
    ensures told { (told rest : List ℕ) → begins_with_end rest ≡ true
        → bytes.now ≡ field_text told ++ rest
        → Gives result (λ left. (left.now ≡ rest) × (field.new.items ≡ told)) }
{
    field.clear();
    match after_byte(bytes, b'"') {
        Some(quoted) => read_quoted(quoted, field),
        None => read_plain(bytes, field),
    }
}

/// Reads a comma and a field.
pub(crate) fn read_next_field<'a>(
    bytes: &'a [u8],
    field: &mut Vec<u8>,
) -> Result<&'a [u8], PrintedFault>
    ensures shorter { IfOk result (λ left. length left.now < length bytes.now) }
    ensures told { (told : List ℕ) (others : List (List ℕ)) (rest : List ℕ) → bytes.now ≡ next_fields (told ∷ others) rest
        → Gives result (λ left. (left.now ≡ next_fields others rest) × (field.new.items ≡ told)) }
{
    match after_byte(bytes, b',') {
        Some(others) => read_field(others, field),
        None => Err(PrintedFault::NotPrinted),
    }
}

/// Reads the end of a record.
pub(crate) fn read_line_end(bytes: &[u8]) -> Result<&[u8], PrintedFault>
    ensures shorter { IfOk result (λ left. length left.now ≤ length bytes.now) }
    ensures told { (rest : List ℕ) → bytes.now ≡ next_fields [] rest → Gives result (λ left. left.now ≡ rest) }
{
    match after_byte(bytes, b'\n') {
        Some(others) => Ok(others),
        None => Err(PrintedFault::NotPrinted),
    }
}

/// The number that a field tells.
pub(crate) fn number_of(field: &[u8]) -> Result<u64, PrintedFault>
    ensures { (number : ℕ) → number < 2 ^ 64 → field.now ≡ decimal number → Gives result (λ read. read ≡ number) }
{
    match str::from_utf8(field) {
        Ok(digits) => match digits.parse::<u64>() {
            Ok(number) => Ok(number),
            Err(_) => Err(PrintedFault::NotPrinted),
        },
        Err(_) => Err(PrintedFault::NotPrinted),
    }
}

/// The number that may be negative that a field tells.
pub(crate) fn signed_of(field: &[u8]) -> Result<i64, PrintedFault>
    ensures { (number : ℤ) → FitsSigned w64 number → field.now ≡ signed_decimal number → Gives result (λ read. read ≡ number) }
{
    match str::from_utf8(field) {
        Ok(digits) => match digits.parse::<i64>() {
            Ok(number) => Ok(number),
            Err(_) => Err(PrintedFault::NotPrinted),
        },
        Err(_) => Err(PrintedFault::NotPrinted),
    }
}

/// Reads a comma and a number.
pub(crate) fn read_next_number<'a>(
    bytes: &'a [u8],
    field: &mut Vec<u8>,
) -> Result<(u64, &'a [u8]), PrintedFault>
    ensures shorter { IfOk result (λ left. length left.1.now ≤ length bytes.now) }
    ensures told { (number : ℕ) (others : List (List ℕ)) (rest : List ℕ) → number < 2 ^ 64
        → bytes.now ≡ next_fields (decimal number ∷ others) rest
        → Gives result (λ read. (read.0 ≡ number) × (read.1.now ≡ next_fields others rest)) }
{
    let rest = read_next_field(bytes, field)?;
    let number = number_of(field)?;
    Ok((number, rest))
}

/// Reads a comma and a number that may be negative.
pub(crate) fn read_next_signed<'a>(
    bytes: &'a [u8],
    field: &mut Vec<u8>,
) -> Result<(i64, &'a [u8]), PrintedFault>
    ensures shorter { IfOk result (λ left. length left.1.now ≤ length bytes.now) }
    ensures told { (number : ℤ) (others : List (List ℕ)) (rest : List ℕ) → FitsSigned w64 number
        → bytes.now ≡ next_fields (signed_decimal number ∷ others) rest
        → Gives result (λ read. (read.0 ≡ number) × (read.1.now ≡ next_fields others rest)) }
{
    let rest = read_next_field(bytes, field)?;
    let number = signed_of(field)?;
    Ok((number, rest))
}
