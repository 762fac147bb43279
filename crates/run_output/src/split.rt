//! Where records and entries end.
ghost use Rattle.std.specs.Prelude.{◌≡◌, ℕ, ◌<◌, ◌==◌, ◌&&◌, ◌++◌, ◌∷◌, List, false, not, length};
ghost use Rattle.std.specs.List.{AllByRecursion};
ghost use Rattle.tick_model.specs.Texts.{record_text, records_text};
ghost use Rattle.run_output.specs.Splitting.{IsPart, begins_part as begins_with_part};

/// Whether a record ends with this byte: a line feed outside quotes.
fn ends_record(byte: u8, is_quoted: bool) -> bool
    ensures { result ≡ ((byte == 10) && not is_quoted) }
{
    byte == b'\n' && !is_quoted
}

/// What stands behind the first record of a text. A record ends with the first line feed outside quotes; where there is none, nothing
/// stands behind it.
fn after_record(bytes: &[u8]) -> &[u8]
    ensures behind { (front : List ℕ) × (bytes.now ≡ front ++ result.now) }
    ensures shorter { 0 < length bytes.now → length result.now < length bytes.now }
    ensures told { (first : List ℕ) (others : List (List ℕ)) (rest : List ℕ) → bytes.now ≡ record_text (first ∷ others) ++ rest → result.now ≡ rest }
{
    let mut rest = bytes;
    let mut is_quoted = false;
    while let Some((byte, others)) = rest.split_first() {
        rest = others;
        if *byte == b'"' {
            is_quoted = !is_quoted;
        } else if ends_record(*byte, is_quoted) {
            return rest;
        }
    }
    rest
}

/// Whether a text begins with a record that belongs to the entry before it.
fn begins_part(bytes: &[u8]) -> bool
    ensures { result ≡ begins_with_part bytes.now }
{
    bytes.get(1) == Some(&b',')
}

/// The text of the first entry, and what stands behind it. An entry ends where a record begins that is no part of one.
pub(crate) fn split_entry(bytes: &[u8]) -> (&[u8], &[u8])
    requires { 0 < length bytes.now }
    ensures both { bytes.now ≡ result.0.now ++ result.1.now }
    ensures shorter { length result.1.now < length bytes.now }
    ensures told { (first : List ℕ) (others : List (List ℕ)) (parts : List (List (List ℕ))) (rest : List ℕ) → AllByRecursion IsPart parts → begins_with_part rest ≡ false
        → bytes.now ≡ records_text ((first ∷ others) ∷ parts) ++ rest → (result.0.now ≡ records_text ((first ∷ others) ∷ parts)) × (result.1.now ≡ rest) }
{
    let mut rest = after_record(bytes);
    while begins_part(rest) {
        rest = after_record(rest);
    }
    bytes.split_at(bytes.len() - rest.len())
}
