//! Names of tables and columns: what is a name, and that none stands twice.

ghost use Rattle.std.specs.Prelude.{◌≡◌, map};
ghost use Rattle.std.specs.List.{list_all};
ghost use Rattle.tick_model.specs.Names.{is_letter as is_letter_code, is_name_byte as is_name_code, is_one_of, is_reserved as is_reserved_word, is_name as is_name_of, are_distinct as are_distinct_names};

use crate::plan::{ColumnSpec, Node, RESERVED};

/// The most bytes that may follow the first of a name.
const MOST_OTHERS: usize = 31;

/// What has a name.
pub trait Named {
    ghost use Rattle.std.specs.Prelude.{◌≡◌, List, ℕ};

    ghost named: { Self → List ℕ };

    /// Its name.
    fn name(&self) -> &str
        ensures { result.now ≡ named self.now };
}

impl Named for Node {
    ghost named = { λ node. node.name };

    fn name(&self) -> &str {
        self.name.as_str()
    }
}

impl Named for ColumnSpec {
    ghost named = { λ column. column.name };

    fn name(&self) -> &str {
        self.name.as_str()
    }
}

fn is_letter(byte: u8) -> bool
    ensures { result ≡ is_letter_code byte }
{
    matches!(byte, b'A'..=b'Z' | b'a'..=b'z')
}

fn is_name_byte(byte: u8) -> bool
    ensures { result ≡ is_name_code byte }
{
    is_letter(byte) || matches!(byte, b'0'..=b'9') || byte == b'_'
}

fn are_name_bytes(bytes: &[u8]) -> bool
    ensures { result ≡ list_all is_name_code bytes.now }
{
    bytes.iter().all(|byte| is_name_byte(*byte))
}

fn is_reserved(word: &str) -> bool
    ensures { result ≡ is_reserved_word word.now }
{
    RESERVED.iter().any(|reserved| word == *reserved)
}

/// Whether a text is a name: a letter, then letters, digits and underscores, 32 bytes at most, and no reserved word.
pub fn is_name(text: &str) -> bool
    ensures { result ≡ is_name_of text.now }
{
    let Some((first, others)) = text.as_bytes().split_first() else {
        return false;
    };
    is_letter(*first) && are_name_bytes(others) && others.len() <= MOST_OTHERS && !is_reserved(text)
}

/// Whether one of the items has the name.
pub fn is_named<T: Named>(items: &[T], name: &str) -> bool
    ensures { result ≡ is_one_of (map T.named items.now) name.now }
{
    for item in items {
        if name == item.name() {
            return true;
        }
    }
    false
}

/// Whether no name stands twice.
pub fn are_distinct<T: Named>(items: &[T]) -> bool
    ensures { result ≡ are_distinct_names (map T.named items.now) }
{
    for (i, item) in items.iter().enumerate() {
        if is_named(&items[i + 1..], item.name()) {
            return false;
        }
    }
    true
}
