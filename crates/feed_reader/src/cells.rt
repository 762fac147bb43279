//! What a field spells: numbers, keys and cells.

ghost use Rattle.std.specs.Prelude.{◌≡◌, ◌^◌, ◌≤◌, ◌+◌, [], IfOk, drop, length, pos, option_map};
ghost use Rattle.feed_reader.specs.Cells.{number_below, signed_below, key_of, delta_of, cells_of, kinds_in, IsCellOf};
ghost use Rattle.feed_reader.specs.ReadCells.{AreRead};
ghost use Rattle.feed_reader.specs.Records.{at_hand};

use crate::numbered::NumberedTexts;
use crate::records::Records;
use std::alloc::{AllocError, Global};
use tick_model::formula::NULL;
use tick_model::items::Items;
use tick_model::limits::SOURCE_KEYS;
use tick_model::plan::{ColumnSpec, Kind};

/// The most digits of a number.
const MOST_DIGITS: usize = 19;

/// The number that 1 to 19 digits spell, where it is below the limit. So few digits always fit: they are added up without a test.
fn number(digits: &[u8], limit: u64) -> Option<u64>
    ensures { result ≡ number_below limit digits.now }
{
    if digits.is_empty() || digits.len() > MOST_DIGITS {
        return None;
    }
    let mut number = 0;
    for &digit in digits {
        if !digit.is_ascii_digit() {
            return None;
        }
        number = number * 10 + u64::from(digit - b'0');
    }
    if number < limit { Some(number) } else { None }
}

/// The same as a signed number.
fn natural(digits: &[u8], limit: u64) -> Option<i64>
    requires { limit ≤ 2 ^ 63 }
    ensures { result ≡ option_map pos (number_below limit digits.now) }
{
    number(digits, limit).map(|size| size as i64)
}

/// The number that an optional minus sign and 1 to 19 digits spell, where its size is below the limit.
fn signed_number(text: &[u8], limit: u64) -> Option<i64>
    requires { limit ≤ 2 ^ 63 }
    ensures { result ≡ signed_below limit text.now }
{
    let Some((first, digits)) = text.split_first() else {
        return None;
    };
    if *first != b'-' {
        return natural(text, limit);
    }
    natural(digits, limit).map(|size| -size)
}

/// The key of a row of a source.
pub(crate) fn key(text: &str) -> Option<u64>
    ensures { result ≡ key_of text.now }
{
    number(text.as_bytes(), SOURCE_KEYS)
}

/// How far a range moves.
pub(crate) fn delta(text: &str) -> Option<i64>
    ensures { result ≡ delta_of text.now }
{
    match signed_number(text.as_bytes(), SOURCE_KEYS) {
        Some(0) => None,
        delta => delta,
    }
}

/// Cells that are read, one behind the other, and the texts whose numbers stand in them.
#[derive(Drop)]
pub(crate) struct ReadCells {
    pub(crate) texts: NumberedTexts,
    pub(crate) cells: Vec<i64>,
}

impl ReadCells {
    /// No cells.
    pub(crate) fn new(alloc: Global) -> ReadCells
        ensures texts { result.texts ≡ [] }
        ensures cells { result.cells.items ≡ [] }
    {
        ReadCells {
            texts: NumberedTexts::new(alloc),
            cells: Vec::new(alloc),
        }
    }

    /// The cell of a column that a field spells, in which a text has its number.
    fn cell(&mut self, alloc: Global, kind: Kind, field: &str) -> Result<Option<i64>, AllocError>
        ensures cell { IfOk result (IsCellOf kind field.now self.old.texts self.new.texts) }
        ensures others { self.new.cells ≡ self.old.cells }
    {
        if field.is_empty() {
            return Ok(Some(NULL));
        }
        match kind {
            Kind::Long => Ok(signed_number(field.as_bytes(), 1 << 63)),
            Kind::Text => Ok(Some(self.texts.number(alloc, field)? as i64)),
        }
    }

    /// Reads the cells that the fields from a place on spell, one for each column. Tells whether each field spells one.
    pub(crate) fn read(
        &mut self,
        alloc: Global,
        columns: &[ColumnSpec],
        fields: &Records<'_>,
        first: usize,
    ) -> Result<bool, AllocError>
        requires whole { length (at_hand fields.now) ≡ length columns.now + first }
        requires few { first ≤ 2 }
        ensures { IfOk result (λ all. AreRead columns.now self.old self.new all (cells_of columns.now (drop first (at_hand fields.now)))) }
    {
        for (place, column) in columns.iter().enumerate() {
            match self.cell(alloc, column.kind, fields.field(first + place))? {
                Some(cell) => self.cells.push(cell)?,
                None => return Ok(false),
            }
        }
        Ok(true)
    }
}

/// The kinds of columns.
pub(crate) fn kinds_of(alloc: Global, columns: &[ColumnSpec]) -> Result<Items<Kind>, AllocError>
    ensures { IfOk result (λ kinds. kinds ≡ kinds_in columns.now) }
{
    let mut kinds = Vec::with_capacity(alloc, columns.len())?;
    for column in columns {
        kinds.push(column.kind)?;
    }
    Ok(Items::of(kinds))
}
