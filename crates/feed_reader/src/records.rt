//! The records of a text, one after the other.

ghost use Rattle.std.specs.Prelude.{◌≡◌, ◌∷◌, [], ◌<◌, ℕ, List, false, true, OnOk, IfOk, IfSome, OnSome, length};
ghost use Rattle.csv.specs.Records.{fields_of};
ghost use Rattle.csv.specs.Reading.{strip_bom};
ghost use Rattle.script_lines.specs.Tokens.{run_len};
ghost use Rattle.feed_reader.specs.Records.{records_of, are_texts, left_of, at_hand, plain_left, has_quote, ends_line as ends_line_of, is_field_byte as is_byte_of_field, quoted_left, IsQuoted, IsReading, IsNext, field_of, field_texts};

use csv::{ErrorKind, Reader, ReaderBuilder, StringRecord};
use memchr::memchr;
use std::alloc::{AllocError, Global};

/// What a reader comes to next.
#[derive(Clone, Copy)]
pub(crate) enum Next {
    /// A record of text.
    Record,
    /// A record with a field that is not UTF-8.
    NotText,
    /// The end of the text.
    End,
}

/// What is left of a text without quotes, whose records are lines that are cut at their commas, and the fields of the record at hand.
#[derive(Drop)]
pub(crate) struct PlainRecords<'a> {
    left: &'a str,
    fields: Vec<&'a str>,
}

/// A reader of a text that may have quotes, and the fields of the record at hand.
#[derive(Drop)]
pub(crate) struct QuotedRecords<'a> {
    reader: Reader<&'a [u8]>,
    fields: StringRecord,
}

/// The records of a text, one after the other.
#[derive(Drop)]
pub(crate) enum Records<'a> {
    Plain(PlainRecords<'a>),
    Quoted(QuotedRecords<'a>),
}

/// The bytes as a text without quotes, where they are one that does not begin as a byte order mark does.
fn plain_text(bytes: &[u8]) -> Option<&str>
    ensures text { IfSome result (λ text. text.now ≡ bytes.now) }
    ensures quotes { OnSome result (has_quote bytes.now ≡ false) }
    ensures mark { OnSome result (strip_bom bytes.now ≡ bytes.now) }
{
    if bytes.first() == Some(&0xEF) || memchr(b'"', bytes).is_some() {
        return None;
    }
    str::from_utf8(bytes).ok()
}

fn ends_line(byte: u8) -> bool
    ensures { result ≡ ends_line_of byte }
{
    byte == b'\r' || byte == b'\n'
}

fn is_field_byte(byte: u8) -> bool
    ensures { result ≡ is_byte_of_field byte }
{
    byte != b',' && !ends_line(byte)
}

/// How many bytes at the front end lines.
fn line_ends_len(text: &[u8]) -> usize
    ensures { result ≡ run_len ends_line_of text.now }
{
    text.iter()
        .position(|byte| !ends_line(*byte))
        .unwrap_or(text.len())
}

/// How many bytes at the front stand in one field.
fn field_len(text: &[u8]) -> usize
    ensures { result ≡ run_len is_byte_of_field text.now }
{
    text.iter()
        .position(|byte| !is_field_byte(*byte))
        .unwrap_or(text.len())
}

/// Puts the fields of the record at the front of a text without quotes behind others. Gives the text behind the record.
fn cut_record<'a>(text: &'a str, fields: &mut Vec<&'a str>) -> Result<&'a str, AllocError>
    requires plain { has_quote text.now ≡ false }
    requires some { 0 < length text.now }
    requires begins { (byte : ℕ) (later : List ℕ) → text.now ≡ byte ∷ later → ends_line_of byte ≡ false }
    requires empty { fields.old.items ≡ [] }
    ensures cut { IfOk result (λ left. plain_left text.now ≡ field_texts fields.new.items ∷ plain_left left.now) }
    ensures texts { OnOk result (are_texts (field_texts fields.new.items) ≡ true) }
    ensures plain { IfOk result (λ left. has_quote left.now ≡ false) }
{
    let mut rest = text;
    'fields: loop {
        let (field, behind) = rest.split_at(field_len(rest.as_bytes()));
        fields.push(field)?;
        if behind.as_bytes().first() == Some(&b',') {
            let (_, later) = behind.split_at(1);
            rest = later;
        } else {
            return Ok(behind);
        }
    }
}

impl<'a> PlainRecords<'a> {
    /// Goes to the next record.
    fn next(&mut self) -> Result<Next, AllocError>
        requires { has_quote self.old.left.now ≡ false }
        ensures next { IfOk result (λ next. IsNext next (plain_left self.old.left.now) (field_texts self.new.fields.items) (plain_left self.new.left.now)) }
        ensures plain { OnOk result (has_quote self.new.left.now ≡ false) }
    {
        let (_, begin) = self.left.split_at(line_ends_len(self.left.as_bytes()));
        if begin.is_empty() {
            return Ok(Next::End);
        }
        self.fields.clear();
        self.left = cut_record(begin, &mut self.fields)?;
        Ok(Next::Record)
    }
}

impl<'a> QuotedRecords<'a> {
    /// Goes to the next record, where it is one of text.
    fn next(&mut self) -> Result<Next, AllocError>
        requires { IsQuoted self.old.reader }
        ensures reading { IfOk result (λ next. IsNext next (quoted_left self.old.reader) (fields_of self.new.fields) (quoted_left self.new.reader)) }
        ensures goes { IfOk result (λ next. next ≡ Next.Record → IsQuoted self.new.reader) }
    {
        match self.reader.read_record(&mut self.fields) {
            Ok(true) => Ok(Next::Record),
            Ok(false) => Ok(Next::End),
            Err(error) => match error.kind() {
                ErrorKind::Utf8 { .. } => Ok(Next::NotText),
                _ => Err(AllocError),
            },
        }
    }
}

impl<'a> Records<'a> {
    /// The records of a text.
    pub(crate) fn of(alloc: Global, bytes: &'a [u8]) -> Records<'a>
        ensures reading { IsReading result }
        ensures left { left_of result ≡ records_of bytes.now }
    {
        match plain_text(bytes) {
            Some(left) => Records::Plain(PlainRecords {
                left,
                fields: Vec::new(alloc),
            }),
            None => Records::Quoted(QuotedRecords {
                reader: ReaderBuilder::new()
                    .has_headers(false)
                    .flexible(true)
                    .from_reader(alloc, bytes),
                fields: StringRecord::new(alloc),
            }),
        }
    }

    /// Goes to the next record, where it is one of text. After one that is not, and after the end, nothing is said of the reader.
    pub(crate) fn next(&mut self) -> Result<Next, AllocError>
        requires { IsReading self.old }
        ensures reading { IfOk result (λ next. IsNext next (left_of self.old) (at_hand self.new) (left_of self.new)) }
        ensures goes { IfOk result (λ next. next ≡ Next.Record → IsReading self.new) }
    {
        match self {
            Records::Plain(plain) => plain.next(),
            Records::Quoted(quoted) => quoted.next(),
        }
    }

    /// How many fields the record at hand has.
    pub(crate) fn len(&self) -> usize
        ensures { result ≡ length (at_hand self.now) }
    {
        match self {
            Records::Plain(plain) => plain.fields.len(),
            Records::Quoted(quoted) => quoted.fields.len(),
        }
    }

    /// The field at a place of the record at hand, and the empty text past the last.
    pub(crate) fn field(&self, place: usize) -> &str
        ensures { result.now ≡ field_of (at_hand self.now) place }
    {
        let field = match self {
            Records::Plain(plain) => plain.fields.get(place).copied(),
            Records::Quoted(quoted) => quoted.fields.get(place),
        };
        field.unwrap_or("")
    }
}
