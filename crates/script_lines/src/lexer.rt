//! The tokens of a line, from left to right, the longest first.

ghost use Rattle.std.specs.Prelude.{◌≡◌, ◌<◌, ◌≤◌, All, IfNone, IfSome, IsTrue, length, drop, slice_index, take};
ghost use Rattle.tick_model.specs.Names.{is_letter as is_letter_byte, is_name_byte as is_byte_of_name};
ghost use Rattle.script_lines.specs.Answers.{Gives, Tells};
ghost use Rattle.script_lines.specs.Tokens.{is_blank as is_blank_byte, is_digit as is_digit_byte, run_len, parted, front_by, word_at, number_at, text_at, is_single_mark as is_single_mark_byte, is_order_mark as is_order_mark_byte, begins_with_equal as begins_with_equal_byte, mark_at, lexeme_at, tokens_of};

use crate::fault::{LineFault, ScriptKind};
use crate::parts::MOST_TOKENS;
use crate::token::{Token, Word};

/// The most bytes of a word.
const MOST_WORD_BYTES: usize = 32;

/// A token, or none for a blank, and the text after it.
type Lexeme<'a> = Result<(Option<Token<'a>>, &'a str), ScriptKind>;

pub(crate) fn is_blank(byte: u8) -> bool
    ensures { result ≡ is_blank_byte byte }
{
    byte == b' ' || byte == b'\t'
}

fn is_digit(byte: u8) -> bool
    ensures { result ≡ is_digit_byte byte }
{
    byte.is_ascii_digit()
}

fn is_letter(byte: u8) -> bool
    ensures { result ≡ is_letter_byte byte }
{
    byte.is_ascii_alphabetic()
}

fn is_name_byte(byte: u8) -> bool
    ensures { result ≡ is_byte_of_name byte }
{
    is_letter(byte) || is_digit(byte) || byte == b'_'
}

/// How many bytes at the front are of names.
fn name_len(bytes: &[u8]) -> usize
    ensures { result ≡ run_len is_byte_of_name bytes.now }
{
    bytes
        .iter()
        .position(|byte| !is_name_byte(*byte))
        .unwrap_or(bytes.len())
}

/// How many bytes at the front are digits.
fn digits_len(bytes: &[u8]) -> usize
    ensures { result ≡ run_len is_digit_byte bytes.now }
{
    bytes
        .iter()
        .position(|byte| !is_digit(*byte))
        .unwrap_or(bytes.len())
}

/// The word at the front of a text that begins with a letter.
fn word<'a>(text: &'a str) -> Lexeme<'a>
    requires { IsTrue (is_letter_byte (slice_index text.now 0)) }
    ensures { Tells (λ x. (x.0, x.1.now)) result (front_by word_at text.now) }
{
    let (word, rest) = text.split_at(name_len(text.as_bytes()));
    if word.len() > MOST_WORD_BYTES {
        return Err(ScriptKind::BadLine);
    }
    Ok((Some(Token::Word(Word::of(word))), rest))
}

/// The number at the front of a text that begins with a digit.
fn number<'a>(text: &'a str) -> Lexeme<'a>
    requires { IsTrue (is_digit_byte (slice_index text.now 0)) }
    ensures { Tells (λ x. (x.0, x.1.now)) result (front_by number_at text.now) }
{
    let (digits, rest) = text.split_at(digits_len(text.as_bytes()));
    match digits.parse::<i64>() {
        Ok(number) => Ok((Some(Token::Number(number)), rest)),
        Err(_) => Err(ScriptKind::NumberRange),
    }
}

/// What stands before the closing quote, of a text behind its opening quote.
fn quoted<'a>(text: &'a str) -> Lexeme<'a>
    ensures { Tells (λ x. (x.0, x.1.now)) result (parted (text_at text.now) text.now) }
{
    match text.split_once('"') {
        Some((content, rest)) => Ok((Some(Token::Text(Word::of(content))), rest)),
        None => Err(ScriptKind::BadLine),
    }
}

/// Whether the byte is a symbol, and begins no longer one.
fn is_single_mark(byte: u8) -> bool
    ensures { result ≡ is_single_mark_byte byte }
{
    matches!(
        byte,
        b'(' | b')' | b'[' | b']' | b'+' | b'-' | b'*' | b',' | b':' | b'='
    )
}

/// Whether the byte is a symbol, and begins one that is longer.
fn is_order_mark(byte: u8) -> bool
    ensures { result ≡ is_order_mark_byte byte }
{
    byte == b'<' || byte == b'>'
}

fn begins_with_equal(bytes: &[u8]) -> bool
    ensures { result ≡ begins_with_equal_byte bytes.now }
{
    bytes.starts_with(b"=")
}

/// How many bytes the symbol at the front has, if there is one.
fn symbol_len(bytes: &[u8]) -> Option<usize>
    ensures none { IfNone result (front_by mark_at bytes.now ≡ Err ScriptKind.BadLine) }
    ensures some { IfSome result (λ len. front_by mark_at bytes.now ≡ Ok (Some (Token.Mark (take len bytes.now)), drop len bytes.now)) }
    ensures ascii { IfSome result (λ len. (len ≤ length bytes.now) × All (λ byte. byte < 128) (take len bytes.now)) }
{
    let (first, others) = bytes.split_first()?;
    if is_single_mark(*first) {
        Some(1)
    } else if begins_with_equal(others) && (is_order_mark(*first) || *first == b'!') {
        Some(2)
    } else if is_order_mark(*first) {
        Some(1)
    } else {
        None
    }
}

/// The symbol at the front.
fn symbol<'a>(text: &'a str) -> Lexeme<'a>
    ensures { Tells (λ x. (x.0, x.1.now)) result (front_by mark_at text.now) }
{
    let Some(len) = symbol_len(text.as_bytes()) else {
        return Err(ScriptKind::BadLine);
    };
    let (symbol, rest) = text.split_at(len);
    Ok((Some(Token::Mark(Word::of(symbol))), rest))
}

/// The text behind its first byte, which is ASCII.
fn behind_first<'a>(text: &'a str) -> &'a str
    requires not_empty { 0 < length text.now }
    requires ascii { slice_index text.now 0 < 128 }
    ensures { result.now ≡ drop 1 text.now }
{
    let (_, rest) = text.split_at(1);
    rest
}

/// What a text begins with. An empty text is refused.
fn lexeme<'a>(text: &'a str) -> Lexeme<'a>
    ensures { Tells (λ x. (x.0, x.1.now)) result (front_by lexeme_at text.now) }
{
    let Some((first, _others)) = text.as_bytes().split_first() else {
        return Err(ScriptKind::BadLine);
    };
    if is_blank(*first) {
        Ok((None, behind_first(text)))
    } else if is_letter(*first) {
        word(text)
    } else if is_digit(*first) {
        number(text)
    } else if *first == b'"' {
        quoted(behind_first(text))
    } else {
        symbol(text)
    }
}

/// The tokens of a line, in place of those that were there.
pub(crate) fn read_tokens<'a>(tokens: &mut Vec<Token<'a>>, line: &'a str) -> Result<(), LineFault>
    ensures { Gives (λ _. tokens.new.items) result (tokens_of line.now) }
{
    tokens.clear();
    let mut rest = line;
    while !rest.is_empty() {
        let (token, after) = lexeme(rest)?;
        if let Some(token) = token {
            tokens.push(token)?;
        }
        rest = after;
    }
    if tokens.len() > MOST_TOKENS {
        return Err(LineFault::Refused(ScriptKind::BadLine));
    }
    Ok(())
}
