//! Lines of a script, and what each says by itself.

ghost use Rattle.std.specs.Prelude.{◌≡◌, ◌<◌, [], ◌∷◌, IfNone, IfSome, length};
ghost use Rattle.script_lines.specs.Answers.{Gives};
ghost use Rattle.script_lines.specs.Bare.{bare_line};
ghost use Rattle.script_lines.specs.Lines.{is_skipped as is_skipped_line, line_of as line_of_bytes, lines_of, without_return as without_return_at_end};

use crate::fault::{LineFault, ScriptKind};
use crate::grammar::line;
use crate::lexer::{is_blank, read_tokens};
use crate::line::Line;
use crate::token::Token;
use std::alloc::Global;
use std::str;

/// Whether a line says nothing: blanks alone, or a `#` after blanks.
fn is_skipped(line: &[u8]) -> bool
    ensures { result ≡ is_skipped_line line.now }
{
    match line.iter().find(|byte| !is_blank(**byte)) {
        None => true,
        Some(byte) => *byte == b'#',
    }
}

/// What a line says. The tokens are a buffer that is used again: what they were and what they become is of no meaning.
#[tactic(auto, unfolding(crate::specs::Lines::line_of))]
pub fn line_of<'a>(
    alloc: Global,
    tokens: &mut Vec<Token<'a>>,
    bytes: &'a [u8],
) -> Result<Line<'a>, LineFault>
    ensures { Gives bare_line result (line_of_bytes bytes.now) }
{
    let Ok(text) = str::from_utf8(bytes) else {
        return Err(LineFault::Refused(ScriptKind::NotUtf8));
    };
    if is_skipped(bytes) {
        return Ok(Line::Skipped);
    }
    read_tokens(tokens, text)?;
    Ok(line(alloc, tokens.as_slice())?)
}

/// A line without a carriage return at its end.
fn without_return(line: &[u8]) -> &[u8]
    ensures { result.now ≡ without_return_at_end line.now }
{
    let Some((last, front)) = line.split_last() else {
        return line;
    };
    if *last == b'\r' { front } else { line }
}

/// The bytes before the first line feed, without a carriage return directly before it, and those after it; or all, where
/// there is none.
pub fn first_line(bytes: &[u8]) -> (&[u8], Option<&[u8]>)
    ensures next { IfSome result.1 (λ rest. lines_of bytes.now ≡ result.0.now ∷ lines_of rest.now) }
    ensures last { IfNone result.1 (lines_of bytes.now ≡ result.0.now ∷ []) }
    ensures shorter { IfSome result.1 (λ rest. length rest.now < length bytes.now) }
{
    match bytes.iter().position(|byte| *byte == b'\n') {
        Some(end) => (without_return(&bytes[..end]), Some(&bytes[end + 1..])),
        None => (bytes, None),
    }
}
