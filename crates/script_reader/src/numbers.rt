//! Numbers of a script, within their ranges.

ghost use Rattle.std.specs.Prelude.{◌≡◌, is_some, not, unwrap_or, IfOk, IfErr, IfSome};
ghost use Rattle.script_lines.specs.Answers.{Gives};
ghost use Rattle.script_reader.specs.Checks.{or_refused, rows_of, is_no_limit};

use script_lines::fault::{LineFault, ScriptKind};
use tick_model::limits::MOST_ROWS;

/// A place as a number of 32 bits. No script of 1,048,576 bytes has a greater one.
pub(crate) fn number(place: usize) -> Result<u32, LineFault>
    ensures ok { IfOk result (λ number. number ≡ place) }
    ensures err { IfErr result (λ fault. fault ≡ LineFault.Memory) }
{
    match u32::try_from(place) {
        Ok(number) => Ok(number),
        Err(_) => Err(LineFault::Memory),
    }
}

/// The number of what was found, or a refusal where nothing was.
pub(crate) fn found(place: Option<usize>, kind: ScriptKind) -> Result<u32, LineFault>
    ensures { Gives (λ number. number) result (or_refused kind place) }
{
    match place {
        Some(place) => number(place),
        None => Err(LineFault::Refused(kind)),
    }
}

/// At most 4,194,304 rows.
pub(crate) fn rows(number: i64) -> Option<u32>
    ensures { result ≡ rows_of number }
{
    match u32::try_from(number) {
        Ok(rows) if rows <= MOST_ROWS => Some(rows),
        _ => None,
    }
}

/// At least one row, and at most 4,194,304.
pub(crate) fn limit(number: i64) -> Option<u32>
    ensures limited { is_some result ≡ not (is_no_limit (rows_of number)) }
    ensures value { IfSome result (λ limit. limit ≡ unwrap_or (rows_of number) 0) }
{
    match rows(number) {
        Some(rows) if rows > 0 => Some(rows),
        _ => None,
    }
}
