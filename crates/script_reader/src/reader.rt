//! Reading a script, line by line.

ghost use Rattle.std.specs.Prelude.{◌≡◌, ◌+◌, ◌≤◌, ◌∷◌, ℕ, List, IfOk, IfErr, length};
ghost use Rattle.script_lines.specs.Answers.{Gives};
ghost use Rattle.script_lines.specs.Lines.{lines_of};
ghost use Rattle.script_reader.specs.Plain.{plain_script};
ghost use Rattle.script_reader.specs.Refusals.{at_line as fault_at, Refuses};
ghost use Rattle.script_reader.specs.Scripts.{after_line as after_line_of, after_lines, nothing, script_of};
ghost use Rattle.script_reader.specs.SoFar.{so_far};

use crate::fault::ScriptFault;
use crate::known::Known;
use crate::script::Script;
use script_lines::fault::{LineFault, ScriptKind};
use script_lines::reading::{first_line, line_of};
use script_lines::token::Token;
use std::alloc::Global;

/// The most bytes of a script.
pub const MOST_SCRIPT_BYTES: usize = 1_048_576;

fn at_line(number: u64, fault: LineFault) -> ScriptFault
    ensures { result ≡ fault_at number fault }
{
    match fault {
        LineFault::Memory => ScriptFault::Memory,
        LineFault::Refused(kind) => ScriptFault::Refused { line: number, kind },
    }
}

/// The script after a line. `tokens` is a buffer, whose tokens are of no further use.
#[tactic(auto, unfolding(crate::specs::Scripts::after_line))]
fn after_line<'a>(
    alloc: Global,
    known: Known,
    tokens: &mut Vec<Token<'a>>,
    line: &'a [u8],
) -> Result<Known, LineFault>
    ensures { Gives so_far result (after_line_of (so_far known) line.now) }
{
    let line = line_of(alloc, tokens, line)?;
    known.take_in(&line)
}

/// The script after a line of this number, or the refusal of that line, whatever lines follow.
fn after_numbered<'a>(
    alloc: Global,
    number: u64,
    known: Known,
    tokens: &mut Vec<Token<'a>>,
    line: &'a [u8],
) -> Result<Known, ScriptFault>
    ensures said { IfOk result (λ next. (later : List (List ℕ)) → after_lines number (so_far known) (line.now ∷ later) ≡ after_lines (number + 1) (so_far next) later) }
    ensures refused { IfErr result (λ fault. (later : List (List ℕ)) → Refuses (after_lines number (so_far known) (line.now ∷ later)) fault) }
{
    match after_line(alloc, known, tokens, line) {
        Ok(known) => Ok(known),
        Err(fault) => Err(at_line(number, fault)),
    }
}

/// The script after all lines of a text.
fn after_all(alloc: Global, bytes: &[u8]) -> Result<Known, ScriptFault>
    requires { length bytes.now ≤ 1048576 }
    ensures script { IfOk result (λ known. after_lines 1 nothing (lines_of bytes.now) ≡ Ok (so_far known)) }
    ensures refused { IfErr result (Refuses (after_lines 1 nothing (lines_of bytes.now))) }
{
    let mut known = Known::new(alloc);
    let mut tokens = Vec::new(alloc);
    let mut number = 1u64;
    let mut rest = Some(bytes);
    while let Some(text) = rest {
        let (line, after) = first_line(text);
        known = after_numbered(alloc, number, known, &mut tokens, line)?;
        number += 1;
        rest = after;
    }
    Ok(known)
}

/// The script that bytes spell, or the first line that is refused, counted from 1, with the first kind that applies to it.
#[tactic(auto, unfolding(crate::specs::Scripts::script_of))]
pub fn read_script(alloc: Global, bytes: &[u8]) -> Result<Script, ScriptFault>
    ensures script { IfOk result (λ script. script_of bytes.now ≡ Ok (plain_script script)) }
    ensures refused { IfErr result (Refuses (script_of bytes.now)) }
{
    if bytes.len() > MOST_SCRIPT_BYTES {
        return Err(ScriptFault::Refused {
            line: 0,
            kind: ScriptKind::TooLong,
        });
    }
    let known = after_all(alloc, bytes)?;
    match known.into_script() {
        Ok(script) => Ok(script),
        Err(_) => Err(ScriptFault::Memory),
    }
}
