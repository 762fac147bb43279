//! Why a script could not be read.

use script_lines::fault::ScriptKind;
use thiserror::Error;

/// Why a script could not be read: memory ran out, or its first refused line. Lines are counted from 1.
#[derive(Debug, Drop, Error)]
pub enum ScriptFault {
    #[error("out of memory")]
    Memory,
    #[error("line {line}: {kind:?}")]
    Refused { line: u64, kind: ScriptKind },
}
