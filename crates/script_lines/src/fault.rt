//! Why a line of a script could not be read.

use std::alloc::{AllocError, AllocFailed};

/// Why a line is refused: the first of these that applies to it, where the comments count from 1.
#[derive(Debug, Clone, Copy, PartialEq, Eq)]
pub enum ScriptKind {
    /// First: the line is not UTF-8.
    NotUtf8,
    /// Before each other: the script is longer than 1,048,576 bytes; told at line 0.
    TooLong,
    /// Third: the line has no tokens by the rules, more than 512 tokens, or none of the forms.
    BadLine,
    /// Fourth: an input, printed or published name is not defined by an earlier line.
    UnknownName,
    /// Sixth: the name is defined already, or the node is printed or published a second time.
    TakenName,
    /// Fifth: a used column is not a column of its input.
    UnknownColumn,
    /// Seventh: the result would have two columns of one name.
    TakenColumn,
    /// Eighth: a text stands under arithmetic, or kinds differ that have to be one.
    WrongKind,
    /// Second: a number is past the greatest of 64 bits, and no token before it is bad. Ninth: a number of rows is out of its range.
    NumberRange,
    /// Eleventh: the node would be the 257th.
    TooManyNodes,
    /// Tenth: the result has more than 32 columns.
    TooManyColumns,
    /// Twelfth: the bound of the node's keys is 2^62 or more.
    KeySpace,
    /// Last: the published tables need more than 1,048,576 words.
    TooWide,
}

/// Why the tokens of a line could not be read.
#[derive(Clone, Copy, PartialEq, Eq)]
pub enum Misread {
    Memory,
    BadLine,
}

impl From<AllocError> for Misread {
    ghost use Rattle.std.specs.Prelude.{◌≡◌};
    ghost use Rattle.script_lines.specs.declared.fault.Misread.TheVariants.{Memory};

    ghost from_gives = { λ _ miss. miss ≡ Memory };

    fn from(_error: AllocError) -> Misread {
        Misread::Memory
    }
}

impl<T: Drop> From<AllocFailed<T>> for Misread {
    ghost use Rattle.std.specs.Prelude.{◌≡◌};
    ghost use Rattle.script_lines.specs.declared.fault.Misread.TheVariants.{Memory};

    ghost from_gives = { λ _ miss. miss ≡ Memory };

    fn from(_error: AllocFailed<T>) -> Misread {
        Misread::Memory
    }
}

/// Why a line could not be read.
#[derive(Drop)]
pub enum LineFault {
    Memory,
    Refused(ScriptKind),
}

impl From<AllocError> for LineFault {
    ghost use Rattle.std.specs.Prelude.{◌≡◌};
    ghost use Rattle.script_lines.specs.declared.fault.LineFault.TheVariants.{Memory};

    ghost from_gives = { λ _ fault. fault ≡ Memory };

    fn from(_error: AllocError) -> LineFault {
        LineFault::Memory
    }
}

impl<T: Drop> From<AllocFailed<T>> for LineFault {
    ghost use Rattle.std.specs.Prelude.{◌≡◌};
    ghost use Rattle.script_lines.specs.declared.fault.LineFault.TheVariants.{Memory};

    ghost from_gives = { λ _ fault. fault ≡ Memory };

    fn from(_error: AllocFailed<T>) -> LineFault {
        LineFault::Memory
    }
}

impl From<ScriptKind> for LineFault {
    ghost use Rattle.std.specs.Prelude.{◌≡◌};
    ghost use Rattle.script_lines.specs.declared.fault.LineFault.TheVariants.{Refused};

    ghost from_gives = { λ kind fault. fault ≡ Refused kind };

    fn from(kind: ScriptKind) -> LineFault {
        LineFault::Refused(kind)
    }
}

impl From<Misread> for LineFault {
    ghost use Rattle.std.specs.Prelude.{◌≡◌};
    ghost use Rattle.script_lines.specs.Answers.{fault_of};

    ghost from_gives = { λ miss fault. fault ≡ fault_of miss };

    fn from(miss: Misread) -> LineFault {
        match miss {
            Misread::Memory => LineFault::Memory,
            Misread::BadLine => LineFault::Refused(ScriptKind::BadLine),
        }
    }
}
