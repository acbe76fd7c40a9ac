//! What is wrong with a line of a script, and why reading one, or a whole script, ends early.

use std::alloc::{AllocError, AllocFailed};
use std::error::Error;
use std::fmt;

/// What is wrong with a line of a script.
#[derive(Clone, Copy, Debug, PartialEq, Eq)]
pub enum Fault {
    /// A word stands where another one is asked for.
    UnknownWord = 1,
    /// A word is missing, or one is left over.
    WordCount = 2,
    /// A word is no number, or one out of range.
    NumberRange = 3,
    /// A backslash begins no escape, or the bytes are no UTF-8.
    Escape = 4,
    /// A selector stands in 64 others.
    SelectorDepth = 5,
    /// A line stands where none of its kind may.
    OutOfPlace = 6,
    /// A rectangle leaves the table, or shares a cell with one of an earlier line.
    SpanMisfits = 7,
    /// The shape isn't that of the records.
    ShapeDiffers = 8,
}

impl Fault {
    ghost use Rattle.std.specs.Prelude.{◌≡◌};
    ghost use Rattle.tabled_language.specs.Faults.{fault_number};

    /// The number that stands for it in what is written.
    pub fn number(self) -> u8
        ensures { result ≡ fault_number self }
    {
        self as u8
    }
}

/// Why bytes were not read as a script.
///
/// Of this project.
#[derive(Clone, Copy, Debug, PartialEq, Eq)]
pub enum ParseError {
    /// They are no script: the number of the first faulty line, counted from 1, and what is wrong with it.
    Faulty { line: usize, fault: Fault },
    /// Memory was refused.
    OutOfMemory,
}

impl fmt::Display for ParseError {
    fn fmt<W: fmt::Write>(&self, f: &mut fmt::Formatter<W>) -> fmt::Result {
        match self {
            ParseError::Faulty { line, fault } => {
                let number = fault.number();
                write!(f, "line {line}: fault {number}")
            }
            ParseError::OutOfMemory => write!(f, "out of memory"),
        }
    }
}

impl Error for ParseError {}

impl From<AllocError> for ParseError {
    ghost use Rattle.std.specs.Prelude.{◌≡◌};
    ghost use Rattle.tabled_language.specs.declared.fault.ParseError.TheVariants.{OutOfMemory};

    ghost from_gives = { λ _ e. e ≡ OutOfMemory };

    fn from(_refused: AllocError) -> ParseError {
        ParseError::OutOfMemory
    }
}

/// Why a line, or a part of it, was not read.
#[derive(Clone, Copy, Debug, PartialEq, Eq)]
pub(crate) enum LineError {
    Faulty(Fault),
    OutOfMemory,
}

impl LineError {
    ghost use Rattle.std.specs.Prelude.{◌≡◌};
    ghost use Rattle.tabled_language.specs.Parsing.{in_line};

    /// Why a script isn't read: this, in the line of a number.
    pub(crate) fn in_line(self, line: usize) -> ParseError
        ensures { result ≡ in_line line self }
    {
        match self {
            LineError::Faulty(fault) => ParseError::Faulty { line, fault },
            LineError::OutOfMemory => ParseError::OutOfMemory,
        }
    }
}

impl From<Fault> for LineError {
    ghost use Rattle.std.specs.Prelude.{◌≡◌};
    ghost use Rattle.tabled_language.specs.declared.fault.LineError.TheVariants.{Faulty};

    ghost from_gives = { λ fault e. e ≡ Faulty fault };

    fn from(fault: Fault) -> LineError {
        LineError::Faulty(fault)
    }
}

impl From<AllocError> for LineError {
    ghost use Rattle.std.specs.Prelude.{◌≡◌};
    ghost use Rattle.tabled_language.specs.declared.fault.LineError.TheVariants.{OutOfMemory};

    ghost from_gives = { λ _ e. e ≡ OutOfMemory };

    fn from(_refused: AllocError) -> LineError {
        LineError::OutOfMemory
    }
}

impl<T: Drop> From<AllocFailed<T>> for LineError {
    ghost use Rattle.std.specs.Prelude.{◌≡◌};
    ghost use Rattle.tabled_language.specs.declared.fault.LineError.TheVariants.{OutOfMemory};

    ghost from_gives = { λ _ e. e ≡ OutOfMemory };

    fn from(_refused: AllocFailed<T>) -> LineError {
        LineError::OutOfMemory
    }
}
