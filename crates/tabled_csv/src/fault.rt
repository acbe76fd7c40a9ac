//! What is wrong with bytes that are no CSV, and why reading or writing ends early.

use std::alloc::AllocError;
use std::error::Error;
use std::{fmt, io};

/// What is wrong with bytes that are no CSV.
///
/// Of this project.
#[derive(Clone, Copy, Debug, PartialEq, Eq)]
pub enum Fault {
    /// A quote opens a field, and none closes it.
    UnclosedQuote,
    /// Something other than a separator or the end of a line is behind a closing quote.
    BehindQuote,
    /// A field isn't UTF-8.
    NotUtf8,
}

impl fmt::Display for Fault {
    ghost use Rattle.std.specs.Prelude.{Some};
    ghost use Rattle.tabled_csv.specs.Faults.{message_of};

    ghost output = { λ fault. Some (message_of fault) };

    fn fmt<W: fmt::Write>(&self, f: &mut fmt::Formatter<W>) -> fmt::Result {
        match self {
            Fault::UnclosedQuote => write!(f, "a quote is not closed"),
            Fault::BehindQuote => write!(f, "something is behind a closing quote"),
            Fault::NotUtf8 => write!(f, "a field is not UTF-8"),
        }
    }
}

/// Why bytes were not read.
///
/// Of this project.
#[derive(Clone, Copy, Debug, PartialEq, Eq)]
pub enum ReadError {
    /// They are no CSV: the line, counted from 1, where this shows first, and what is wrong there. An unclosed quote
    /// shows in its own line, and bytes that aren't UTF-8 in the line of the first of them.
    Faulty { line: usize, fault: Fault },
    /// Memory was refused.
    OutOfMemory,
}

impl fmt::Display for ReadError {
    ghost use Rattle.std.specs.Prelude.{Some};
    ghost use Rattle.tabled_csv.specs.Faults.{text_of_error};

    ghost output = { λ error. Some (text_of_error error) };

    fn fmt<W: fmt::Write>(&self, f: &mut fmt::Formatter<W>) -> fmt::Result {
        match self {
            ReadError::Faulty { line, fault } => write!(f, "line {line}: {fault}"),
            ReadError::OutOfMemory => write!(f, "out of memory"),
        }
    }
}

impl Error for ReadError {}

impl From<AllocError> for ReadError {
    ghost use Rattle.std.specs.Prelude.{◌≡◌};
    ghost use Rattle.tabled_csv.specs.declared.fault.ReadError.TheVariants.{OutOfMemory};

    ghost from_gives = { λ _ e. e ≡ OutOfMemory };

    fn from(_refused: AllocError) -> ReadError {
        ReadError::OutOfMemory
    }
}

/// Why rows were not written.
///
/// Of this project.
#[derive(Debug, Drop)]
pub enum WriteError {
    /// Memory was refused, and nothing was written.
    OutOfMemory,
    /// The writer failed, and got no more.
    Failed(io::Error),
}

impl From<AllocError> for WriteError {
    ghost use Rattle.std.specs.Prelude.{◌≡◌};
    ghost use Rattle.tabled_csv.specs.declared.fault.WriteError.TheVariants.{OutOfMemory};

    ghost from_gives = { λ _ e. e ≡ OutOfMemory };

    fn from(_refused: AllocError) -> WriteError {
        WriteError::OutOfMemory
    }
}

impl From<WriteError> for io::Error {
    ghost use Rattle.tabled_csv.specs.Writing.{IsToldBy};

    ghost from_gives = { IsToldBy };

    fn from(error: WriteError) -> io::Error {
        match error {
            WriteError::OutOfMemory => io::Error::from(AllocError),
            WriteError::Failed(error) => error,
        }
    }
}

/// Why a part of bytes was not read.
pub(crate) type PartError = tabled_texts::PartError<Fault>;
