//! What is wrong with bytes that are no records, and why reading ends early.

ghost use Rattle.std.specs.Prelude.{◌≡◌};
ghost use Rattle.tabled_json.specs.Faults.{IsWanted, begins_word, is_letter, told_by};
ghost use Rattle.tabled_json.specs.declared.fault.Fault.TheVariants.{Unexpected};
ghost use Rattle.tabled_texts.specs.Reading.{Shows};

use crate::scalar::behind_word;
use std::alloc::AllocError;
use std::error::Error;
use std::{fmt, io};

/// What is wrong with bytes that are no records.
///
/// Of this project.
#[derive(Clone, Copy, Debug, PartialEq, Eq)]
pub enum Fault {
    /// A text isn't UTF-8.
    NotUtf8,
    /// The bytes end too early.
    Ended,
    /// An object is wanted here.
    NoObject,
    /// An array is wanted here.
    NoArray,
    /// A comma is not wanted here.
    Comma,
    /// A bracket that closes is not wanted here, as behind a comma.
    Closing,
    /// A single quote, where JSON has double ones alone.
    SingleQuote,
    /// Something that begins like a comment.
    Comment,
    /// A letter that begins none of the words `true`, `false` and `null`, as in `NaN`.
    NoWord,
    /// Something else is wanted here.
    Unexpected,
    /// It begins like a number, and is none.
    BadNumber,
    /// A string isn't closed: its first byte is told.
    Unclosed,
    /// A control character stands in a string.
    Control,
    /// Behind `\u` are no four hexadecimal digits, or half of a surrogate pair.
    BadUnicode,
    /// Another backslash with no meaning.
    BadEscape,
}

impl fmt::Display for Fault {
    ghost use Rattle.std.specs.Prelude.{Some};
    ghost use Rattle.tabled_json.specs.Places.{message_of};

    ghost output = { λ fault. Some (message_of fault) };

    fn fmt<W: fmt::Write>(&self, f: &mut fmt::Formatter<W>) -> fmt::Result {
        match self {
            Fault::NotUtf8 => write!(f, "a text is not UTF-8"),
            Fault::Ended => write!(f, "the end comes too early"),
            Fault::NoObject => write!(f, "an object is wanted here"),
            Fault::NoArray => write!(f, "an array is wanted here"),
            Fault::Comma => write!(f, "a comma is not wanted here"),
            Fault::Closing => write!(f, "a closing bracket is not wanted here"),
            Fault::SingleQuote => write!(f, "a single quote is no quote of JSON"),
            Fault::Comment => write!(f, "JSON has no comments"),
            Fault::NoWord => write!(f, "a word that JSON does not have"),
            Fault::Unexpected => write!(f, "something else is wanted here"),
            Fault::BadNumber => write!(f, "a number is badly written"),
            Fault::Unclosed => write!(f, "a string is not closed"),
            Fault::Control => write!(f, "a control character stands in a string"),
            Fault::BadUnicode => write!(f, "\\u names no character"),
            Fault::BadEscape => write!(f, "a backslash has no meaning"),
        }
    }
}

/// Why bytes were not read.
///
/// Of this project.
#[derive(Clone, Copy, Debug, PartialEq, Eq)]
pub enum ReadError {
    /// They are no records: the line and its byte, both counted from 1, where this was seen, and what is wrong there.
    Faulty {
        line: usize,
        column: usize,
        fault: Fault,
    },
    /// Memory was refused.
    OutOfMemory,
}

impl fmt::Display for ReadError {
    ghost use Rattle.std.specs.Prelude.{Some};
    ghost use Rattle.tabled_json.specs.Places.{text_of_error};

    ghost output = { λ error. Some (text_of_error error) };

    fn fmt<W: fmt::Write>(&self, f: &mut fmt::Formatter<W>) -> fmt::Result {
        match self {
            ReadError::Faulty {
                line,
                column,
                fault,
            } => write!(f, "line {line}, column {column}: {fault}"),
            ReadError::OutOfMemory => write!(f, "out of memory"),
        }
    }
}

impl Error for ReadError {}

impl From<AllocError> for ReadError {
    ghost use Rattle.std.specs.Prelude.{◌≡◌};
    ghost use Rattle.tabled_json.specs.declared.fault.ReadError.TheVariants.{OutOfMemory};

    ghost from_gives = { λ _ e. e ≡ OutOfMemory };

    fn from(_refused: AllocError) -> ReadError {
        ReadError::OutOfMemory
    }
}

/// Why rows were not written.
///
/// Of this project.
#[derive(Debug, Drop)]
pub enum WriteError {
    /// Memory was refused, and nothing was written.
    OutOfMemory,
    /// Two keys are equal, those of these columns, counted from 0, and nothing was written.
    EqualKeys { first: usize, second: usize },
    /// A row, counted from 0 with the row of keys, has more texts than there are keys, and nothing was written.
    LongRow { row: usize },
    /// The writer failed, and got no more.
    Failed(io::Error),
}

impl From<AllocError> for WriteError {
    ghost use Rattle.std.specs.Prelude.{◌≡◌};
    ghost use Rattle.tabled_json.specs.declared.fault.WriteError.TheVariants.{OutOfMemory};

    ghost from_gives = { λ _ e. e ≡ OutOfMemory };

    fn from(_refused: AllocError) -> WriteError {
        WriteError::OutOfMemory
    }
}

impl From<WriteError> for io::Error {
    ghost use Rattle.tabled_json.specs.Writes.{IsToldBy};

    ghost from_gives = { IsToldBy };

    fn from(error: WriteError) -> io::Error {
        match error {
            WriteError::OutOfMemory => io::Error::from(AllocError),
            WriteError::EqualKeys { .. } => io::Error::from(io::ErrorKind::InvalidInput),
            WriteError::LongRow { .. } => io::Error::from(io::ErrorKind::InvalidInput),
            WriteError::Failed(error) => error,
        }
    }
}

/// Why a part of bytes was not read.
pub(crate) type PartError = tabled_texts::PartError<Fault>;

/// Whether a byte is a letter.
fn is_letter(byte: u8) -> bool
    ensures { result ≡ is_letter byte }
{
    (65 <= byte && byte <= 90) || (97 <= byte && byte <= 122)
}

/// Whether bytes begin with a word of JSON.
fn begins_word(bytes: &[u8]) -> bool
    ensures { result ≡ begins_word bytes.now }
{
    behind_word(b"true", bytes).is_some()
        || behind_word(b"false", bytes).is_some()
        || behind_word(b"null", bytes).is_some()
}

/// What is told of bytes that begin with nothing that is wanted: by what they begin with, where that is often written,
/// or else so.
fn told_by(wanted: Fault, bytes: &[u8]) -> Fault
    ensures { result ≡ told_by wanted bytes.now }
{
    let Some((first, _behind)) = bytes.split_first() else {
        return Fault::Ended;
    };
    match *first {
        44 => Fault::Comma,
        93 | 125 => Fault::Closing,
        39 => Fault::SingleQuote,
        47 | 35 => Fault::Comment,
        _ => {
            if is_letter(*first) && !begins_word(bytes) {
                return Fault::NoWord;
            }
            wanted
        }
    }
}

/// What is told where something else is wanted.
pub(crate) fn unexpected(bytes: &[u8]) -> PartError
    ensures { Shows (IsWanted Unexpected bytes.now) result }
{
    wanted(Fault::Unexpected, bytes)
}

/// What is told where something is wanted that bytes don't begin with.
pub(crate) fn wanted(fault: Fault, bytes: &[u8]) -> PartError
    ensures { Shows (IsWanted fault bytes.now) result }
{
    PartError::Faulty(told_by(fault, bytes), bytes.len())
}
