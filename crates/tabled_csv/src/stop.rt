//! What is behind a field.

ghost use Rattle.std.specs.Prelude.{◌≡◌, ℕ, List, MatchOption};
ghost use Rattle.tabled_csv.specs.Grammar.{begins_with};
ghost use Rattle.tabled_csv.specs.Fields.{BlankAt, EndsLine, NoStop, StopsQuoted};

use crate::dialect::Dialect;

/// What is behind a field.
#[derive(Clone, Copy, Debug, PartialEq, Eq)]
pub(crate) enum Stop {
    Separator,
    Line,
    End,
}

/// What is behind a closing quote, and the bytes after it, or nothing where no field may end.
pub(crate) fn stop_at(dialect: Dialect, bytes: &[u8]) -> Option<(Stop, &[u8])>
    ensures { MatchOption result (NoStop dialect.separator bytes.now) (λ found. StopsQuoted dialect.separator bytes.now found.0 found.1.now) }
{
    if begins_with(dialect.separator(), bytes) {
        return Some((Stop::Separator, &bytes[1..]));
    }
    if let Some(after) = behind_line_end(bytes) {
        return Some((Stop::Line, after));
    }
    if bytes.is_empty() {
        return Some((Stop::End, bytes));
    }
    None
}

/// The bytes behind the end of a line at the front of bytes, if there is one.
#[inline(always)]
pub(crate) fn behind_line_end(bytes: &[u8]) -> Option<&[u8]>
    ensures { MatchOption result ((after : List ℕ) → BlankAt bytes.now after → ⊥) (λ after. BlankAt bytes.now after.now) }
{
    if begins_with(b'\n', bytes) {
        return Some(&bytes[1..]);
    }
    if begins_with(b'\r', bytes) && begins_with(b'\n', &bytes[1..]) {
        return Some(&bytes[2..]);
    }
    None
}

/// Whether bytes begin with a byte.
#[inline(always)]
pub(crate) fn begins_with(byte: u8, bytes: &[u8]) -> bool
    ensures { result ≡ begins_with byte bytes.now }
{
    match bytes.first() {
        Some(first) => *first == byte,
        None => false,
    }
}

/// Bytes that a line feed ends, without the carriage return before it.
#[inline(always)]
pub(crate) fn without_return(bytes: &[u8]) -> &[u8]
    ensures { EndsLine bytes.now result.now }
{
    if let Some((last, front)) = bytes.split_last() {
        if *last == b'\r' {
            return front;
        }
    }
    bytes
}
