//! Where it shows that bytes mean nothing, as it is told.

ghost use Rattle.std.specs.Prelude.{◌≡◌, ◌<◌, ◌≤◌, ◌+◌, ◌==◌, if◌then◌else◌};
ghost use Rattle.tabled_json.specs.Places.{AtFault, IsPlace, IsTold, column_at, column_behind};
ghost use Rattle.tabled_texts.specs.Lines.{line_at};

use crate::fault::{PartError, ReadError};
use tabled_texts::line_at;

/// The column behind a byte that stands in a column.
fn next_column(column: usize, byte: u8) -> usize
    requires { column < 18446744073709551615 }
    ensures value { result ≡ (if byte == 10 then 1 else column + 1) }
    ensures small { result ≤ column + 1 }
{
    if byte == b'\n' { 1 } else { column + 1 }
}

/// The column behind bytes.
fn column_behind(bytes: &[u8]) -> usize
    ensures { result ≡ column_behind 1 bytes.now }
{
    let mut column = 1;
    for byte in bytes {
        column = next_column(column, *byte);
    }
    column
}

/// In which column of its line the byte is from which on so many are left.
fn column_at(bytes: &[u8], left: usize) -> usize
    ensures { result ≡ column_at bytes.now left }
{
    column_behind(&bytes[..bytes.len().saturating_sub(left)])
}

/// What is told of bytes that were not read.
pub(crate) fn told(bytes: &[u8], error: PartError) -> ReadError
    ensures is { IsTold bytes.now error result }
    ensures place { AtFault (λ line column fault. IsPlace bytes.now line column) result }
{
    match error {
        PartError::Faulty(fault, left) => {
            let line = line_at(bytes, left);
            let column = column_at(bytes, left);
            ReadError::Faulty {
                line,
                column,
                fault,
            }
        }
        PartError::OutOfMemory => ReadError::OutOfMemory,
    }
}
