//! A reader of texts that are made in room and lent from there, and rows of texts of any kind.

use std::alloc::AllocError;
use tabled_grid::records::{CellText, ExactRecords, PeekableRecords, Records};
use tabled_texts::{PartError, Rows, Spare, Stored, behind_mark, line_at};

/// Bytes without blanks, which stand in room. Refused, nothing is made.
pub fn without_blanks<'a>(bytes: &[u8], spare: &mut Spare<'a>) -> Result<&'a [u8], AllocError> {
    let room = spare.take(bytes.len())?;
    let mut len = 0;
    for byte in bytes {
        if *byte != b' ' && len < room.len() {
            room[len] = *byte;
            len += 1;
        }
    }
    let end = len.min(room.len());
    Ok(&room[..end])
}

/// A byte that isn't of ASCII.
#[derive(Clone, Copy, Debug, PartialEq, Eq)]
struct NotAscii;

/// Why a text was not read.
#[derive(Clone, Copy, Debug, PartialEq, Eq)]
pub enum AsciiError {
    NotAscii { line: usize },
    OutOfMemory,
}

/// Bytes of ASCII without blanks.
fn ascii<'a>(bytes: &[u8], spare: &mut Spare<'a>) -> Result<&'a [u8], PartError<NotAscii>> {
    if let Some(at) = bytes.iter().position(|byte| !byte.is_ascii()) {
        return Err(PartError::Faulty(NotAscii, bytes.len().saturating_sub(at)));
    }
    Ok(without_blanks(bytes, spare)?)
}

/// A text of ASCII without blanks and without a byte order mark in front.
pub fn read_ascii<'a>(bytes: &[u8], spare: &mut Spare<'a>) -> Result<&'a [u8], AsciiError> {
    let text = behind_mark(bytes);
    match ascii(text, spare) {
        Ok(read) => Ok(read),
        Err(PartError::Faulty(NotAscii, left)) => Err(AsciiError::NotAscii {
            line: line_at(text, left),
        }),
        Err(PartError::OutOfMemory) => Err(AsciiError::OutOfMemory),
    }
}

/// How many of some rows' texts are empty.
fn count_empty<R: Rows>(rows: &R) -> usize
    requires { R.is_well rows.now }
{
    let mut count: usize = 0;
    for i in 0..rows.count() {
        for j in 0..rows.width(i) {
            if rows.text(i, j).is_empty() {
                count = count.saturating_add(1);
            }
        }
    }
    count
}

/// How many texts of rows are empty.
pub fn count_empty_of_rows<T: CellText>(rows: &[Vec<T>]) -> usize {
    count_empty(&rows)
}

/// How many texts of a store are empty.
pub fn count_empty_of_records<R>(records: &R) -> usize
where
    R: Records + ExactRecords + PeekableRecords,
    R::Cell: CellText,
    requires { R.is_well_formed records.now }
{
    count_empty(&Stored { records })
}
