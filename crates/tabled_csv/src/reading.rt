//! CSV, read.

ghost use Rattle.std.specs.Prelude.{[], IfErr, IfOk, IsOk, IsTrue, IsUtf8, MatchResult, OnErr, length};
ghost use Rattle.tabled_csv.specs.Grammar.{IsSeparator, IsCsv, IsLines, with_quotes};
ghost use Rattle.tabled_csv.specs.Reading.{AtFault, LinesFault, NoRows, RecordAt, RecordFault};
ghost use Rattle.tabled_csv.specs.Faults.{IsFault};
ghost use Rattle.tabled_texts.specs.Texts.{KeepsTexts, rows_by, rows_of, texts_by};
ghost use Rattle.tabled_texts.specs.Lines.{line_at};
ghost use Rattle.tabled_texts.specs.Marks.{behind_mark};
ghost use Rattle.tabled_texts.specs.Reading.{Shows};

use crate::dialect::Dialect;
use crate::fault::{PartError, ReadError};
use crate::field::read_field;
use crate::separator::Separator;
use crate::stop::{Stop, behind_line_end};
use std::alloc::Global;
use std::str;
use tabled_grid::records::CellText;
use tabled_texts::{Room, Spare, behind_mark, line_at};

/// The record at the front of bytes, and the bytes behind its line. There is room for some fields from the start.
fn record<'a, T>(
    alloc: Global,
    dialect: Dialect,
    is_text: bool,
    room: usize,
    bytes: &'a [u8],
    spare: &mut Spare<'a>,
) -> Result<(Vec<T>, &'a [u8]), PartError>
where
    T: From<&'a str> + CellText,
    requires keeps { KeepsTexts T.from_gives T.text_of }
    requires separator { IsSeparator dialect.separator }
    requires text { IsTrue is_text → IsUtf8 bytes.now }
    ensures { MatchResult result (λ read. RecordAt dialect bytes.now (texts_by T.text_of read.0) read.1.now) (Shows (RecordFault dialect bytes.now)) }
{
    let mut row = Vec::with_capacity(alloc, room)?;
    let mut rest = bytes;
    'fields: loop {
        let (text, stop, after) = read_field(dialect, is_text, rest, spare)?;
        row.push(T::from(text))?;
        match stop {
            Stop::Separator => rest = after,
            Stop::Line => return Ok((row, after)),
            Stop::End => return Ok((row, after)),
        }
    }
}

/// The rows of lines.
fn lines<'a, T>(
    alloc: Global,
    dialect: Dialect,
    is_text: bool,
    bytes: &'a [u8],
    spare: &mut Spare<'a>,
) -> Result<Vec<Vec<T>>, PartError>
where
    T: From<&'a str> + CellText,
    requires keeps { KeepsTexts T.from_gives T.text_of }
    requires separator { IsSeparator dialect.separator }
    requires text { IsTrue is_text → IsUtf8 bytes.now }
    ensures err { OnErr result (IsLines dialect bytes.now [] → ⊥) }
    ensures read { MatchResult result (λ rows. IsLines dialect bytes.now (rows_by T.text_of rows.items)) (Shows (LinesFault dialect bytes.now)) }
{
    let mut rows = Vec::new(alloc);
    let mut room = 0;
    let mut rest = bytes;
    'lines: while !rest.is_empty() {
        match behind_line_end(rest) {
            Some(after) => rest = after,
            None => {
                let (row, after) = record(alloc, dialect, is_text, room, rest, spare)?;
                // Most records have as many fields as the one before.
                room = row.len();
                rows.push(row)?;
                rest = after;
            }
        }
    }
    Ok(rows)
}

/// The rows of texts that bytes mean as CSV.
///
/// A record is the fields of a line, parted by the separator; a line ends with a line feed, a carriage return before
/// it or not, and the last one may have no end. A blank line is no record. A field is plain, or stands between quotes
/// with each quote in it doubled. A byte order mark in front is passed over. Rows may differ in length.
///
/// The texts are lent, by the bytes or, where a quote is doubled in one, by the room.
///
/// Of this project.
pub fn read<'a>(
    alloc: Global,
    separator: Separator,
    bytes: &'a [u8],
    room: &'a mut Room,
) -> Result<Vec<Vec<&'a str>>, ReadError>
    ensures rows { IfOk result (λ rows. IsCsv (with_quotes separator) bytes.now (rows_of rows.items)) }

    // Bytes that mean no row take no memory.
    ensures promised { IsCsv (with_quotes separator) bytes.now [] → IsOk result }

    // Where there is a fault, no rows are the meaning of these bytes.
    ensures none { IfErr result (AtFault (λ line fault. NoRows (with_quotes separator) bytes.now)) }
    ensures fault { IfErr result (AtFault (IsFault (with_quotes separator) bytes.now)) }
{
    read_with(alloc, Dialect::new(separator), bytes, &mut Spare::new(room))
}

/// The rows of texts that bytes mean as CSV of a dialect, each made a cell, as `read` gives them of one that quotes. What
/// a room has left may serve for several.
///
/// Of this project.
pub fn read_with<'a, T>(
    alloc: Global,
    dialect: Dialect,
    bytes: &'a [u8],
    spare: &mut Spare<'a>,
) -> Result<Vec<Vec<T>>, ReadError>
where
    T: From<&'a str> + CellText,
    // A cell that is made of a text has that text.
    requires keeps { KeepsTexts T.from_gives T.text_of }
    ensures rows { IfOk result (λ rows. IsCsv dialect bytes.now (rows_by T.text_of rows.items)) }

    // Bytes that mean no row take no memory.
    ensures promised { IsCsv dialect bytes.now [] → IsOk result }

    // Where there is a fault, no rows are the meaning of these bytes.
    ensures none { IfErr result (AtFault (λ line fault. NoRows dialect bytes.now)) }
    ensures fault { IfErr result (AtFault (IsFault dialect bytes.now)) }
{
    let text = behind_mark(bytes);
    // To test all bytes at once takes less than to test those of each field.
    let is_text = str::from_utf8(text).is_ok();
    // No effect: the proof reads here that the separator may be one.
    let _ = dialect.separator();
    match lines(alloc, dialect, is_text, text, spare) {
        Ok(rows) => Ok(rows),
        Err(PartError::Faulty(fault, left)) => {
            let line = line_at(text, left);
            Err(ReadError::Faulty { line, fault })
        }
        Err(PartError::OutOfMemory) => Err(ReadError::OutOfMemory),
    }
}
