//! JSON, written.

ghost use Rattle.std.specs.Prelude.{◌≡◌, IfOk, length};

use crate::reading::{is_word, reads};
use std::alloc::{AllocError, Global};
use std::io::{self, ErrorKind, Write};
use tabled_grid::records::VecRecords;
use tabled_json::Layout::{self, Array, Lines};
use tabled_json::Values::{self, Bare, Strings};
use tabled_json::{WriteError, write, write_records};

/// Texts of rows: `/` parts rows, and `|` texts.
pub(crate) fn rows_of<'a>(alloc: Global, rows: &'a str) -> Result<Vec<Vec<&'a str>>, AllocError> {
    let mut all = Vec::new(alloc);
    for row in rows.split('/') {
        let mut texts = Vec::new(alloc);
        for text in row.split('|') {
            texts.push(text)?;
        }
        all.push(texts)?;
    }
    Ok(all)
}

/// What rows are written as, or why they aren't.
fn written(
    alloc: Global,
    layout: Layout,
    values: Values,
    rows: &[Vec<&str>],
) -> Result<String, AllocError> {
    let mut bytes = Vec::new(alloc);
    match write(alloc, &mut bytes, layout, values, rows) {
        Ok(()) => String::from_utf8_lossy(alloc, &bytes),
        Err(WriteError::EqualKeys { first, second }) => {
            format!(in alloc; "keys {first} and {second} are equal")
        }
        Err(WriteError::LongRow { row }) => format!(in alloc; "row {row} is too long"),
        Err(_) => Err(AllocError),
    }
}

/// Whether this is what rows are written as, or why they aren't.
fn writes_rows(alloc: Global, layout: Layout, values: Values, rows: &str, want: &str) -> bool {
    match rows_of(alloc, rows) {
        Ok(rows) => is_word(written(alloc, layout, values, &rows), want),
        Err(_) => false,
    }
}

/// Rows, and what they are written as, or why they aren't.
const CASES: &[(Layout, Values, &str, &str)] = &[
    (Array, Strings, "a", "[]\n"),
    (Lines, Bare, "a|b", ""),
    (Array, Strings, "a/1", "[{\"a\":\"1\"}]\n"),
    (
        Array,
        Bare,
        "a|b/1|x/2|",
        "[{\"a\":1,\"b\":\"x\"},\n{\"a\":2,\"b\":\"\"}]\n",
    ),
    (
        Lines,
        Strings,
        "a|b/1|x/2|",
        "{\"a\":\"1\",\"b\":\"x\"}\n{\"a\":\"2\",\"b\":\"\"}\n",
    ),
    // A row may have fewer texts than there are keys.
    (Lines, Bare, "a|b/1", "{\"a\":1}\n"),
    // What is bare, to the letter, and what isn't.
    (
        Lines,
        Bare,
        "a|b|c|d|e|f/-0|1.10|1E+9|true|false|null",
        "{\"a\":-0,\"b\":1.10,\"c\":1E+9,\"d\":true,\"e\":false,\"f\":\"null\"}\n",
    ),
    (
        Lines,
        Bare,
        "a|b|c|d|e|f/01|1.|.5|+1| 1|True",
        "{\"a\":\"01\",\"b\":\"1.\",\"c\":\".5\",\"d\":\"+1\",\"e\":\" 1\",\"f\":\"True\"}\n",
    ),
    // Keys and values are escaped where they have to be.
    (
        Lines,
        Bare,
        "\"\\\n/\u{1f}\t\0\u{e9}\u{7f}",
        "{\"\\\"\\\\\\u000a\":\"\\u001f\\u0009\\u0000\u{e9}\u{7f}\"}\n",
    ),
    // Keys differ, and each text has one.
    (Array, Bare, "a|b|a/1|2|3", "keys 0 and 2 are equal"),
    (Lines, Bare, "a|/1|2/1|2|3", "row 2 is too long"),
    (Lines, Bare, "|", "keys 0 and 1 are equal"),
];

#[test]
fn writes(rt: HostRuntime) {
    for &(layout, values, rows, want) in CASES {
        assert!(rt;
            writes_rows(rt.alloc(), layout, values, rows, want),
            "{rows}"
        );
    }
    let none: [Vec<&str>; 0] = [];
    assert!(rt; is_word(written(rt.alloc(), Array, Bare, &none), "[]\n"));
}

/// Whether what rows are written as is read as these rows.
fn reads_rows_back(
    alloc: Global,
    layout: Layout,
    values: Values,
    rows: &[Vec<&str>],
    want: &str,
) -> bool {
    match written(alloc, layout, values, rows) {
        Ok(json) => reads(alloc, json.as_bytes(), want),
        Err(_) => false,
    }
}

/// Whether rows with all kinds of texts are read back.
fn reads_back(alloc: Global, layout: Layout, values: Values) -> bool {
    let want = "a|b\u{1f600}|c|/1|\"\\\u{1}|null|/true||[1]|/x y|\u{e9}|{|/";
    match rows_of(
        alloc,
        "a|b\u{1f600}|c/1|\"\\\u{1}|null/true||[1]/x y|\u{e9}|{",
    ) {
        Ok(rows) => reads_rows_back(alloc, layout, values, &rows, want),
        Err(_) => false,
    }
}

/// What is written is read as the rows that it was written of.
#[test]
fn what_is_written_is_read(rt: HostRuntime) {
    for (layout, values) in [
        (Array, Strings),
        (Array, Bare),
        (Lines, Strings),
        (Lines, Bare),
    ] {
        assert!(rt; reads_back(rt.alloc(), layout, values));
    }
}

/// A writer that takes so many bytes, and then fails.
#[derive(Drop)]
struct Narrow {
    room: usize,
    taken: usize,
}

impl Write for Narrow {
    fn write(&mut self, bytes: &[u8]) -> io::Result<usize> {
        let count = bytes.len().min(self.room);
        if count == 0 {
            return Err(io::Error::from(ErrorKind::StorageFull));
        }
        self.room -= count;
        self.taken = self.taken.saturating_add(count);
        Ok(count)
    }

    fn flush(&mut self) -> io::Result<()> {
        Ok(())
    }
}

/// A row of two texts.
fn pair<'a>(alloc: Global, first: &'a str, second: &'a str) -> Result<Vec<&'a str>, AllocError>
    ensures { IfOk result (λ row. length row.items ≡ 2) }
{
    Ok(vec![in alloc; first, second]?)
}

/// A store of two rows, where it is not refused.
fn store(alloc: Global) -> Option<VecRecords<&'static str>> {
    let keys = pair(alloc, "a", "b").ok()?;
    let row = pair(alloc, "1", "x").ok()?;
    VecRecords::new(alloc, vec![in alloc; keys, row].ok()?).ok()
}

/// Writes a store into little room, and says how that ended and how many bytes were taken. Where it is refused for memory,
/// nothing is written, and there is nothing to say.
fn narrowed(
    alloc: Global,
    room: usize,
    records: &VecRecords<&str>,
) -> Option<(Option<ErrorKind>, usize)> {
    let mut writer = Narrow { room, taken: 0 };
    match write_records(alloc, &mut writer, Array, Bare, records) {
        Ok(()) => Some((None, writer.taken)),
        Err(WriteError::OutOfMemory) => None,
        Err(error) => Some((Some(io::Error::from(error).kind()), writer.taken)),
    }
}

/// Whether a store is written into little room as far as that goes, and a failure is told.
fn is_narrowed(alloc: Global, room: usize, records: &VecRecords<&str>) -> bool {
    let want = match room {
        0..=17 => (Some(ErrorKind::StorageFull), room),
        _ => (None, 18),
    };
    match narrowed(alloc, room, records) {
        Some(ended) => ended == want,
        None => true,
    }
}

#[test]
fn tells_a_failing_writer(rt: HostRuntime) {
    let Some(records) = store(rt.alloc()) else {
        return;
    };
    for room in 0..21 {
        assert!(rt; is_narrowed(rt.alloc(), room, &records));
    }
}

/// The kind of the error of a program that an error is.
fn kind_of(error: WriteError) -> ErrorKind {
    io::Error::from(error).kind()
}

/// As an error of a program it is told what rows are no records for.
#[test]
fn rows_that_are_no_records_are_invalid(rt: HostRuntime) {
    let (first, second, row) = (0, 1, 2);
    assert!(rt; kind_of(WriteError::EqualKeys { first, second }) == ErrorKind::InvalidInput);
    assert!(rt; kind_of(WriteError::LongRow { row }) == ErrorKind::InvalidInput);
    assert!(rt; kind_of(WriteError::OutOfMemory) == ErrorKind::OutOfMemory);
}
