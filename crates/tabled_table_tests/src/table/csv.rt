//! CSV, read and written.

use std::alloc::Global;
use std::io::{self, Write};
use std::test::Fail;
use tabled_csv::{
    Dialect, ReadError, Room, Separator, Spare, WriteError, read, read_with, write, write_records,
};
use tabled_grid::records::VecRecords;

/// The rows that bytes mean in a dialect.
fn rows_in<'a>(
    alloc: Global,
    dialect: Dialect,
    bytes: &'a [u8],
    room: &'a mut Room,
) -> Result<Vec<Vec<&'a str>>, ReadError> {
    read_with(alloc, dialect, bytes, &mut Spare::new(room))
}

/// What bytes are read as: rows with `|` behind each field and `/` behind each row, or the error.
fn shown(alloc: Global, dialect: Dialect, bytes: &[u8]) -> Result<String, Fail> {
    let mut room = Room::new(alloc)?;
    let rows = match rows_in(alloc, dialect, bytes, &mut room) {
        Ok(rows) => rows,
        Err(error) => return Ok(format!(in alloc; "{error}")?),
    };
    let mut shown = String::new(alloc);
    for row in &rows {
        for text in row {
            shown.push_str(text)?;
            shown.push('|')?;
        }
        shown.push('/')?;
    }
    Ok(shown)
}

#[test]
fn reads(rt: HostRuntime) -> Result<(), Fail> {
    let comma = Dialect::new(Separator::comma());
    for &(bytes, want) in &[
        ("", ""),
        ("a,b\nc,d\n", "a|b|/c|d|/"),
        ("a,b\r\nc", "a|b|/c|/"),
        ("\n\r\na\n\n\n", "a|/"),
        (",", "||/"),
        ("\"\"", "|/"),
        ("\"a,b\",\"c\nd\"\n", "a,b|c\nd|/"),
        ("\"say \"\"hi\"\"\"\n\"\"\"\"", "say \"hi\"|/\"|/"),
        ("a\"b,c\"\"d\n", "a\"b|c\"\"d|/"),
        ("a\rb,\r\r\n\r", "a\rb|\r|/\r|/"),
        ("\"a\"\r\n\"b\"", "a|/b|/"),
        ("\u{FEFF}a\n", "a|/"),
        ("a\0b,é\n", "a\0b|é|/"),
        (
            "abcdefgh,abcdefghi\nabcdefgh",
            "abcdefgh|abcdefghi|/abcdefgh|/",
        ),
        ("a\n\"b", "line 2: a quote is not closed"),
        ("\"a\n\n", "line 1: a quote is not closed"),
        ("\"a\nb\"c\n", "line 2: something is behind a closing quote"),
        ("\"a\"\r", "line 1: something is behind a closing quote"),
    ] {
        let read = shown(rt.alloc(), comma, bytes.as_bytes())?;
        assert_eq!(rt; read.as_str(), want);
    }
    let faulty = shown(rt.alloc(), comma, &[b'a', 10, b'b', 255, 10])?;
    assert_eq!(rt; faulty.as_str(), "line 2: a field is not UTF-8");
    let quoted = shown(rt.alloc(), comma, &[34, 255, 34, 34, 34, 10])?;
    assert_eq!(rt; quoted.as_str(), "line 1: a field is not UTF-8");
    let below = shown(rt.alloc(), comma, &[34, 34, 34, 10, 255, 10, 34, 10])?;
    assert_eq!(rt; below.as_str(), "line 2: a field is not UTF-8");
    Ok(())
}

#[test]
fn reads_quotes_as_other_bytes(rt: HostRuntime) -> Result<(), Fail> {
    let plain = Dialect::new(Separator::comma()).quoting(false);
    for &(bytes, want) in &[
        ("\"a,b\"\n", "\"a|b\"|/"),
        ("\"\r\n\"\"\n\n", "\"|/\"\"|/"),
        ("a,\"b\"c\n\"", "a|\"b\"c|/\"|/"),
    ] {
        let read = shown(rt.alloc(), plain, bytes.as_bytes())?;
        assert_eq!(rt; read.as_str(), want);
    }
    let faulty = shown(rt.alloc(), plain, &[34, 10, 255])?;
    assert_eq!(rt; faulty.as_str(), "line 2: a field is not UTF-8");
    Ok(())
}

/// Texts with quotes that take more room than its first parts have.
#[test]
fn reads_many_quotes(rt: HostRuntime) -> Result<(), Fail> {
    let mut bytes = Vec::new(rt.alloc());
    for _ in 0..6000 {
        bytes.extend_from_slice(b"\"a\"\"b\"\n")?;
    }
    let mut room = Room::new(rt.alloc())?;
    let Ok(rows) = read(rt.alloc(), Separator::comma(), &bytes, &mut room) else {
        return Err(Fail::from("no rows"));
    };
    assert_eq!(rt; rows.len(), 6000);
    for row in &rows {
        for text in row {
            assert_eq!(rt; *text, "a\"b");
        }
    }
    Ok(())
}

#[test]
fn writes(rt: HostRuntime) -> Result<(), Fail> {
    let alloc = rt.alloc();
    let Some(semicolon) = Separator::new(b';') else {
        return Err(Fail::from("no separator"));
    };
    for &(bytes, want) in &[
        ("", ""),
        ("\r\na,\"b\"\r\nc", "a;b\nc\n"),
        ("\"\"\n,\n", "\"\"\n;\n"),
        ("\"a;\",\"\"\"\",\"\r\"\n", "\"a;\";\"\"\"\";\"\r\"\n"),
        ("a\"\"b,abcdefgh;\n", "\"a\"\"\"\"b\";\"abcdefgh;\"\n"),
        ("\"\u{FEFF}a\"\n\"\u{FEFF}\"", "\"\u{FEFF}a\"\n\u{FEFF}\n"),
    ] {
        let mut room = Room::new(alloc)?;
        let Ok(rows) = read(alloc, Separator::comma(), bytes.as_bytes(), &mut room) else {
            return Err(Fail::from("no rows"));
        };
        let mut out = Vec::new(alloc);
        if write(alloc, &mut out, semicolon, &rows).is_err() {
            return Err(Fail::from("not written"));
        }
        assert_eq!(rt; out.as_slice(), want.as_bytes());
    }
    Ok(())
}

#[test]
fn names_separators(rt: HostRuntime) {
    for &byte in &[b',', b'\t', 0, 127] {
        assert!(rt; Separator::new(byte).is_some());
    }
    for &byte in &[b'"', b'\n', b'\r', 128, 255] {
        assert!(rt; Separator::new(byte).is_none());
    }
}

/// A writer that takes so many bytes, and then fails.
#[derive(Drop)]
struct Narrow {
    room: usize,
    taken: usize,
}

impl Write for Narrow {
    fn write(&mut self, bytes: &[u8]) -> io::Result<usize> {
        let count = bytes.len().min(self.room);
        if count == 0 {
            return Err(io::Error::from(io::ErrorKind::StorageFull));
        }
        self.room -= count;
        self.taken = self.taken.saturating_add(count);
        Ok(count)
    }

    fn flush(&mut self) -> io::Result<()> {
        Ok(())
    }
}

/// Writes a store of one row into little room, and says how that ended and how many bytes were taken. Where the
/// store is refused, there is nothing to say.
fn narrowed(alloc: Global, room: usize) -> Option<(bool, usize)> {
    let row = vec![in alloc; "a", "b,"].ok()?;
    let rows = vec![in alloc; row].ok()?;
    let records = VecRecords::new(alloc, rows).ok()?;
    let mut writer = Narrow { room, taken: 0 };
    let is_written = match write_records(alloc, &mut writer, Separator::comma(), &records) {
        Ok(()) => true,
        // Refused for memory, nothing is written.
        Err(WriteError::OutOfMemory) => return None,
        Err(WriteError::Failed(_)) => false,
    };
    Some((is_written, writer.taken))
}

#[test]
fn tells_a_failing_writer(rt: HostRuntime) {
    for room in 0..9 {
        let want = (room >= 7, room.min(7));
        assert!(rt; narrowed(rt.alloc(), room).is_none_or(|ended| ended == want));
    }
}

/// Reads some bytes with quotes in a dialect, and says whether that is right or refused.
fn is_read_or_refused(alloc: Global, dialect: Dialect, bytes: &[u8]) -> bool {
    let Ok(mut room) = Room::new(alloc) else {
        return true;
    };
    match rows_in(alloc, dialect, bytes, &mut room) {
        Ok(rows) => !rows.is_empty(),
        Err(error) => error == ReadError::OutOfMemory,
    }
}

#[test]
fn reads_or_is_refused(rt: HostRuntime) {
    let dialect = Dialect::new(Separator::comma());
    for bytes in ["a,b\n", "\"a\"\"b\"\n\"c\"\"\"\n"] {
        for quoting in [true, false] {
            let dialect = dialect.quoting(quoting);
            assert!(rt; is_read_or_refused(rt.alloc(), dialect, bytes.as_bytes()));
        }
    }
}
