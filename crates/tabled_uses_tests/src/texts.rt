//! Texts in room, and rows of texts.

use std::alloc::{AllocError, Global};
use std::test::Fail;
use tabled_testing::{flat, nested};
use tabled_texts::{Room, Spare};
use tabled_uses::texts::{
    AsciiError, count_empty_of_records, count_empty_of_rows, read_ascii, without_blanks,
};

/// Whether bytes are those of a text.
fn is_text(bytes: &[u8], want: &str) -> bool {
    bytes == want.as_bytes()
}

/// Whether texts stand whole beside those that are made after them, in the first part of room and in another one.
fn stand_whole(alloc: Global) -> Result<bool, AllocError> {
    let mut room = Room::new(alloc)?;
    let mut spare = Spare::new(&mut room);
    let long = vec![in alloc; b'x'; 5000]?;
    let first = without_blanks(b" a b", &mut spare)?;
    let none = without_blanks(b"", &mut spare)?;
    let second = without_blanks(b"c d ", &mut spare)?;
    let third = without_blanks(&long, &mut spare)?;
    let last = without_blanks(b"e", &mut spare)?;
    Ok(
        is_text(first, "ab")
            && is_text(none, "")
            && is_text(second, "cd")
            && third == long.as_slice()
            && is_text(last, "e"),
    )
}

#[test]
fn texts_stand_whole(rt: HostRuntime) -> Result<(), Fail> {
    assert!(rt; stand_whole(rt.alloc())?);
    Ok(())
}

#[test]
fn texts_stand_whole_or_are_refused(rt: HostRuntime) {
    assert!(rt; stand_whole(rt.alloc()).unwrap_or(true));
}

/// Whether bytes are read as a text, or a byte that isn't of ASCII is told in this line.
fn reads(alloc: Global, bytes: &str, want: &str, line: usize) -> Result<bool, AllocError> {
    let mut room = Room::new(alloc)?;
    match read_ascii(bytes.as_bytes(), &mut Spare::new(&mut room)) {
        Ok(text) => Ok(is_text(text, want) && line == 0),
        Err(error) => Ok(error == AsciiError::NotAscii { line }),
    }
}

#[test]
fn texts_are_read_behind_a_mark(rt: HostRuntime) -> Result<(), Fail> {
    for &(bytes, want, line) in &[
        ("", "", 0),
        ("\u{FEFF}", "", 0),
        ("\u{FEFF}a b\nc", "ab\nc", 0),
        ("ä", "", 1),
        ("\u{FEFF}\n\n a\n ä\n", "", 4),
        ("a\u{FEFF}", "", 1),
    ] {
        assert!(rt; reads(rt.alloc(), bytes, want, line)?, "{bytes:?}");
    }
    Ok(())
}

#[test]
fn empty_texts_are_counted(rt: HostRuntime) -> Result<(), Fail> {
    for &(table, want) in &[("", 0), ("_ /", 1), ("a _ / _ b /", 2), ("a b / c d /", 0)] {
        let rows = nested(rt.alloc(), table)?;
        assert_eq!(rt; count_empty_of_rows(&rows), want);
        assert_eq!(rt; count_empty_of_records(&rows), want);
        assert_eq!(rt; count_empty_of_records(&flat(rt.alloc(), table)?), want);
    }
    Ok(())
}
