//! JSON, read.

use std::alloc::{AllocError, Global};
use std::test::Fail;
use tabled_json::{Member, Room, Spare, read, read_table, read_table_with, table};

/// Writes a text and the character behind it.
fn push_text(words: &mut String, text: &str, end: char) -> Result<(), AllocError> {
    words.push_str(text)?;
    words.push(end)
}

/// Writes a row, with `|` behind each text and `/` behind the row.
fn push_row(words: &mut String, row: &[&str]) -> Result<(), AllocError> {
    for text in row {
        push_text(words, text, '|')?;
    }
    words.push('/')
}

/// Rows, with `|` behind each text and `/` behind each row.
fn joined(alloc: Global, rows: &[Vec<&str>]) -> Result<String, AllocError> {
    let mut words = String::new(alloc);
    for row in rows {
        push_row(&mut words, row)?;
    }
    Ok(words)
}

/// Whether these are the words.
pub(crate) fn is_word(made: Result<String, AllocError>, want: &str) -> bool {
    match made {
        Ok(words) => words.as_str() == want,
        Err(_) => false,
    }
}

/// Whether bytes are read in a room as this table, or with this error.
fn reads_in(alloc: Global, bytes: &[u8], room: &mut Room, want: &str) -> bool {
    match read_table(alloc, bytes, room) {
        Ok(rows) => is_word(joined(alloc, &rows), want),
        Err(error) => is_word(format!(in alloc; "{error}"), want),
    }
}

/// Whether bytes are read as this table, or with this error.
pub(crate) fn reads(alloc: Global, bytes: &[u8], want: &str) -> bool {
    match Room::new(alloc) {
        Ok(mut room) => reads_in(alloc, bytes, &mut room, want),
        Err(_) => false,
    }
}

/// Whether JSON before an arrow is read as the table, or with the error, behind it.
fn reads_so(alloc: Global, case: &str) -> bool {
    match case.split_once(" => ") {
        Some((json, want)) => reads(alloc, json.as_bytes(), want),
        None => false,
    }
}

/// Each way in which records and rows stand, and each kind of value: JSON and its table.
const TABLES: &[&str] = &[
    // No record, or none with a key.
    " => ",
    " \n\r\t => ",
    "[] => ",
    " [ ]  => ",
    "[{}] => //",
    "{}{} => ///",
    // One array, one a line, with nothing between them, and behind a byte order mark.
    "[{\"a\":1},{\"a\":2}] => a|/1|/2|/",
    "{\"a\":1}\n{\"a\":2}\r\n => a|/1|/2|/",
    "{\"a\":1}{\"a\":2} => a|/1|/2|/",
    " [\t{ \"a\"\n: \"b\" , \"c\":\r\"d\" } ] \n => a|c|/b|d|/",
    "\u{FEFF}[{\"a\":\"\u{FEFF}\"}] => a|/\u{FEFF}|/",
    // Keys come as they are first met; a key that lacks is empty, and of equal ones the last counts.
    "{\"b\":1,\"a\":2}{\"c\":3,\"a\":4} => b|a|c|/1|2||/|4|3|/",
    "{\"a\":1,\"b\":2,\"a\":3} => a|b|/3|2|/",
    "{\"a\":1,\"\\u0061\":null}{\"\":2} => a||/||/|2|/",
    // Values: numbers to the digit, words, and nested ones as they are written.
    "{\"a\":1.10,\"b\":-0,\"c\":1E+400,\"d\":123456789012345678901234567890} => a|b|c|d|/1.10|-0|1E+400|123456789012345678901234567890|/",
    "{\"a\":true,\"b\":false,\"c\":null,\"d\":\"null\"} => a|b|c|d|/true|false||null|/",
    "{\"a\":[ 1, {\"b\" : \"\\n\"} ],\"c\":{ },\"d\":[[[]]]} => a|c|d|/[ 1, {\"b\" : \"\\n\"} ]|{ }|[[[]]]|/",
    // Strings: each escape, a pair of surrogates, and characters as they are.
    "{\"\\\"\\\\\\/\\b\\f\\n\\r\\t\":\"\\u00e9\\u00E9\\ud83d\\uDE00\\u0000\"} => \"\\/\u{8}\u{c}\n\r\t|/\u{e9}\u{e9}\u{1f600}\0|/",
    "{\"a\":\"\u{7f}\u{e9}\u{1f600}\u{ffff}\"} => a|/\u{7f}\u{e9}\u{1f600}\u{ffff}|/",
    // Rows, which may differ in length, and hold any value.
    "[[]] => /",
    "[[],[1]] => /1|/",
    " [ [\"a\", \"b\"] , [1.0, null, {\"c\":[2]}] ]  => a|b|/1.0||{\"c\":[2]}|/",
];

#[test]
fn reads_tables(rt: HostRuntime) {
    for &case in TABLES {
        assert!(rt; reads_so(rt.alloc(), case), "{case}");
    }
}

/// JSON and its fault, with its place.
const FAULTS: &[&str] = &[
    "[ => line 1, column 2: the end comes too early",
    "[{\"a\":1} => line 1, column 9: the end comes too early",
    "1 => line 1, column 1: an object is wanted here",
    "[1] => line 1, column 2: an object is wanted here",
    "[true] => line 1, column 2: an object is wanted here",
    "{\"a\" null} => line 1, column 6: something else is wanted here",
    "[{},[]] => line 1, column 5: an object is wanted here",
    "[[],{}] => line 1, column 5: an array is wanted here",
    "[[],] => line 1, column 5: a closing bracket is not wanted here",
    "[{},] => line 1, column 5: a closing bracket is not wanted here",
    "{\"a\":1,} => line 1, column 8: a closing bracket is not wanted here",
    "{\"a\":[1,]} => line 1, column 9: a closing bracket is not wanted here",
    "[{}]] => line 1, column 5: a closing bracket is not wanted here",
    "[{}]{} => line 1, column 5: something else is wanted here",
    "{} ] => line 1, column 4: a closing bracket is not wanted here",
    "[{},\n,{}] => line 2, column 1: a comma is not wanted here",
    "{},{} => line 1, column 3: a comma is not wanted here",
    "{\"a\" 1} => line 1, column 6: something else is wanted here",
    "{'a':1} => line 1, column 2: a single quote is no quote of JSON",
    "{\"a\":'b'} => line 1, column 6: a single quote is no quote of JSON",
    "// all\n{} => line 1, column 1: JSON has no comments",
    "{\"a\":1} # all => line 1, column 9: JSON has no comments",
    "{\"a\":NaN} => line 1, column 6: a word that JSON does not have",
    "{\"a\":\n \"b\",\n c:1} => line 3, column 2: a word that JSON does not have",
    "{\"a\":truE} => line 1, column 6: a word that JSON does not have",
    "{\"a\":01} => line 1, column 6: a number is badly written",
    "{\"a\":-} => line 1, column 6: a number is badly written",
    "{\"a\":1.} => line 1, column 6: a number is badly written",
    "{\"a\":1e} => line 1, column 6: a number is badly written",
    "{\"a\":+1} => line 1, column 6: a number is badly written",
    "{\"a\":.5} => line 1, column 6: a number is badly written",
    "{\"a\":\"b} => line 1, column 7: a string is not closed",
    "{\"a => line 1, column 3: a string is not closed",
    "{\"a\":\"b\nc\"} => line 1, column 8: a control character stands in a string",
    "{\"a\":\"b\tc\"} => line 1, column 8: a control character stands in a string",
    "{\"a\":\"\\ud83d\"} => line 1, column 7: \\u names no character",
    "{\"a\":\"\\ud83d\\u0041\"} => line 1, column 7: \\u names no character",
    "{\"a\":\"\\ude00\\ud83d\"} => line 1, column 7: \\u names no character",
    "{\"a\":\"\\u00g0\"} => line 1, column 7: \\u names no character",
    "{\"a\":\"\\x41\"} => line 1, column 7: a backslash has no meaning",
    "\u{FEFF}\u{FEFF}{} => line 1, column 1: an object is wanted here",
];

#[test]
fn tells_faults(rt: HostRuntime) {
    for &case in FAULTS {
        assert!(rt; reads_so(rt.alloc(), case), "{case}");
    }
    let latin = b"{\"a\":1}\n{\"a\":\"caf\xe9\"}";
    assert!(rt; reads(rt.alloc(), latin, "line 2, column 6: a text is not UTF-8"));
}

/// Writes the members of an object, with `=` behind each key and `|` behind each text.
fn push_members(words: &mut String, object: &[Member]) -> Result<(), AllocError> {
    for member in object {
        push_text(words, member.key, '=')?;
        push_text(words, member.text, '|')?;
    }
    Ok(())
}

/// The members of objects.
fn members(alloc: Global, objects: &[Vec<Member>]) -> Result<String, AllocError> {
    let mut words = String::new(alloc);
    for object in objects {
        push_members(&mut words, object)?;
    }
    Ok(words)
}

/// Whether the table of objects is this one.
fn has_table(alloc: Global, objects: &[Vec<Member>], want: &str) -> bool {
    match table(alloc, objects) {
        Ok(rows) => is_word(joined(alloc, &rows), want),
        Err(_) => false,
    }
}

/// Whether bytes are read in a room as objects of these members, and whether this is their table.
fn reads_objects_in(alloc: Global, bytes: &[u8], room: &mut Room, want: (&str, &str)) -> bool {
    match read(alloc, bytes, room) {
        Ok(objects) => is_word(members(alloc, &objects), want.0)
            && has_table(alloc, &objects, want.1),
        Err(_) => false,
    }
}

/// Members stand as they are read, also where two have one key, and their table is that of `read_table`.
#[test]
fn reads_members(rt: HostRuntime) -> Result<(), Fail> {
    let json = b"{\"a\":\"\\t\",\"b\":2,\"a\":3}";
    let want = ("a=\t|b=2|a=3|", "a|b|/3|2|/");
    let mut room = Room::new(rt.alloc())?;
    assert!(rt; reads_objects_in(rt.alloc(), json, &mut room, want));
    Ok(())
}

/// Records in which each key and each text has an escape.
fn many_escapes(alloc: Global) -> Result<Vec<u8>, AllocError> {
    let mut json = Vec::new(alloc);
    for _ in 0..6000 {
        json.extend_from_slice(b"{\"\\u0061\":\"a\\\\b\"}\n")?;
    }
    Ok(json)
}

/// Whether rows are those of many escapes.
fn are_escapes(rows: &[Vec<&str>]) -> bool {
    let mut want = "a";
    for row in rows {
        if !row.iter().all(|text: &&str| *text == want) {
            return false;
        }
        want = "a\\b";
    }
    rows.len() == 6001
}

/// Whether many escapes are read into what is left of a room.
fn reads_escapes<'a>(alloc: Global, json: &'a [u8], spare: &mut Spare<'a>) -> bool {
    match read_table_with(alloc, json, spare) {
        Ok(rows) => are_escapes(&rows),
        Err(_) => false,
    }
}

/// One room serves several texts, and more of them than its first parts hold.
#[test]
fn reads_many_escapes(rt: HostRuntime) -> Result<(), Fail> {
    let json = many_escapes(rt.alloc())?;
    let mut room = Room::new(rt.alloc())?;
    let mut spare = Spare::new(&mut room);
    for _ in 0..2 {
        assert!(rt; reads_escapes(rt.alloc(), &json, &mut spare));
    }
    Ok(())
}
