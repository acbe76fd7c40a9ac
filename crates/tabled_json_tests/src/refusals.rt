//! Calls that are refused for memory.

use crate::writing::rows_of;
use std::alloc::Global;
use tabled_json::{Layout, ReadError, Room, Values, WriteError, read, read_table, write};

/// Whether a table is read in a room, or refused for memory.
fn reads_table_in(alloc: Global, json: &str, room: &mut Room) -> bool {
    match read_table(alloc, json.as_bytes(), room) {
        Ok(rows) => !rows.is_empty(),
        Err(error) => error == ReadError::OutOfMemory,
    }
}

/// Whether a table is read, or refused for memory, as its room may be.
fn reads_table(alloc: Global, json: &str) -> bool {
    match Room::new(alloc) {
        Ok(mut room) => reads_table_in(alloc, json, &mut room),
        Err(_) => true,
    }
}

/// Whether a record is read in a room, or refused for memory.
fn reads_record_in(alloc: Global, json: &str, room: &mut Room) -> bool {
    match read(alloc, json.as_bytes(), room) {
        Ok(objects) => objects.len() == 1,
        Err(error) => error == ReadError::OutOfMemory,
    }
}

/// Whether a record is read, or refused for memory, as its room may be.
fn reads_record(alloc: Global, json: &str) -> bool {
    match Room::new(alloc) {
        Ok(mut room) => reads_record_in(alloc, json, &mut room),
        Err(_) => true,
    }
}

/// Reads records with escapes, in which nesting takes memory, and rows, and says whether that is right or refused.
#[test]
fn reads_or_is_refused(rt: HostRuntime) {
    for json in [
        "[{\"a\":\"\\n\",\"b\":[[[]]],\"a\":{\"c\":[1,2]}},{\"\\u0064\":1}]",
        "[[\"\\t\",2],[[3]]]",
    ] {
        assert!(rt; reads_table(rt.alloc(), json));
    }
    assert!(rt; reads_record(rt.alloc(), "{\"a\":\"\\u00e9\"}"));
}

/// Whether records of 23 bytes are written to a vector: all of them, or none for want of memory.
fn writes_records(alloc: Global, bytes: &mut Vec<u8>, rows: &[Vec<&str>]) -> bool {
    match write(alloc, bytes, Layout::Lines, Values::Bare, rows) {
        Ok(()) => bytes.len() == 23,
        Err(WriteError::OutOfMemory) => bytes.is_empty(),
        // A vector takes all, or asks for memory in vain.
        Err(WriteError::Failed(_)) => true,
        Err(_) => false,
    }
}

/// Writes records: all of them, or none for want of memory.
#[test]
fn writes_or_is_refused(rt: HostRuntime) {
    let Ok(rows) = rows_of(rt.alloc(), "a|b|c/1|2|\"") else {
        return;
    };
    let mut bytes = Vec::new(rt.alloc());
    assert!(rt; writes_records(rt.alloc(), &mut bytes, &rows));
}
