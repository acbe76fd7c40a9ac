//! Calls of what is told of words: the words of one's own program, and their help.

use std::alloc::{AllocError, Global};
use tabled_help::{ENTRIES, FAULTS, WAYS, WORDS, explained, is_within, nearest, said_of, way_of};

/// What may be meant by a word that is none of scripts.
pub fn meant(word: &str) -> Option<&'static str> {
    if let Some(way) = way_of(word, &WAYS) {
        return Some(way.way);
    }
    nearest(word, &WORDS)
}

/// The column of a table that is called nearly so.
pub fn column_named<'w>(name: &str, columns: &[&'w str]) -> Option<&'w str> {
    nearest(name, columns)
}

/// Says whether two words differ by three letters at most.
pub fn are_alike(word: &str, other: &str) -> bool {
    is_within(3, word, other)
}

/// What is said of a word, or else of its first fault.
pub fn help(alloc: Global, word: &str) -> Result<String, AllocError> {
    let said = said_of(alloc, word, &ENTRIES)?;
    if said.is_empty() {
        return explained(alloc, 1, &FAULTS[0]);
    }
    Ok(said)
}
