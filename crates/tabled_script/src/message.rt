//! What is told of a faulty line: the word at fault, and its likely cure.

use crate::setting::read_by;
use std::alloc::{AllocError, Global};
use tabled_help::{ENTRIES, WAYS, WORDS, nearest, way_of};
use tabled_language::Fault;

/// How the text that ends steps is written as one of their words.
const THEN: &str = "; a text 'then' is written '\\then'";

const OPTIONS_FIRST: &str = ": options stand before the steps";

const CARRIAGE_RETURN: &str =
    ": the line ends with a carriage return, and is to end with a newline alone";

/// What is wrong with a line whose words are these, where the one of an index is at fault, and what may be meant: also the
/// text `then`, where that ended this step or the one before.
pub(crate) fn complaint(
    alloc: Global,
    fault: Fault,
    words: &[String],
    at: usize,
    is_beside_then: bool,
) -> Result<String, AllocError> {
    let mut told = String::new(alloc);
    match fault {
        Fault::UnknownWord => push_unknown(alloc, &mut told, words, at, is_beside_then)?,
        Fault::WordCount if at < words.len() => push_left_over(&mut told, words, at)?,
        Fault::WordCount => push_missing(&mut told, words, is_beside_then)?,
        Fault::NumberRange => push_no_number(&mut told, words, at)?,
        Fault::Escape => told.push_str(escape_complaint(words))?,
        Fault::SelectorDepth => {
            told.push_str("a selector stands in 64 others: do it in more steps")?
        }
        Fault::OutOfPlace => {
            push_quoted(&mut told, word_at(words, 0))?;
            told.push_str(
                " can't stand here: shape comes first, then rows, then spans, then steps",
            )?;
        }
        Fault::SpanMisfits => told.push_str(
            "the merged cell leaves the table, or shares a cell with one before: rows and columns count from 0",
        )?,
        Fault::ShapeDiffers => told.push_str(
            "the rows have another shape: their number, and that of the texts in the longest",
        )?,
    }
    Ok(told)
}

/// The word at an index, or none.
fn word_at(words: &[String], index: usize) -> &str {
    match words.get(index) {
        Some(word) => word.as_str(),
        None => "",
    }
}

/// Adds what is told of a word that can't stand where it does.
fn push_unknown(
    alloc: Global,
    told: &mut String,
    words: &[String],
    at: usize,
    is_beside_then: bool,
) -> Result<(), AllocError> {
    let (verb, word) = (word_at(words, 0), word_at(words, at));
    push_quoted(told, word)?;
    let lower = word.to_lowercase(alloc)?;
    if let Some(way) = way_of(lower.as_str(), &WAYS) {
        told.push_str(" is no word here: ")?;
        return told.push_str(way.way);
    }
    told.push_str(" is no word that can stand here")?;
    if let Some(options) = read_by(lower.as_str()) {
        told.push_str(": a file is read by ")?;
        told.push_str(options)?;
        told.push(' ')?;
        return told.push_str(word);
    }
    if let Some(cure) = cure_of(word) {
        return told.push_str(cure);
    }
    if let Some(cure) = cure_behind(verb, word) {
        return told.push_str(cure);
    }
    if WORDS.contains(&word) {
        told.push_str(": ")?;
        return push_help(told, verb);
    }
    if let Some(meant) = nearest(lower.as_str(), &WORDS) {
        told.push_str("; maybe ")?;
        told.push_str(meant)?;
        return told.push_str(" is meant");
    }
    if at == 0 {
        told.push_str(": --help lists all words")?;
        return told.push_str(if is_beside_then { THEN } else { "" });
    }
    if takes_selector(verb) {
        told.push_str("; maybe name ")?;
        push_quoted(told, word)?;
        return told.push_str(" is meant, the columns of that name");
    }
    told.push_str(": ")?;
    push_help(told, verb)
}

/// The cure of a word that can stand nowhere.
fn cure_of(word: &str) -> Option<&'static str> {
    if word.ends_with('\r') {
        return Some(CARRIAGE_RETURN);
    }
    if word.starts_with('\u{feff}') {
        return Some(": it begins with a byte order mark, which a script has not");
    }
    if word.starts_with('-') {
        return Some(OPTIONS_FIRST);
    }
    if word.ends_with(".script") {
        return Some(": a script is read by --script FILE");
    }
    if word.starts_with('[') || word.starts_with('{') {
        return Some(": JSON is read by --json FILE, and from standard input by --json -");
    }
    if word.contains(' ') {
        return Some(": single tabs part words, or, among arguments, blanks outside of quotes");
    }
    if word.contains(',') {
        return Some(": CSV is read by --csv FILE, and from standard input by --csv -");
    }
    None
}

/// The cure of a word behind a verb that has another one for it.
fn cure_behind(verb: &str, word: &str) -> Option<&'static str> {
    match (verb, word) {
        ("remove", "name") => Some("; maybe remove named NAME is meant"),
        ("remove", "row") => Some("; maybe remove rows A B is meant"),
        ("remove", "column") => Some("; maybe remove columns A B is meant"),
        ("keep", "row") => Some("; maybe keep rows WHAT .. is meant"),
        ("keep", "column" | "name" | "named") => Some("; maybe keep columns WHAT .. is meant"),
        ("sort", "numeric" | "numbers") => Some("; maybe number is meant"),
        ("sort", "desc" | "descending") => Some("; maybe down is meant"),
        ("sort", "asc" | "ascending" | "up") => {
            Some(": the smallest stands first without a word for it")
        }
        _ => None,
    }
}

/// Adds what is told of words that are left over.
fn push_left_over(told: &mut String, words: &[String], at: usize) -> Result<(), AllocError> {
    let (verb, word) = (word_at(words, 0), word_at(words, at));
    if verb == "concat" && !word.starts_with("--") {
        told.push_str("concat takes as many texts as its rows times its columns: ")?;
        return push_help(told, verb);
    }
    push_quoted(told, word)?;
    told.push_str(" is left over")?;
    if word.starts_with("--") {
        return told.push_str(OPTIONS_FIRST);
    }
    if is_verb(word) {
        return told.push_str(": among arguments 'then' stands between two steps");
    }
    told.push_str(": ")?;
    push_help(told, verb)
}

/// Adds what is told where a word is missing.
fn push_missing(
    told: &mut String,
    words: &[String],
    is_beside_then: bool,
) -> Result<(), AllocError> {
    told.push_str("a word is missing behind ")?;
    push_quoted(told, word_at(words, words.len().saturating_sub(1)))?;
    told.push_str(": ")?;
    push_help(told, word_at(words, 0))?;
    told.push_str(if is_beside_then { THEN } else { "" })
}

/// Adds what is told of a word that is no number.
fn push_no_number(told: &mut String, words: &[String], at: usize) -> Result<(), AllocError> {
    let (verb, word) = (word_at(words, 0), word_at(words, at));
    push_quoted(told, word)?;
    let lines = (verb, word_at(words, 1));
    told.push_str(if lines == ("keep", "rows") {
        " is no index, slice or test of rows"
    } else {
        " is no number that can stand here"
    })?;
    if word.ends_with('\r') {
        return told.push_str(CARRIAGE_RETURN);
    }
    if word.starts_with("--") {
        return told.push_str(OPTIONS_FIRST);
    }
    match lines {
        ("keep", "rows") => told.push_str(": a test is NAME=TEXT or, in quotes, NAME>NUMBER"),
        ("remove", "columns") => {
            told.push_str("; maybe remove named ")?;
            push_quoted(told, word)?;
            told.push_str(" is meant")
        }
        _ => {
            told.push_str(": ")?;
            push_help(told, verb)
        }
    }
}

/// What is wrong with words of which one has a bad escape, or isn't UTF-8: then bytes of it are told as U+FFFD.
fn escape_complaint(words: &[String]) -> &'static str {
    if words.iter().any(|word| word.contains('\u{fffd}')) {
        return "the bytes are no UTF-8: 'iconv -f LATIN1 -t UTF-8' makes it of Latin-1";
    }
    "a backslash begins no escape: a backslash is written \\\\"
}

/// Adds a word in quotes, its control characters as escapes.
pub(crate) fn push_quoted(told: &mut String, word: &str) -> Result<(), AllocError> {
    told.push('\'')?;
    for c in word.chars() {
        if c.is_control() || c == '\u{feff}' {
            for escaped in c.escape_default() {
                told.push(escaped)?;
            }
        } else {
            told.push(c)?;
        }
    }
    told.push('\'')
}

/// Says whether a word begins lines of scripts.
fn is_verb(word: &str) -> bool {
    ENTRIES
        .iter()
        .take_while(|entry| entry.word != "all")
        .any(|entry| entry.word == word)
}

/// Says whether a selector stands behind a verb.
fn takes_selector(verb: &str) -> bool {
    matches!(
        verb,
        "set"
            | "dup"
            | "clean"
            | "tabs"
            | "wrap"
            | "truncate"
            | "replace"
            | "cspan"
            | "rspan"
            | "merge"
    )
}

/// Adds how the words of a verb are told.
fn push_help(told: &mut String, verb: &str) -> Result<(), AllocError> {
    told.push_str("see --help ")?;
    told.push_str(verb)
}
