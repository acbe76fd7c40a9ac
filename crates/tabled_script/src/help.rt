//! What is told in place of a table: what the program can do, its words, and its faults.

use crate::outcome::{DONE, FAILED};
use crate::program::write_whole;
use crate::refusal::REFUSED;
use std::alloc::{AllocError, Global};
use std::io::Write;
use tabled_help::{ENTRIES, FAULTS, HELP, WORDS, explained, nearest, said_of};

/// What `--version` tells.
const VERSION: &str = "tabled_script 1, of the records of tabled 0.22.0\n";

/// What is asked to be told.
///
/// Of this project.
#[derive(Debug, Drop)]
pub enum Telling {
    /// A text, which there is.
    Text(String),
    /// Nothing, and why.
    Nothing(String),
}

impl Telling {
    /// Writes the text, or tells why there is none, and answers a status: 0 for what was written, 1 for what there isn't,
    /// 4 where writing failed.
    pub fn tell<W: Write, E: Write>(self, writer: &mut W, errors: &mut E) -> u8 {
        match self {
            Telling::Text(text) => match write_whole(writer, text.as_bytes()) {
                Ok(()) => DONE,
                Err(_) => FAILED,
            },
            Telling::Nothing(why) => {
                // Where it can't be told, the status says it.
                let _ = errors.write_all(why.as_bytes());
                REFUSED
            }
        }
    }
}

/// What arguments ask to be told in place of a table, if they do: all that the program can do, or what is said of a word;
/// all faults, or one with its example; or which program it is.
///
/// Of this project.
pub fn told_instead(alloc: Global, arguments: &[String]) -> Result<Option<Telling>, AllocError> {
    let Some((option, words)) = without_columns(arguments).split_first() else {
        return Ok(None);
    };
    let told = match option.as_str() {
        "--help" | "-h" => match words.first() {
            None => Telling::Text(String::from_str(alloc, HELP)?),
            Some(word) => help_of(alloc, word.as_str())?,
        },
        "--explain" => match words.first() {
            None => Telling::Text(all_faults(alloc)?),
            Some(number) => explanation(alloc, number.as_str())?,
        },
        "--version" => Telling::Text(String::from_str(alloc, VERSION)?),
        _ => return Ok(None),
    };
    Ok(Some(told))
}

/// The arguments without the columns of a terminal, which stand before all others.
fn without_columns(arguments: &[String]) -> &[String] {
    match arguments {
        [option, _, others @ ..] if option.as_str() == "--columns" => others,
        _ => arguments,
    }
}

/// What is said of a word: its own lines, or those of the verbs behind which it stands.
fn help_of(alloc: Global, word: &str) -> Result<Telling, AllocError> {
    let said = said_of(alloc, word, &ENTRIES)?;
    if !said.is_empty() {
        return Ok(Telling::Text(said));
    }
    if WORDS.contains(&word) {
        return Ok(Telling::Text(said_behind_verbs(alloc, word)?));
    }
    let why = match nearest(word, &WORDS) {
        Some(meant) => format!(in alloc;
            "tabled_script: there is no word {word}; maybe {meant} is meant\n"
        )?,
        None => format!(in alloc;
            "tabled_script: there is no word {word}: --help lists all words\n"
        )?,
    };
    Ok(Telling::Nothing(why))
}

/// The lines in which a word stands among others.
fn said_behind_verbs(alloc: Global, word: &str) -> Result<String, AllocError> {
    let mut said = String::new(alloc);
    for entry in &ENTRIES {
        if entry
            .text
            .split(|c: char| c != '-' && !c.is_ascii_lowercase())
            .any(|it| it == word)
        {
            said.push_str(entry.text)?;
        }
    }
    Ok(said)
}

/// What is said of the fault of a number.
fn explanation(alloc: Global, number: &str) -> Result<Telling, AllocError> {
    if let Ok(number) = number.parse::<usize>() {
        if let Some(fault) = FAULTS.get(number.wrapping_sub(1)) {
            return Ok(Telling::Text(explained(alloc, number, fault)?));
        }
    }
    let why = format!(in alloc; "tabled_script: there are faults 1 to 8: --explain lists them\n")?;
    Ok(Telling::Nothing(why))
}

/// What is said of all faults, without their examples.
fn all_faults(alloc: Global) -> Result<String, AllocError> {
    let mut text = String::new(alloc);
    let mut number = 0usize;
    for fault in &FAULTS {
        number = number.saturating_add(1);
        let (title, when, cure) = (fault.title, fault.when, fault.cure);
        let told = format!(in alloc; "Fault {number}: {title}\n\n{when}\n\nCure: {cure}\n\n")?;
        text.push_str(told.as_str())?;
    }
    Ok(text)
}
