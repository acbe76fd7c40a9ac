//! What is said of words and of faults, as texts.

ghost use Rattle.std.specs.List.{find};
ghost use Rattle.std.specs.Option.{option_map};
ghost use Rattle.std.specs.Prelude.{◌≡◌, IfOk};
ghost use Rattle.std.specs.Str.{bytes_eq};
ghost use Rattle.std.specs.String.{string_bytes};
ghost use Rattle.tabled_help.specs.Said.{said_of, with_example};

use crate::entry::{Entry, FaultText, Way};
use std::alloc::{AllocError, Global};

/// What some entries say of a word: the lines of each that is called so, one behind another. Where there is none, that is
/// nothing.
///
/// Of this project.
pub fn said_of(alloc: Global, word: &str, entries: &[Entry]) -> Result<String, AllocError>
    ensures { IfOk result (λ text. string_bytes text ≡ said_of word.now entries.now) }
{
    let mut text = String::new(alloc);
    for entry in entries {
        if entry.word == word {
            text.push_str(entry.text)?;
        }
    }
    Ok(text)
}

/// What is written in place of a word of other tools, as some ways have it.
///
/// Of this project.
pub fn way_of<'w>(word: &str, ways: &'w [Way]) -> Option<&'w Way>
    ensures { option_map (λ way. way.now) result ≡ find (λ way. bytes_eq way.word.now word.now) ways.now }
{
    ways.iter().find(|way| way.word == word)
}

/// What is said of the fault of a number, counted from 1, with its example.
///
/// Of this project.
pub fn explained(alloc: Global, number: usize, fault: &FaultText) -> Result<String, AllocError>
    ensures { IfOk result (λ text. string_bytes text ≡ with_example number fault.now) }
{
    let FaultText {
        title,
        when,
        cure,
        example,
    } = *fault;
    format!(in alloc; "Fault {number}: {title}\n\n{when}\n\nCure: {cure}\n\n{example}")
}
