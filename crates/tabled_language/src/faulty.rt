//! Which word of a line its fault is at.

ghost use Rattle.std.specs.Prelude.{◌≤◌, IfOk, length};

use crate::fault::{Fault, LineError};
use crate::lent::LentText;
use crate::parts::Parts;
use crate::texts::escaped_texts;
use crate::words::{Read, Words};
use std::alloc::{AllocError, Global};
use tabled_grid::records::CellText;

/// Which of a line's words its fault is at, counted from 0: the one that is no such word or number as is asked for, the
/// first that is left over, or, where one is missing, the end.
///
/// Of this project.
pub fn faulty_word(alloc: Global, words: &[LentText]) -> Result<usize, AllocError>
    ensures { IfOk result (λ at. at ≤ length words.now) }
{
    let Some((verb, behind)) = words.split_first() else {
        return Ok(0);
    };
    let mut rest = Words::of_texts(behind);
    let read = read_behind(alloc, verb.text(), &mut rest);
    let asked = words.len().saturating_sub(rest.left());
    match read {
        Ok(()) | Err(LineError::Faulty(Fault::WordCount)) => Ok(asked),
        Err(LineError::Faulty(_)) => Ok(asked.saturating_sub(1)),
        Err(LineError::OutOfMemory) => Err(AllocError),
    }
}

/// Which word of the first line of some bytes its fault is at, as `faulty_word` has it: the first one where a word is no
/// text.
///
/// Of this project.
pub fn faulty_word_of_line(alloc: Global, bytes: &[u8]) -> Result<usize, AllocError> {
    let Some(line) = Parts::new(bytes, b'\n').next() else {
        return Ok(0);
    };
    // A part has no separator in it, which is asked here and not proved.
    if line.contains(&b'\n') {
        return Ok(0);
    }
    match escaped_texts(alloc, line)? {
        Some(words) => faulty_word(alloc, &words),
        None => Ok(0),
    }
}

/// Reads what is asked for behind the first word of a line.
fn read_behind(alloc: Global, verb: &str, words: &mut Words) -> Read<()> {
    match verb {
        "row" => {}
        "shape" => {
            words.shape()?;
        }
        "span" => {
            words.anchor()?;
        }
        verb => {
            words.step(alloc, verb)?;
        }
    }
    Ok(())
}
