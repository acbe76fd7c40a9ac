//! The words of a line, and the texts that they stand for.

ghost use Rattle.std.specs.Prelude.{◌≡◌, false, if◌then◌else◌, IfOk, None, Some};
ghost use Rattle.std.specs.Option.{option_map};
ghost use Rattle.tabled_language.specs.Lent.{bytes_of};
ghost use Rattle.tabled_language.specs.Line.{has_byte};
ghost use Rattle.tabled_language.specs.Word.{escape, integer_of, length_of, number_of, number_to, text_of_word, unescaped};

use crate::lent::LentText;
use crate::parts::near_place;
use crate::plain::PlainText;
use std::alloc::{AllocError, Global};
use std::str;
use tabled_grid::records::FromText;

/// The largest number that a step may name.
const LARGEST_NUMBER: usize = 10_000;

/// What a letter after a backslash stands for.
fn escape(letter: u8) -> Option<u8>
    ensures { result ≡ escape letter }
{
    match letter {
        b't' => Some(b'\t'),
        b'n' => Some(b'\n'),
        b'\\' => Some(b'\\'),
        _ => None,
    }
}

/// Undoes the escapes of a word into bytes, in the place of what they were. Says whether each backslash begins one.
fn unescape(word: &[u8], bytes: &mut Vec<u8>) -> Result<bool, AllocError>
    ensures { IfOk result (λ is_word. (if is_word then Some bytes.new.items else None) ≡ unescaped word.now) }
{
    bytes.clear();
    let mut rest = word;
    while let Some(place) = near_place(rest, b'\\') {
        let (plain, behind) = rest.split_at(place);
        let [_, letter, others @ ..] = behind else {
            return Ok(false);
        };
        let Some(escaped) = escape(*letter) else {
            return Ok(false);
        };
        bytes.extend_from_slice(plain)?;
        bytes.push(escaped)?;
        rest = others;
    }
    bytes.extend_from_slice(rest)?;
    Ok(true)
}

/// The text of a word, or nothing where it has a bad escape or isn't UTF-8. It is lent where it has no escape; else its bytes
/// are put together in room that texts share.
pub(crate) fn lent_text<'a>(
    alloc: Global,
    word: &'a [u8],
    room: &mut Vec<u8>,
) -> Result<Option<LentText<'a>>, AllocError>
    requires { (has_byte 9 word.now ≡ false) × (has_byte 10 word.now ≡ false) }
    ensures { IfOk result (λ text. option_map bytes_of text ≡ text_of_word word.now) }
{
    if word.contains(&b'\\') {
        if !unescape(word, room)? {
            return Ok(None);
        }
        return match str::from_utf8(room) {
            Ok(text) => Ok(Some(LentText::from_text(alloc, text)?)),
            Err(_) => Ok(None),
        };
    }
    match str::from_utf8(word) {
        Ok(text) => Ok(Some(LentText::Lent(PlainText::new(text)))),
        Err(_) => Ok(None),
    }
}

/// The number that digits write, leading zeros too, if it isn't above another.
fn number_to(largest: usize, text: &str) -> Option<usize>
    ensures { result ≡ number_to largest text.now }
{
    // `parse` takes a plus, too.
    if text.starts_with('+') {
        return None;
    }
    let number = text.parse::<usize>().ok()?;
    if number <= largest {
        Some(number)
    } else {
        None
    }
}

/// A number that a step may name.
pub(crate) fn number_of(text: &str) -> Option<usize>
    ensures { result ≡ number_of text.now }
{
    // Most numbers have one digit.
    if let [digit @ b'0'..=b'9'] = text.as_bytes() {
        return Some((*digit - b'0') as usize);
    }
    number_to(LARGEST_NUMBER, text)
}

/// A number that a shape or a span may name: what digits write, leading zeros too, with no sign before them.
///
/// Of this project.
pub fn length_of(text: &str) -> Option<usize>
    ensures { result ≡ length_of text.now }
{
    number_to(usize::MAX, text)
}

/// The number that digits write, with a minus before them or none.
pub(crate) fn integer_of(text: &str) -> Option<isize>
    ensures { result ≡ integer_of text.now }
{
    match text.strip_prefix('-') {
        Some(digits) => {
            let number = number_of(digits)?;
            Some(-(number as isize))
        }
        None => {
            let number = number_of(text)?;
            Some(number as isize)
        }
    }
}
