//! The texts of a line.

ghost use Rattle.std.specs.Prelude.{◌≡◌, map, false, IfOk, MatchOption, Some};
ghost use Rattle.std.specs.List.{AllByRecursion};
ghost use Rattle.std.specs.Option.{option_map};
ghost use Rattle.tabled_language.specs.Lent.{bytes_of};
ghost use Rattle.tabled_language.specs.Line.{has_byte, is_plain, make_empty_line, texts_of, words_of};
ghost use Rattle.tabled_language.specs.Output.{IsOwnWord};

use crate::lent::LentText;
use crate::parts::{Parts, count_parts};
use crate::plain::PlainText;
use crate::text_parts::Fields;
use crate::word::lent_text;
use std::alloc::{AllocError, Global};
use std::str;
use tabled_grid::records::CellText;

/// Bytes as a text, if they are UTF-8 without a backslash: then the words are their own texts.
pub(crate) fn plain(bytes: &[u8]) -> Option<&str>
    ensures { MatchOption result (is_plain bytes.now ≡ false) (λ text. (text.now ≡ bytes.now) × (has_byte 92 text.now ≡ false)) }
{
    if bytes.contains(&b'\\') {
        return None;
    }
    match str::from_utf8(bytes) {
        Ok(text) => Some(text),
        Err(_) => None,
    }
}

/// The texts of a line's words, each read by itself, or nothing where one has a bad escape or isn't UTF-8.
pub(crate) fn escaped_texts<'a>(
    alloc: Global,
    line: &'a [u8],
) -> Result<Option<Vec<LentText<'a>>>, AllocError>
    requires { has_byte 10 line.now ≡ false }
    ensures { IfOk result (λ texts. option_map (λ v. map bytes_of v.items) texts ≡ texts_of (words_of line.now)) }
{
    let mut texts = Vec::with_capacity(alloc, count_parts(line, b'\t'))?;
    let mut room = Vec::new(alloc);
    for word in Parts::new(line, b'\t') {
        match lent_text(alloc, word, &mut room)? {
            Some(text) => texts.push(text)?,
            None => return Ok(None),
        }
    }
    Ok(Some(texts))
}

/// The words that are left of a line without escapes, lent as texts.
// A call of its own keeps the values of this loop, which reads all cells, in registers.
#[inline(never)]
pub(crate) fn lent_texts<'a>(
    alloc: Global,
    words: Fields<'a>,
) -> Result<Vec<LentText<'a>>, AllocError>
    requires { AllByRecursion IsOwnWord words }
    ensures { IfOk result (λ texts. map bytes_of texts.items ≡ words.entry) }
{
    let mut texts = Vec::with_capacity(alloc, words.left())?;
    for word in words {
        texts.push(LentText::Lent(PlainText::new(word)))?;
    }
    Ok(texts)
}

/// Says whether the line of texts is empty: they are one empty word.
pub(crate) fn make_empty_line(texts: &[LentText]) -> bool
    ensures { result ≡ make_empty_line (map bytes_of texts.now) }
{
    texts.len() == 1 && texts[0].text().is_empty()
}
