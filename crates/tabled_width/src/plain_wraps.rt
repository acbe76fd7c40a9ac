//! Texts of blanks and of characters of one byte that can be seen, cut into lines of at most n columns.

ghost use Rattle.std.specs.Prelude.{◌≡◌, ◌≤◌, ◌++◌, ◌∷◌, ℕ, None, Some, true, IfOk, List, chars, encode_utf8_all};
ghost use Rattle.std.specs.Option.{unwrap_or};
ghost use Rattle.std.specs.String.{string_bytes};
ghost use Rattle.tabled_width.specs.Pieces.{pieces};
ghost use Rattle.tabled_width.specs.Plain.{ArePlain, IsPlainRest, blank_words, words_left};
ghost use Rattle.tabled_width.specs.Wraps.{broken, last_used, with_words, wrapped, wrapped_line};

use std::alloc::{AllocError, Global};

/// Such a text, as `wrap` cuts it.
pub(crate) fn wrap_plain(
    alloc: Global,
    text: &str,
    width: usize,
    keep_words: bool,
) -> Result<String, AllocError>
    requires width { 1 ≤ width }
    requires plain { ArePlain text.now }
    ensures { IfOk result (λ new. string_bytes new ≡ wrapped (width, keep_words) text.now) }
{
    if text.len() <= width {
        let whole = String::from_str(alloc, text)?;
        return Ok(whole);
    }
    let cuts = text.len() / width;
    let mut out = String::with_capacity(alloc, text.len().saturating_add(cuts))?;
    if keep_words {
        push_words(&mut out, text, width)?;
    } else {
        push_cut(&mut out, text, width)?;
    }
    Ok(out)
}

/// Puts such a text behind others, cut between words.
fn push_words(out: &mut String, text: &str, width: usize) -> Result<(), AllocError>
    requires width { 1 ≤ width }
    requires plain { ArePlain text.now }
    ensures { IfOk result (λ _. string_bytes out.new ≡ string_bytes out.old ++ encode_utf8_all (wrapped_line width true (pieces (chars text.now)))) }
{
    let (first, mut rest) = first_word(text);
    let mut used = push_cut(out, first, width)?;
    while let Some(words) = rest {
        let (word, others) = first_word(words);
        used = push_word(out, word, width, used)?;
        rest = others;
    }
    Ok(())
}

/// The first word of a text, and the words behind the blank that ends it.
fn first_word(text: &str) -> (&str, Option<&str>)
    requires { ArePlain text.now }
    ensures first { ArePlain result.0.now }
    ensures others { IsPlainRest result.1 }
    ensures words { blank_words text.now ≡ result.0.now ∷ words_left result.1 }
{
    match text.split_once(' ') {
        Some((word, others)) => (word, Some(others)),
        None => (text, None),
    }
}

/// Puts a word behind a line that has some columns, with a blank before it: where both don't fit, it begins the next line.
/// Gives the columns of the last line.
fn push_word(out: &mut String, word: &str, width: usize, used: usize) -> Result<usize, AllocError>
    requires width { 1 ≤ width }
    requires within { used ≤ width }
    requires plain { ArePlain word.now }
    ensures put { IfOk result (λ then. (words : List (List (List ℕ))) →
        string_bytes out.old ++ encode_utf8_all (with_words width (Some used) (pieces (chars word.now) ∷ words)) ≡ string_bytes out.new ++ encode_utf8_all (with_words width (Some then) words)) }
    ensures within { IfOk result (λ then. then ≤ width) }
{
    if word.len() < width - used {
        out.push(' ')?;
        out.push_str(word)?;
        return Ok(used + 1 + word.len());
    }
    if word.is_empty() {
        return Ok(used);
    }
    out.push('\n')?;
    let columns = push_cut(out, word, width)?;
    Ok(columns)
}

/// Puts such a text behind others, cut into lines between any characters. Gives the columns of the last line.
fn push_cut(out: &mut String, text: &str, width: usize) -> Result<usize, AllocError>
    requires width { 1 ≤ width }
    requires plain { ArePlain text.now }
    ensures put { IfOk result (λ used. string_bytes out.new ≡ string_bytes out.old ++ encode_utf8_all (broken width None (pieces (chars text.now)))) }
    ensures used { IfOk result (λ used. used ≡ unwrap_or (last_used width None (pieces (chars text.now))) 0) }
    ensures within { IfOk result (λ used. used ≤ width) }
{
    let mut rest = text;
    while width < rest.len() {
        let (line, others) = rest.split_at(width);
        out.push_str(line)?;
        out.push('\n')?;
        rest = others;
    }
    out.push_str(rest)?;
    Ok(rest.len())
}
