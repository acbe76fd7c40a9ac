//! Lines cut into lines of at most n columns.

ghost use Rattle.std.specs.Prelude.{◌≡◌, ◌+◌, ◌≤◌, ◌*◌, IfOk, IfSome, chars, length, map};
ghost use Rattle.std.specs.String.{string_bytes};
ghost use Rattle.tabled_width.specs.Pieces.{pieces};
ghost use Rattle.tabled_width.specs.WrapSteps.{begins_word, placed, placed_in_line, word_fits};
ghost use Rattle.tabled_width.specs.Wraps.{all_lines_fit, wrapped};

use crate::columns::columns_of;
use crate::pieces::Pieces;
use crate::plain::is_plain;
use crate::plain_wraps::wrap_plain;
use crate::widest::{is_blank, is_newline, is_space};
use std::alloc::{AllocError, Global};

/// The text, each of its lines cut into lines of at most n columns, between any pieces or between words, parted by blanks.
///
/// A piece of more columns stands alone in a line. A word that is wider than a line begins one, and is cut. A blank at a cut
/// between words goes, and nothing else. A width of 0 leaves no text.
///
/// Of this project.
pub fn wrap(alloc: Global, text: &str, width: usize, keep_words: bool) -> Result<String, AllocError>
    ensures { IfOk result (λ new. string_bytes new ≡ wrapped (width, keep_words) text.now) }
{
    if width == 0 {
        return Ok(String::new(alloc));
    }
    if is_plain(text) {
        return wrap_plain(alloc, text, width, keep_words);
    }
    let cuts = text.len() / width;
    let mut out = String::with_capacity(alloc, text.len().saturating_add(cuts))?;
    let mut used = None;
    let mut rest = Pieces::new(text);
    while let Some(piece) = rest.next() {
        let placed = place(width, keep_words, used, piece, rest.as_str());
        if placed.breaks {
            out.push('\n')?;
        }
        if placed.is_put {
            out.push_str(piece)?;
        }
        used = placed.used;
    }
    Ok(out)
}

/// Says whether no line of a text has more than n columns, so that wrapping leaves it as it is.
///
/// Of this project.
pub fn lines_fit(text: &str, width: usize) -> bool
    ensures { result ≡ all_lines_fit width (chars text.now) }
{
    if is_plain(text) {
        return text.len() <= width;
    }
    let mut used = 0;
    for piece in Pieces::new(text) {
        if is_newline(piece) {
            used = 0;
            continue;
        }
        let columns = columns_of(piece);
        if columns > width - used {
            return false;
        }
        used += columns;
    }
    true
}

/// What is put for a piece.
#[derive(Clone, Copy)]
struct Placed {
    /// Whether a newline comes first.
    breaks: bool,
    /// Whether the piece then comes.
    is_put: bool,
    /// How many columns its line then has, if something stands in it.
    used: Option<usize>,
}

/// What is put for a piece, before others, where its line has some columns already.
fn place(width: usize, keep_words: bool, used: Option<usize>, piece: &str, rest: &str) -> Placed
    requires { 1 ≤ width }
    ensures { result ≡ placed width keep_words used (chars piece.now) (pieces (chars rest.now)) }
{
    if is_newline(piece) {
        return Placed {
            breaks: true,
            is_put: false,
            used: None,
        };
    }
    if keep_words && is_blank(piece) && !word_fits(width, used.unwrap_or(0), rest) {
        let begins = begins_word(rest);
        return Placed {
            breaks: begins,
            is_put: false,
            used: if begins { None } else { used },
        };
    }
    place_in_line(width, used, columns_of(piece))
}

/// What is put for a piece that is put in any case, where its line has some columns already.
fn place_in_line(width: usize, used: Option<usize>, columns: usize) -> Placed
    ensures { result ≡ placed_in_line width used columns }
{
    let (breaks, before) = match used {
        None => (false, 0),
        Some(used) if used <= width && columns <= width - used => (false, used),
        Some(_) => (true, 0),
    };
    Placed {
        breaks,
        is_put: true,
        used: Some(before + columns),
    }
}

/// Says whether a blank and the first word of a text fit behind some columns.
fn word_fits(width: usize, used: usize, text: &str) -> bool
    ensures { result ≡ word_fits width (Some used) (pieces (chars text.now)) }
{
    if width <= used {
        return false;
    }
    let mut taken = used + 1;
    for piece in Pieces::new(text) {
        if is_space(piece) {
            return true;
        }
        let columns = columns_of(piece);
        if columns > width - taken {
            return false;
        }
        taken += columns;
    }
    true
}

/// Says whether a text begins with a word.
fn begins_word(text: &str) -> bool
    ensures { result ≡ begins_word (pieces (chars text.now)) }
{
    match Pieces::new(text).next() {
        Some(piece) => !is_space(piece),
        None => false,
    }
}
