//! Texts cut into pieces of n columns.

ghost use Rattle.std.specs.Prelude.{◌≡◌, ◌≤◌, ℕ, IfOk, chars, encode_utf8_all};
ghost use Rattle.std.specs.String.{string_bytes};
ghost use Rattle.tabled_spans.specs.Widths.{IsCutText, character_columns, pieces, placed};

use std::alloc::{AllocError, Global};
use unicode_width::UnicodeWidthChar;

/// The text, each line cut into pieces of at most n columns.
pub(super) fn cut_text(alloc: Global, text: &str, width: usize) -> Result<String, AllocError>
    ensures cut { IfOk result (λ new. string_bytes new ≡ encode_utf8_all (pieces width 0 (chars text.now))) }
    ensures parted { 1 ≤ width → IfOk result (λ new. IsCutText width text.now (string_bytes new)) }
{
    let mut out = String::with_capacity(alloc, text.len())?;
    let mut used = 0;
    for c in text.chars() {
        let (begins, character, then_used) = place(width, used, c);
        if begins {
            out.push('\n')?;
        }
        out.push(character)?;
        used = then_used;
    }
    Ok(out)
}

/// Whether a character begins a piece, what stands for it, and how many columns its piece then has.
fn place(width: usize, used: usize, c: char) -> (bool, char, usize)
    ensures begins { result.0 ≡ (placed width used c).begins }
    ensures character { result.1 ≡ (placed width used c).character }
    ensures used { result.2 ≡ (placed width used c).used }
{
    if c == '\n' {
        return (false, c, 0);
    }
    let columns = columns_of(c);
    if columns == 0 {
        return (false, c, used);
    }
    let begins = used >= width;
    let start = if begins { 0 } else { used };
    if columns > width - start {
        return (begins, '\u{FFFD}', width);
    }
    (begins, c, start + columns)
}

/// The columns that a character takes, 1 where it is a control character.
fn columns_of(c: char) -> usize
    ensures value { result ≡ character_columns c }
{
    c.width().unwrap_or(1)
}
