//! The widest pieces and words of texts.

ghost use Rattle.std.specs.Prelude.{◌≡◌, ◌≤◌, ◌*◌, chars, length};
ghost use Rattle.tabled_width.specs.Pieces.{is_just, is_space, widest_piece, widest_word};
ghost use Rattle.tabled_width.specs.Plain.{ArePlain};

use crate::columns::columns_of;
use crate::pieces::Pieces;
use crate::plain::is_plain;

/// The columns of the widest piece of a text, 0 where it has none. A newline isn't counted.
///
/// Of this project.
pub fn widest_piece(text: &str) -> usize
    ensures { result ≡ widest_piece (chars text.now) }
{
    if is_plain(text) {
        return text.len().min(1);
    }
    let mut most = 0;
    for piece in Pieces::new(text) {
        if !is_newline(piece) {
            most = most.max(columns_of(piece));
        }
    }
    most
}

/// The columns of the widest word of a text, 0 where it has none. Words are parted by blanks and by newlines.
///
/// Of this project.
pub fn widest_word(text: &str) -> usize
    ensures { result ≡ widest_word (chars text.now) }
{
    if is_plain(text) {
        return longest_word(text);
    }
    let mut most = 0;
    let mut columns = 0;
    for piece in Pieces::new(text) {
        if is_space(piece) {
            most = most.max(columns);
            columns = 0;
        } else {
            columns += columns_of(piece);
        }
    }
    most.max(columns)
}

/// The columns of the widest word of a text of blanks and of characters of one byte that can be seen.
fn longest_word(text: &str) -> usize
    requires { ArePlain text.now }
    ensures { result ≡ widest_word (chars text.now) }
{
    let mut most: usize = 0;
    let mut columns: usize = 0;
    for byte in text.as_bytes() {
        if *byte == b' ' {
            most = most.max(columns);
            columns = 0;
        } else {
            columns += 1;
        }
    }
    most.max(columns)
}

pub(crate) fn is_newline(piece: &str) -> bool
    ensures { result ≡ is_just 10 (chars piece.now) }
{
    piece == "\n"
}

pub(crate) fn is_blank(piece: &str) -> bool
    ensures { result ≡ is_just 32 (chars piece.now) }
{
    piece == " "
}

pub(crate) fn is_space(piece: &str) -> bool
    ensures { result ≡ is_space (chars piece.now) }
{
    is_blank(piece) || is_newline(piece)
}
