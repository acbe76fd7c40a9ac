//! The columns of a text.

ghost use Rattle.std.specs.Prelude.{◌≡◌, ◌≤◌, ◌*◌, chars, length};
ghost use Rattle.tabled_width.specs.Columns.{text_width};

use crate::plain::is_plain;
use unicode_width::UnicodeWidthStr;

/// The columns that a text takes in a terminal. A control character takes one.
///
/// Of this project.
pub fn columns_of(text: &str) -> usize
    ensures value { result ≡ text_width (chars text.now) }
    ensures bound { result ≤ 2 * length text.now }
{
    if is_plain(text) {
        return text.len();
    }
    text.width()
}
