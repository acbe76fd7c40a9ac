//! Texts of blanks and of characters of one byte that can be seen: each takes one column, and is a piece by itself.

ghost use Rattle.std.specs.Prelude.{◌↔◌, IsTrue};
ghost use Rattle.tabled_width.specs.Plain.{ArePlain, IsPlain};

/// Says whether a text is of such characters alone.
#[doc(hidden)]
pub fn is_plain(text: &str) -> bool
    ensures { IsTrue result ↔ ArePlain text.now }
{
    let mut rest = text.as_bytes();
    // A loop of eight steps is written out by the compiler, which takes half of the time.
    while 8 <= rest.len() {
        let (part, others) = rest.split_at(8);
        if !are_plain(part) {
            return false;
        }
        rest = others;
    }
    are_plain(rest)
}

/// Says whether each byte is such a character.
#[inline(always)]
fn are_plain(bytes: &[u8]) -> bool
    ensures { IsTrue result ↔ ArePlain bytes.now }
{
    let mut plain = true;
    for byte in bytes {
        plain &= is_plain_byte(*byte);
    }
    plain
}

/// Says whether a byte is such a character.
#[inline(always)]
pub(crate) fn is_plain_byte(byte: u8) -> bool
    ensures { IsTrue result ↔ IsPlain byte }
{
    b' ' <= byte && byte <= b'~'
}
