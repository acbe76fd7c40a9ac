//! The byte order mark in front of a text.

ghost use Rattle.std.specs.Prelude.{◌≡◌};
ghost use Rattle.tabled_texts.specs.Marks.{begins_with_mark, behind_mark};

/// The bytes of U+FEFF.
const MARK: [u8; 3] = [0xEF, 0xBB, 0xBF];

/// Whether bytes begin with a byte order mark.
///
/// Of this project.
pub fn begins_with_mark(bytes: &[u8]) -> bool
    ensures { result ≡ begins_with_mark bytes.now }
{
    3 <= bytes.len() && bytes[0] == MARK[0] && bytes[1] == MARK[1] && bytes[2] == MARK[2]
}

/// Bytes behind a byte order mark, if they begin with one.
///
/// Of this project.
pub fn behind_mark(bytes: &[u8]) -> &[u8]
    ensures { result.now ≡ behind_mark bytes.now }
{
    if begins_with_mark(bytes) {
        return &bytes[3..];
    }
    bytes
}
