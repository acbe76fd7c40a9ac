//! The lines of bytes.

ghost use Rattle.std.specs.Prelude.{◌≡◌};
ghost use Rattle.tabled_texts.specs.Lines.{line_at};

/// In which line of bytes, counted from 1, so many of them are left.
///
/// Of this project.
pub fn line_at(bytes: &[u8], left: usize) -> usize
    ensures { result ≡ line_at bytes.now left }
{
    1 + bytes[..bytes.len().saturating_sub(left)]
        .iter()
        .filter(|byte| **byte == b'\n')
        .count()
}
