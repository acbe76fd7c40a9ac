//! Texts, lent by what is read, or by room for copies.

ghost use Rattle.std.specs.Prelude.{◌≡◌, IfOk};

use std::alloc::AllocError;
use tabled_texts::Spare;

/// A copy of bytes.
fn copied<'a>(bytes: &[u8], spare: &mut Spare<'a>) -> Result<&'a [u8], AllocError>
    ensures { IfOk result (λ found. found.now ≡ bytes.now) }
{
    let room = spare.take(bytes.len())?;
    room.copy_from_slice(bytes);
    Ok(room)
}

/// A text: lent by a source that begins with it, or else a copy.
pub(crate) fn lent<'a>(
    source: &'a [u8],
    text: &[u8],
    spare: &mut Spare<'a>,
) -> Result<&'a [u8], AllocError>
    ensures { IfOk result (λ found. found.now ≡ text.now) }
{
    if text.len() <= source.len() {
        let front = &source[..text.len()];
        if front == text {
            return Ok(front);
        }
    }
    copied(text, spare)
}
