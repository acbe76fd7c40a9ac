//! Quotes that are doubled, undone.

ghost use Rattle.std.specs.Prelude.{◌≡◌, ◌≤◌, ℕ, List, IfOk, length, take};
ghost use Rattle.tabled_csv.specs.Grammar.{doubled};

use std::alloc::AllocError;
use tabled_texts::Spare;

/// Bytes with one quote for two.
pub(crate) fn undoubled<'a>(bytes: &[u8], spare: &mut Spare<'a>) -> Result<&'a [u8], AllocError>
    ensures { IfOk result (λ found. (text : List ℕ) → bytes.now ≡ doubled text → found.now ≡ text) }
{
    let room = spare.take(bytes.len())?;
    let len = undouble(bytes, room);
    Ok(&room[..len])
}

/// Writes bytes with one quote for two to the front of a room, and says how many they are.
fn undouble(bytes: &[u8], room: &mut [u8]) -> usize
    requires { length bytes.now ≤ length room.old }
    ensures inside { result ≤ length room.new }
    ensures text { (text : List ℕ) → bytes.now ≡ doubled text → take result room.new ≡ text }
{
    let mut len = 0;
    let mut is_second = false;
    for byte in bytes {
        if is_second {
            is_second = false;
        } else {
            room[len] = *byte;
            len += 1;
            is_second = *byte == b'"';
        }
    }
    len
}
