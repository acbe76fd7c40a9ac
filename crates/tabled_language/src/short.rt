//! Texts that stand in a few bytes.

ghost use Rattle.std.specs.Prelude.{◌≡◌, ◌≤◌, IfSome, length, take};

use std::marker::Model;
use std::str;

/// A text of at most fifteen bytes, which stand in it. A contract sees it as its bytes.
///
/// With its length it is as large as a text that is lent.
///
/// Of this project.
#[derive(Drop)]
pub struct ShortText {
    bytes: [u8; 15],
    len: u8,
    // Takes no room, and aligns this as a text that is lent: whole words are moved, which takes half of the time.
    _align: [usize; 0],
}

impl Model for ShortText {
    ghost use Rattle.std.specs.Prelude.{◌≡◌, ℕ, List, ◌≤◌, length, take, IsUtf8};

    ghost Value = { List ℕ };

    ghost view = { λ a. take a.len a.bytes };

    ghost invariant = { λ a. (a.len ≤ 15) × (length a.bytes ≡ 15) × ∥ IsUtf8 (take a.len a.bytes) ∥₁ };
}

impl ShortText {
    /// The text, if it has at most fifteen bytes.
    pub(crate) fn new(text: &str) -> Option<Self>
        ensures { IfSome result (λ short. short ≡ text.now) }
    {
        let len = text.len();
        if len > 15 {
            return None;
        }
        // Put together in its place, it is moved in whole words.
        let mut short = ShortText {
            bytes: [0; 15],
            len: len as u8,
            _align: [],
        };
        put(&mut short.bytes, text);
        Some(short)
    }

    /// The text.
    pub(crate) fn as_str(&self) -> &str
        ensures { result.now ≡ self.now }
    {
        // That these bytes are UTF-8 is the invariant, and proved, so they aren't tested again.
        unsafe { str::from_utf8_unchecked(&self.bytes[..self.len as usize]) }
    }
}

/// Puts a text where bytes begin.
#[inline(always)]
fn put(bytes: &mut [u8; 15], text: &str)
    requires { length text.now ≤ 15 }
    ensures text { take (length text.now) bytes.new ≡ text.now }
    ensures len { length bytes.new ≡ 15 }
{
    bytes[..text.len()].copy_from_slice(text.as_bytes());
}
