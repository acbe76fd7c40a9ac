//! Which fields stand between quotes when they are written.

ghost use Rattle.std.specs.Prelude.{◌≡◌, ◌&&◌, ◌||◌, map};
ghost use Rattle.std.specs.Simd.Lanes.{mask_l};
ghost use Rattle.tabled_texts.specs.Marks.{begins_with_mark};
ghost use Rattle.tabled_csv.specs.Writing.{holds_special, is_none, is_special};

use std::simd::prelude::*;
use tabled_texts::begins_with_mark;

/// How many bytes are tested at once.
const BLOCK: usize = 8;

/// Whether a byte of a text asks for quotes.
#[inline(always)]
pub(crate) fn holds_special(separator: u8, text: &[u8]) -> bool
    ensures { result ≡ holds_special separator text.now }
{
    let mut rest = text;
    while BLOCK <= rest.len() {
        let (block, others) = rest.split_at(BLOCK);
        if special_marks(separator, u8x8::from_slice(block)) != 0 {
            return true;
        }
        rest = others;
    }
    is_special_among(separator, rest)
}

/// A binary digit for each byte, which is 1 where the byte asks for quotes.
#[inline(always)]
fn special_marks(separator: u8, bytes: u8x8) -> u64
    ensures { result ≡ mask_l (map (is_special separator) bytes) }
{
    let quotes = bytes.simd_eq(u8x8::splat(b'"'));
    let ends = bytes.simd_eq(u8x8::splat(b'\r')) | bytes.simd_eq(u8x8::splat(b'\n'));
    (bytes.simd_eq(u8x8::splat(separator)) | (quotes | ends)).to_bitmask()
}

/// Whether a byte of a text asks for quotes, byte by byte.
#[inline(always)]
fn is_special_among(separator: u8, text: &[u8]) -> bool
    ensures { result ≡ holds_special separator text.now }
{
    // Letters lie after these bytes and most separators: one comparison passes them.
    let last = separator.max(b'"');
    for byte in text {
        if *byte <= last && (*byte == separator || matches!(*byte, b'"' | b'\r' | b'\n')) {
            return true;
        }
    }
    false
}

/// Whether the first field of a record stands between quotes: one with such a byte, one that is empty and alone, and
/// one that would read as a byte order mark.
pub(crate) fn first_is_quoted(separator: u8, is_first: bool, is_lone: bool, text: &[u8]) -> bool
    ensures { result ≡ holds_special separator text.now || ((is_lone && is_none text.now) || (is_first && begins_with_mark text.now)) }
{
    if holds_special(separator, text) || (is_lone && text.is_empty()) {
        return true;
    }
    is_first && begins_with_mark(text)
}
