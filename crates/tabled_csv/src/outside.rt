//! Where a plain field ends.

ghost use Rattle.std.specs.Prelude.{◌≡◌, false, length, map, MatchOption};
ghost use Rattle.std.specs.List.{list_any};
ghost use Rattle.std.specs.Simd.Lanes.{mask_l};
ghost use Rattle.tabled_csv.specs.Fields.{IsFirstOutside};
ghost use Rattle.tabled_csv.specs.Grammar.{is_outside};

use std::simd::prelude::*;

/// How many bytes are tested at once.
const BLOCK: usize = 16;

/// The first place of a separator or a line feed.
#[inline(always)]
pub(crate) fn first_outside(separator: u8, bytes: &[u8]) -> Option<usize>
    ensures { MatchOption result (list_any (is_outside separator) bytes.now ≡ false) (IsFirstOutside separator bytes.now) }
{
    let mut passed = 0;
    while BLOCK <= bytes.len() - passed {
        if let Some(place) = outside_in_block(separator, &bytes[passed..passed + BLOCK]) {
            return Some(passed + place);
        }
        passed += BLOCK;
    }
    match outside_among(separator, &bytes[passed..]) {
        Some(place) => Some(passed + place),
        None => None,
    }
}

/// The first place of a separator or a line feed in a block, whose bytes are tested all at once.
#[inline(always)]
fn outside_in_block(separator: u8, block: &[u8]) -> Option<usize>
    requires { length block.now ≡ 16 }
    ensures { MatchOption result (list_any (is_outside separator) block.now ≡ false) (IsFirstOutside separator block.now) }
{
    let marks = outside_marks(separator, u8x16::from_slice(block));
    if marks == 0 {
        return None;
    }
    Some(marks.trailing_zeros() as usize)
}

/// A binary digit for each byte, which is 1 at a separator or a line feed.
#[inline(always)]
fn outside_marks(separator: u8, bytes: u8x16) -> u64
    ensures { result ≡ mask_l (map (is_outside separator) bytes) }
{
    (bytes.simd_eq(u8x16::splat(separator)) | bytes.simd_eq(u8x16::splat(b'\n'))).to_bitmask()
}

/// The first place of a separator or a line feed, found byte by byte.
#[inline(always)]
fn outside_among(separator: u8, bytes: &[u8]) -> Option<usize>
    ensures { MatchOption result (list_any (is_outside separator) bytes.now ≡ false) (IsFirstOutside separator bytes.now) }
{
    for (i, byte) in bytes.iter().enumerate() {
        if *byte == separator || *byte == b'\n' {
            return Some(i);
        }
    }
    None
}
