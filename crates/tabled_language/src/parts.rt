//! Bytes separated at the places of one byte.

ghost use Rattle.std.specs.Prelude.{◌≡◌, ◌<◌, ◌==◌, ◌∷◌, length};
ghost use Rattle.std.specs.Iterator.{YieldsFirstRef, item_count};
ghost use Rattle.std.specs.List.{count_by, slice_split};
ghost use Rattle.tabled_language.specs.Parts.{IsFirstPlace, parts_left};

use std::marker::Model;

/// How many bytes are compared at once.
const BLOCK: usize = 64;

/// Goes over the parts of bytes between the places of one byte. A contract sees it as the list of
/// the parts that are left.
#[derive(Drop)]
pub(crate) struct Parts<'a> {
    rest: Option<&'a [u8]>,
    at: u8,
}

impl<'a> Model for Parts<'a> {
    ghost use Rattle.std.specs.Prelude.{ℕ, List};
    ghost use Rattle.tabled_language.specs.Parts.{parts_left};

    ghost Value = { List (List ℕ) };

    ghost view = { λ a. parts_left a.at a.rest };
}

impl<'a> Parts<'a> {
    ghost use Rattle.std.specs.Prelude.{◌≡◌, ◌==◌};
    ghost use Rattle.std.specs.List.{slice_split};

    pub(crate) fn new(bytes: &'a [u8], at: u8) -> Self
        ensures { result ≡ slice_split (λ b. b == at) bytes.now }
    {
        Parts {
            rest: Some(bytes),
            at,
        }
    }
}

impl<'a> Iterator for Parts<'a> {
    type Item = &'a [u8];

    ghost next_gives = { YieldsFirstRef (λ s. s) };

    ghost remaining = { item_count (λ s. s) };

    fn next(&mut self) -> Option<&'a [u8]> {
        let (part, rest) = first_part(self.rest?, self.at);
        self.rest = rest;
        Some(part)
    }
}

/// The part before the first place of a byte, and what is after that place.
fn first_part(bytes: &[u8], at: u8) -> (&[u8], Option<&[u8]>)
    ensures { slice_split (λ b. b == at) bytes.now ≡ result.0.now ∷ parts_left at result.1 }
{
    match first_place(bytes, at) {
        Some(place) => (&bytes[..place], Some(&bytes[place + 1..])),
        None => (bytes, None),
    }
}

/// The first place of a byte.
pub(crate) fn first_place(bytes: &[u8], at: u8) -> Option<usize>
    ensures { IsFirstPlace at bytes.now result }
{
    // Words are short, and lines are long.
    if at == b'\t' {
        near_place(bytes, at)
    } else {
        far_place(bytes, at)
    }
}

/// The first place of a byte, sought in parts of eight bytes, which finds a near one soonest.
pub(crate) fn near_place(bytes: &[u8], at: u8) -> Option<usize>
    ensures { IsFirstPlace at bytes.now result }
{
    // A loop of eight steps is written out by the compiler, which takes half of the time.
    place_by(8, bytes, at)
}

/// The first place of a byte, sought in blocks, which finds a far one soonest.
fn far_place(bytes: &[u8], at: u8) -> Option<usize>
    ensures { IsFirstPlace at bytes.now result }
{
    let blocks = bytes.len() - bytes.len() % BLOCK;
    if let Some(place) = place_by(BLOCK, &bytes[..blocks], at) {
        return Some(place);
    }
    match near_place(&bytes[blocks..], at) {
        Some(place) => Some(blocks + place),
        None => None,
    }
}

/// The first place of a byte, sought in one part of n bytes after another.
#[inline(always)]
fn place_by(n: usize, bytes: &[u8], at: u8) -> Option<usize>
    requires some { 0 < n }
    requires few { n < 256 }
    ensures { IsFirstPlace at bytes.now result }
{
    let mut passed = 0;
    while n <= bytes.len() - passed {
        if let Some(place) = place_in_part(&bytes[passed..passed + n], at) {
            return Some(passed + place);
        }
        passed += n;
    }
    match place_among(&bytes[passed..], at) {
        Some(place) => Some(passed + place),
        None => None,
    }
}

/// The first place of a byte among at most 255 bytes. Those of a block are compared all at once before one is sought.
#[inline(always)]
fn place_in_part(bytes: &[u8], at: u8) -> Option<usize>
    requires { length bytes.now < 256 }
    ensures { IsFirstPlace at bytes.now result }
{
    if BLOCK <= bytes.len() && count_few(bytes, at) == 0 {
        return None;
    }
    place_among(bytes, at)
}

/// The first place of a byte, sought byte by byte.
fn place_among(bytes: &[u8], at: u8) -> Option<usize>
    ensures { IsFirstPlace at bytes.now result }
{
    for (i, byte) in bytes.iter().enumerate() {
        if *byte == at {
            return Some(i);
        }
    }
    None
}

/// How many parts there are.
pub(crate) fn count_parts(bytes: &[u8], at: u8) -> usize
    ensures { result ≡ length (slice_split (λ b. b == at) bytes.now) }
{
    let mut parts = 1;
    let mut rest = bytes;
    // Bytes of a block are compared all at once.
    while BLOCK <= rest.len() {
        let (block, others) = rest.split_at(BLOCK);
        parts += count_few(block, at) as usize;
        rest = others;
    }
    parts + count_few(rest, at) as usize
}

/// How often a byte stands among at most 255.
fn count_few(bytes: &[u8], at: u8) -> u8
    requires { length bytes.now < 256 }
    ensures { result ≡ count_by (λ b. b == at) bytes.now }
{
    let mut places = 0;
    for byte in bytes {
        if *byte == at {
            places += 1;
        }
    }
    places
}
