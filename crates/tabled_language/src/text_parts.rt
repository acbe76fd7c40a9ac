//! Texts separated at the places of an ASCII byte.

ghost use Rattle.std.specs.Prelude.{◌≡◌, ◌<◌, ◌==◌, ◌∷◌};
ghost use Rattle.std.specs.Iterator.{YieldsFirstRef, item_count};
ghost use Rattle.std.specs.List.{slice_split};
ghost use Rattle.tabled_language.specs.Parts.{parts_left};

use crate::parts::{count_parts, first_place};
use std::marker::Model;

/// The lines of a text.
pub(crate) type TextLines<'a> = TextParts<'a, b'\n'>;

/// The words of a line as they stand.
pub(crate) type Fields<'a> = TextParts<'a, b'\t'>;

/// Goes over the parts of a text between the places of an ASCII byte. A contract sees it as the list of
/// the parts that are left.
#[derive(Drop)]
pub(crate) struct TextParts<'a, const AT: u8> {
    rest: Option<&'a str>,
}

impl<'a, const AT: u8> Model for TextParts<'a, AT> {
    ghost use Rattle.std.specs.Prelude.{◌<◌, ℕ, List};
    ghost use Rattle.tabled_language.specs.Parts.{parts_left};

    ghost Value = { List (List ℕ) };

    ghost view = { λ a. parts_left AT a.rest };

    ghost invariant = { λ _. AT < 128 };
}

impl<'a, const AT: u8> TextParts<'a, AT> {
    ghost use Rattle.std.specs.Prelude.{◌≡◌, ◌<◌, ◌==◌, length};
    ghost use Rattle.std.specs.List.{slice_split};

    pub(crate) fn new(text: &'a str) -> Self
        requires { AT < 128 }
        ensures { result ≡ slice_split (λ b. b == AT) text.now }
    {
        TextParts { rest: Some(text) }
    }

    /// How many are left.
    pub(crate) fn left(&self) -> usize
        ensures { result ≡ length self.now }
    {
        match self.rest {
            Some(rest) => count_parts(rest.as_bytes(), AT),
            None => 0,
        }
    }
}

impl<'a, const AT: u8> Iterator for TextParts<'a, AT> {
    type Item = &'a str;

    ghost next_gives = { YieldsFirstRef (λ s. s) };

    ghost remaining = { item_count (λ s. s) };

    fn next(&mut self) -> Option<&'a str> {
        let (part, rest) = first_part::<AT>(self.rest?);
        self.rest = rest;
        Some(part)
    }
}

/// The part before the first place of an ASCII byte, and what is after that place.
fn first_part<const AT: u8>(text: &str) -> (&str, Option<&str>)
    requires { AT < 128 }
    ensures { slice_split (λ b. b == AT) text.now ≡ result.0.now ∷ parts_left AT result.1 }
{
    match first_place(text.as_bytes(), AT) {
        Some(place) => (&text[..place], Some(&text[place + 1..])),
        None => (text, None),
    }
}
