//! The pieces of texts.

ghost use Rattle.std.specs.Prelude.{◌≡◌, ◌≤◌, ◌++◌, ◌∷◌, ℕ, [], List, IfSome, MatchOption, chars};
ghost use Rattle.std.specs.Iterator.{YieldsFirstRef, item_count};
ghost use Rattle.tabled_width.specs.Pieces.{attaches, character_width, differ_together, is_kirat_vowel, pieces_in, stays_behind};
ghost use Rattle.unicode_width.specs.Width.{is_indicator};

use crate::columns::columns_of;
use crate::plain::is_plain_byte;
use std::marker::Model;
use unicode_width::UnicodeWidthChar;

const JOINER: char = '\u{200D}';

/// Goes over the pieces of a text, which are never cut: characters that take other columns together than apart, as
/// those of an emoji do, and a character with the marks behind it. A newline is a piece by itself. A contract sees it as
/// the list of the pieces that are left.
///
/// Of this project.
#[derive(Drop)]
pub struct Pieces<'a> {
    rest: &'a str,
}

impl<'a> Model for Pieces<'a> {
    ghost use Rattle.std.specs.Prelude.{ℕ, List};
    ghost use Rattle.tabled_width.specs.Pieces.{pieces_in};

    ghost Value = { List (List ℕ) };

    ghost view = { λ a. pieces_in a.rest.now };
}

impl<'a> Pieces<'a> {
    ghost use Rattle.std.specs.Prelude.{◌≡◌};
    ghost use Rattle.tabled_width.specs.Pieces.{pieces_in};

    pub fn new(text: &'a str) -> Self
        ensures { result ≡ pieces_in text.now }
    {
        Pieces { rest: text }
    }

    /// The text whose pieces are left.
    pub fn as_str(&self) -> &'a str
        ensures { self.now ≡ pieces_in result.now }
    {
        self.rest
    }
}

impl<'a> Iterator for Pieces<'a> {
    type Item = &'a str;

    ghost next_gives = { YieldsFirstRef (λ s. s) };

    ghost remaining = { item_count (λ s. s) };

    fn next(&mut self) -> Option<&'a str> {
        let (piece, rest) = match plain_piece(self.rest) {
            Some(found) => found,
            None => first_piece(self.rest)?,
        };
        self.rest = rest;
        Some(piece)
    }
}

/// The first piece of a text, and what is behind it, where two bytes tell: that is one character that takes one column.
fn plain_piece(text: &str) -> Option<(&str, &str)>
    ensures { IfSome result (λ found. pieces_in text.now ≡ found.0.now ∷ pieces_in found.1.now) }
{
    let bytes = text.as_bytes();
    if bytes.is_empty() || !is_plain_byte(bytes[0]) {
        return None;
    }
    if bytes.len() == 1 || is_plain_byte(bytes[1]) {
        return Some(text.split_at(1));
    }
    None
}

/// The first piece of a text, and what is behind it.
fn first_piece(text: &str) -> Option<(&str, &str)>
    ensures { MatchOption result (pieces_in text.now ≡ []) (λ found. pieces_in text.now ≡ found.0.now ∷ pieces_in found.1.now) }
{
    let mut behind = text.chars();
    let mut last = behind.next()?;
    let mut cluster = text;
    let mut half_a_flag = is_indicator(last);
    let mut rest = behind.as_str();
    while let Some(c) = behind.next() {
        let short = without_end(cluster, rest);
        let long = without_end(cluster, behind.as_str());
        if !stays(last, half_a_flag, short, long, c) {
            break;
        }
        if !attaches(c) {
            cluster = rest;
        }
        half_a_flag = is_indicator(c) && !half_a_flag;
        last = c;
        rest = behind.as_str();
    }
    Some((without_end(text, rest), rest))
}

/// The text without its end.
fn without_end<'a>(text: &'a str, end: &str) -> &'a str
    requires { (front : List ℕ) × (text.now ≡ front ++ end.now) }
    ensures { text.now ≡ result.now ++ end.now }
{
    &text[..text.len() - end.len()]
}

/// Says whether a character goes to the piece before it, whose last character and last cluster these are. `longer` is
/// that cluster with the character.
fn stays(last: char, half_a_flag: bool, cluster: &str, longer: &str, c: char) -> bool
    requires { chars longer.now ≡ chars cluster.now ++ c ∷ [] }
    ensures { result ≡ stays_behind last half_a_flag (chars cluster.now) c }
{
    if c == '\n' || last == '\n' {
        return false;
    }
    let is_joined = last == JOINER && ' ' < c;
    if ' ' <= c && c <= '~' {
        return is_joined;
    }
    attaches(c)
        || is_joined
        || (is_indicator(c) && half_a_flag)
        || (is_kirat_vowel(c) && is_kirat_vowel(last))
        || differ_together(cluster, longer, c)
}

/// Says whether a cluster and a character behind it take another number of columns together than apart.
fn differ_together(cluster: &str, longer: &str, c: char) -> bool
    requires { chars longer.now ≡ chars cluster.now ++ c ∷ [] }
    ensures { result ≡ differ_together (chars cluster.now) c }
{
    let before = columns_of(cluster);
    let together = columns_of(longer);
    together < before || together - before != character_width(c)
}

fn attaches(c: char) -> bool
    ensures { result ≡ attaches c }
{
    character_width(c) == 0 || c == '\u{2D7F}' || ('\u{1F3FB}' <= c && c <= '\u{1F3FF}')
}

fn is_indicator(c: char) -> bool
    ensures { result ≡ is_indicator c }
{
    '\u{1F1E6}' <= c && c <= '\u{1F1FF}'
}

fn is_kirat_vowel(c: char) -> bool
    ensures { result ≡ is_kirat_vowel c }
{
    c == '\u{16D63}' || ('\u{16D67}' <= c && c <= '\u{16D6A}')
}

/// The columns of a character by itself, 1 where it is a control character.
fn character_width(c: char) -> usize
    ensures value { result ≡ character_width c }
    ensures bound { result ≤ 3 }
{
    c.width().unwrap_or(1)
}
