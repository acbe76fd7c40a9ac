//! Character references, read.

ghost use Rattle.std.specs.Prelude.{◌≡◌, ◌-◌, ◌<◌, ◌≤◌, ◌++◌, ◌∷◌, [], ℕ, List, IfOk, MatchOption, MatchResult, None, Some, codes, encode_utf8, length, map, slice_index_or};
ghost use Rattle.tabled_html_elements.specs.Outcomes.{Continues};
ghost use Rattle.tabled_html_elements.specs.Reading.{HaveNone, ReadsOn, spelled};
ghost use Rattle.tabled_html_reading.specs.Tokenizing.{Step, characters, emit, named, referenced, replacements, tokens_from};
ghost use Rattle.tabled_html_reading.specs.Tokenizing.State.{CharacterReference, Data, Decimal, Hexadecimal, HexadecimalStart, NamedCharacterReference, NumericCharacterReference};
ghost use Rattle.tabled_html_reading.specs.Tokenizing.Step.{Emits, Stops};
ghost use Rattle.tabled_html_reading.specs.Tokenizing.Token.{Character};

use crate::characters::{hexadecimal_value, is_digit, is_hexadecimal, is_letter};
use crate::fault::ReadError;
use std::alloc::{AllocError, Global};

/// The first number that is no character's.
const PAST: u32 = 1_114_112;

/// The characters that references to U+0080 to U+009F stand for.
const REPLACEMENTS: [char; 32] = [
    '\u{20AC}', '\u{81}', '\u{201A}', '\u{192}', '\u{201E}', '\u{2026}', '\u{2020}', '\u{2021}',
    '\u{2C6}', '\u{2030}', '\u{160}', '\u{2039}', '\u{152}', '\u{8D}', '\u{17D}', '\u{8F}',
    '\u{90}', '\u{2018}', '\u{2019}', '\u{201C}', '\u{201D}', '\u{2022}', '\u{2013}', '\u{2014}',
    '\u{2DC}', '\u{2122}', '\u{161}', '\u{203A}', '\u{153}', '\u{9D}', '\u{17E}', '\u{178}',
];

/// The character that a reference to a number stands for.
fn character(code: u32) -> char
    ensures { encode_utf8 result ≡ spelled code }
{
    if code == 0 {
        return char::REPLACEMENT_CHARACTER;
    }
    if 128 <= code && code <= 159 {
        return REPLACEMENTS[(code - 128) as usize];
    }
    match char::from_u32(code) {
        Some(character) => character,
        None => char::REPLACEMENT_CHARACTER,
    }
}

/// Puts the character that a reference to a number stands for behind a text.
fn push_referenced(text: &mut Vec<u8>, code: u32) -> Result<(), AllocError>
    ensures { IfOk result (λ _. text.new.items ≡ text.old.items ++ spelled code) }
{
    let mut buffer = [0; 4];
    text.extend_from_slice(character(code).encode_utf8(&mut buffer).as_bytes())
}

#[tactic(auto, using(crate::proofs::References::decimal_min))]
/// Reads decimal digits behind others, and the semicolon behind them, if there is one.
fn read_decimal(first: u32, bytes: &[u8]) -> (u32, &[u8])
    requires { first ≤ 1114112 }
    ensures read { tokens_from bytes.now (Decimal first) ≡ emit (referenced result.0) (tokens_from result.1.now Data) }
    ensures shorter { length result.1.now ≤ length bytes.now }
{
    let mut code = first;
    let mut rest = bytes;
    'digits: loop {
        let Some((byte, behind)) = rest.split_first() else {
            return (code, rest);
        };
        if *byte == b';' {
            return (code, behind);
        }
        if !is_digit(*byte) {
            return (code, rest);
        }
        code = (code * 10 + (*byte - 48) as u32).min(PAST);
        rest = behind;
    }
}

#[tactic(auto, using(crate::proofs::References::hexadecimal_min))]
/// Reads hexadecimal digits behind others, and the semicolon behind them, if there is one.
fn read_hexadecimal(first: u32, bytes: &[u8]) -> (u32, &[u8])
    requires { first ≤ 1114112 }
    ensures read { tokens_from bytes.now (Hexadecimal first) ≡ emit (referenced result.0) (tokens_from result.1.now Data) }
    ensures shorter { length result.1.now ≤ length bytes.now }
{
    let mut code = first;
    let mut rest = bytes;
    'digits: loop {
        let Some((byte, behind)) = rest.split_first() else {
            return (code, rest);
        };
        if *byte == b';' {
            return (code, behind);
        }
        if !is_hexadecimal(*byte) {
            return (code, rest);
        }
        code = (code * 16 + hexadecimal_value(*byte)).min(PAST);
        rest = behind;
    }
}

/// The character of a name that references have.
fn named(name: &[u8]) -> Option<u8>
    ensures { MatchOption result (named name.now ≡ Stops) (λ b. named name.now ≡ Emits (Character b ∷ []) Data) }
{
    if name == b"amp".as_slice() {
        return Some(b'&');
    }
    if name == b"lt".as_slice() {
        return Some(b'<');
    }
    if name == b"gt".as_slice() {
        return Some(b'>');
    }
    None
}

/// Reads a reference's name behind its first letter, and the semicolon behind it. The character that it stands for.
fn read_name<'a>(alloc: Global, first: u8, bytes: &'a [u8]) -> Result<(u8, &'a [u8]), ReadError>
    ensures read { Continues result (tokens_from bytes.now (NamedCharacterReference (first ∷ []))) (λ r. emit (Character r.0 ∷ []) (tokens_from r.1.now Data)) }
    ensures shorter { IfOk result (λ r. length r.1.now ≤ length bytes.now) }
{
    let mut name = Vec::new(alloc);
    name.push(first)?;
    let mut rest = bytes;
    'name: loop {
        let Some((byte, behind)) = rest.split_first() else {
            return Err(ReadError::NoTable);
        };
        if is_digit(*byte) || is_letter(*byte) {
            name.push(*byte)?;
            rest = behind;
        } else {
            if *byte != b';' {
                return Err(ReadError::NoTable);
            }
            let Some(character) = named(&name) else {
                return Err(ReadError::NoTable);
            };
            return Ok((character, behind));
        }
    }
}

/// Reads a number behind an ampersand and a hash, and puts what it stands for behind a text.
fn read_number<'a>(text: &mut Vec<u8>, bytes: &'a [u8]) -> Result<&'a [u8], AllocError>
    ensures read { IfOk result (λ after. ReadsOn bytes.now NumericCharacterReference text.old.items text.new.items after.now) }
    ensures shorter { IfOk result (λ after. length after.now ≤ length bytes.now) }
{
    let Some((first, behind)) = bytes.split_first() else {
        text.extend_from_slice(b"&#")?;
        return Ok(bytes);
    };
    if is_digit(*first) {
        let (code, after) = read_decimal((*first - 48) as u32, behind);
        push_referenced(text, code)?;
        return Ok(after);
    }
    if *first != b'x' && *first != b'X' {
        text.extend_from_slice(b"&#")?;
        return Ok(bytes);
    }
    let Some((digit, rest)) = behind.split_first() else {
        text.extend_from_slice(b"&#")?;
        text.push(*first)?;
        return Ok(behind);
    };
    if !is_hexadecimal(*digit) {
        text.extend_from_slice(b"&#")?;
        text.push(*first)?;
        return Ok(behind);
    }
    let (code, after) = read_hexadecimal(hexadecimal_value(*digit), rest);
    push_referenced(text, code)?;
    Ok(after)
}

/// Reads a reference behind its ampersand, and puts what it stands for behind a text.
pub(crate) fn read_reference<'a>(
    alloc: Global,
    text: &mut Vec<u8>,
    bytes: &'a [u8],
) -> Result<&'a [u8], ReadError>
    ensures read { MatchResult result (λ r. ReadsOn bytes.now CharacterReference text.old.items text.new.items r.now) (HaveNone bytes.now CharacterReference) }
    ensures shorter { IfOk result (λ after. length after.now ≤ length bytes.now) }
{
    let Some((first, behind)) = bytes.split_first() else {
        text.push(b'&')?;
        return Ok(bytes);
    };
    if *first == b'#' {
        return Ok(read_number(text, behind)?);
    }
    if is_digit(*first) || is_letter(*first) {
        let (character, after) = read_name(alloc, *first, behind)?;
        text.push(character)?;
        return Ok(after);
    }
    text.push(b'&')?;
    Ok(bytes)
}
