//! Fields.

ghost use Rattle.std.specs.Prelude.{◌≡◌, ◌-◌, ◌∷◌, false, true, IsTrue, IsUtf8, MatchResult, length};
ghost use Rattle.std.specs.Bool.{MatchBool};
ghost use Rattle.std.specs.Str.Lossy.{utf8_valid_len};
ghost use Rattle.tabled_csv.specs.Grammar.{IsSeparator, opens};
ghost use Rattle.tabled_csv.specs.Fields.{FieldAt, PlainAt};
ghost use Rattle.tabled_csv.specs.Faults.{FaultAt};
ghost use Rattle.tabled_texts.specs.Reading.{Shows};

use crate::dialect::Dialect;
use crate::fault::{Fault, PartError};
use crate::outside::first_outside;
use crate::quoted::find_closing;
use crate::stop::{Stop, begins_with, stop_at, without_return};
use crate::undoubling::undoubled;
use std::str;
use tabled_texts::Spare;

/// Whether bytes are UTF-8. Where that is known they aren't tested again.
#[inline(always)]
fn is_utf8(is_text: bool, bytes: &[u8]) -> bool
    requires { IsTrue is_text → IsUtf8 bytes.now }
    ensures { MatchBool result (IsUtf8 bytes.now) (IsUtf8 bytes.now → ⊥) }
{
    is_text || str::from_utf8(bytes).is_ok()
}

/// How many bytes are left from the first one on that isn't UTF-8.
#[inline(never)]
fn left_behind_text(bytes: &[u8]) -> usize
    ensures { result ≡ length bytes.now - utf8_valid_len bytes.now }
{
    match str::from_utf8(bytes) {
        Ok(_) => 0,
        Err(error) => bytes.len() - error.valid_up_to(),
    }
}

/// The plain field at the front of bytes that don't begin with a quote that opens one, what is behind it, and the bytes
/// after this.
#[inline(always)]
fn plain_field(dialect: Dialect, bytes: &[u8]) -> (&[u8], Stop, &[u8])
    requires { opens dialect bytes.now ≡ false }
    ensures { PlainAt dialect bytes.now result.0.now result.1 result.2.now }
{
    let separator = dialect.separator();
    let Some(i) = first_outside(separator, bytes) else {
        return (bytes, Stop::End, &bytes[bytes.len()..]);
    };
    if bytes[i] == separator {
        return (&bytes[..i], Stop::Separator, &bytes[i + 1..]);
    }
    (without_return(&bytes[..i]), Stop::Line, &bytes[i + 1..])
}

/// The field at the front of bytes, what is behind it, and the bytes after this.
#[inline(always)]
pub(crate) fn read_field<'a>(
    dialect: Dialect,
    is_text: bool,
    bytes: &'a [u8],
    spare: &mut Spare<'a>,
) -> Result<(&'a str, Stop, &'a [u8]), PartError>
    requires separator { IsSeparator dialect.separator }
    requires text { IsTrue is_text → IsUtf8 bytes.now }
    ensures { MatchResult result (λ read. FieldAt dialect bytes.now read.0.now read.1 read.2.now) (Shows (FaultAt dialect bytes.now)) }
{
    if begins_with(b'"', bytes) && dialect.is_quoting() {
        return quoted_field(dialect, is_text, bytes, &bytes[1..], spare);
    }
    let (field, stop, after) = plain_field(dialect, bytes);
    if !is_utf8(is_text, field) {
        return Err(PartError::Faulty(Fault::NotUtf8, left_behind_text(bytes)));
    }
    Ok((unsafe { str::from_utf8_unchecked(field) }, stop, after))
}

/// The field between quotes at the front of bytes, what is behind it, and the bytes after this. Behind the quote that
/// opens it are the bytes `behind`.
#[inline(never)]
fn quoted_field<'a>(
    dialect: Dialect,
    is_text: bool,
    bytes: &'a [u8],
    behind: &'a [u8],
    spare: &mut Spare<'a>,
) -> Result<(&'a str, Stop, &'a [u8]), PartError>
    requires separator { IsSeparator dialect.separator }
    requires behind { bytes.now ≡ 34 ∷ behind.now }
    requires quoting { dialect.quoting ≡ true }
    requires text { IsTrue is_text → IsUtf8 bytes.now }
    ensures { MatchResult result (λ read. FieldAt dialect bytes.now read.0.now read.1 read.2.now) (Shows (FaultAt dialect bytes.now)) }
{
    let Some(closing) = find_closing(behind) else {
        return Err(PartError::Faulty(Fault::UnclosedQuote, bytes.len()));
    };
    let rest = &behind[closing.place + 1..];
    let Some((stop, after)) = stop_at(dialect, rest) else {
        return Err(PartError::Faulty(Fault::BehindQuote, rest.len()));
    };
    let inner = &behind[..closing.place];
    if closing.has_doubled {
        let Ok(text) = str::from_utf8(undoubled(inner, spare)?) else {
            return Err(PartError::Faulty(Fault::NotUtf8, left_behind_text(bytes)));
        };
        return Ok((text, stop, after));
    }
    if !is_utf8(is_text, inner) {
        return Err(PartError::Faulty(Fault::NotUtf8, left_behind_text(bytes)));
    }
    Ok((unsafe { str::from_utf8_unchecked(inner) }, stop, after))
}
