//! Values of any depth, passed over.

ghost use Rattle.std.specs.Prelude.{◌≡◌, ◌∷◌, ◌<◌, ◌≤◌, IfOk, IfSome, MatchOption, MatchResult, length};
ghost use Rattle.tabled_json.specs.Faults.{EndFault, ItemFault, KeyFault, ValueFault};
ghost use Rattle.tabled_json.specs.Grammar.{ItemAt, KeyAt, ValueAt, opening};
ghost use Rattle.tabled_json.specs.WholeValues.{BegunAt, EndedAt, OpensNothing, begun_left, ended_left};
ghost use Rattle.tabled_texts.specs.Reading.{Shows};

use crate::fault::{PartError, unexpected};
use crate::kind::{Kind, closing};
use crate::list::{Behind, behind_element};
use crate::scalar::scalar;
use crate::space::{behind_byte, behind_space};
use crate::string::content;
use std::alloc::Global;

/// What bytes open, if they do, and the bytes behind the bracket.
pub(crate) fn opened(bytes: &[u8]) -> Option<(Kind, &[u8])>
    ensures is { MatchOption result (OpensNothing bytes.now) (λ r. bytes.now ≡ opening r.0 ∷ r.1.now) }
    ensures shorter { IfSome result (λ r. length r.1.now < length bytes.now) }
{
    if let Some(inner) = behind_byte(91, bytes) {
        return Some((Kind::Array, inner));
    }
    match behind_byte(123, bytes) {
        Some(inner) => Some((Kind::Object, inner)),
        None => None,
    }
}

/// Puts the key at the front into `text`. The bytes at its value.
pub(crate) fn key<'a>(bytes: &'a [u8], text: &mut Vec<u8>) -> Result<&'a [u8], PartError>
    ensures read { MatchResult result (λ value. KeyAt bytes.now text.new.items value.now) (Shows (KeyFault bytes.now)) }
    ensures shorter { IfOk result (λ value. length value.now < length bytes.now) }
{
    let Some(behind) = behind_byte(34, bytes) else {
        return Err(unexpected(bytes));
    };
    let ended = content(behind, text)?;
    let after = behind_space(ended);
    match behind_byte(58, after) {
        Some(next) => Ok(behind_space(next)),
        None => Err(unexpected(after)),
    }
}

/// The bytes at the value of an item.
fn item<'a>(kind: Kind, bytes: &'a [u8], scratch: &mut Vec<u8>) -> Result<&'a [u8], PartError>
    ensures read { MatchResult result (λ value. ItemAt kind bytes.now value.now) (Shows (ItemFault kind bytes.now)) }
    ensures shorter { IfOk result (λ value. length value.now ≤ length bytes.now) }
{
    match kind {
        Kind::Array => Ok(bytes),
        Kind::Object => key(bytes, scratch),
    }
}

/// What is behind the front of a value: the bytes behind it, or those at the value of its first item.
enum Begun<'a> {
    Whole(&'a [u8]),
    Inside(Kind, &'a [u8]),
}

/// What is behind the front of a value.
fn begin<'a>(bytes: &'a [u8], scratch: &mut Vec<u8>) -> Result<Begun<'a>, PartError>
    ensures read { MatchResult result (BegunAt bytes.now) (Shows (ValueFault bytes.now)) }
    ensures shorter { IfOk result (λ begun. begun_left begun < length bytes.now) }
{
    let Some((kind, inner)) = opened(bytes) else {
        let after = scalar(bytes, scratch)?;
        return Ok(Begun::Whole(after));
    };
    let first = behind_space(inner);
    if let Some(after) = behind_byte(closing(kind), first) {
        return Ok(Begun::Whole(after));
    }
    let value = item(kind, first, scratch)?;
    Ok(Begun::Inside(kind, value))
}

/// What is behind an item: the bytes behind what holds it, or those at the value of the next item.
enum Ended<'a> {
    Closed(&'a [u8]),
    Next(&'a [u8]),
}

/// What is behind an item.
fn end<'a>(kind: Kind, behind: &'a [u8], scratch: &mut Vec<u8>) -> Result<Ended<'a>, PartError>
    ensures read { MatchResult result (EndedAt kind behind.now) (Shows (EndFault kind behind.now)) }
    ensures shorter { IfOk result (λ ended. ended_left ended < length behind.now) }
{
    let tail = behind_element(kind, behind)?;
    match tail {
        Behind::Closed(after) => Ok(Ended::Closed(after)),
        Behind::Next(next) => {
            let value = item(kind, next, scratch)?;
            Ok(Ended::Next(value))
        }
    }
}

/// The bytes behind the value at the front.
pub(crate) fn behind_value<'a>(
    alloc: Global,
    bytes: &'a [u8],
    scratch: &mut Vec<u8>,
) -> Result<&'a [u8], PartError>
    ensures read { MatchResult result (λ after. ValueAt bytes.now after.now) (Shows (ValueFault bytes.now)) }
    ensures shorter { IfOk result (λ after. length after.now ≤ length bytes.now) }
{
    let mut within: Vec<Kind> = Vec::new(alloc);
    let mut is_behind = false;
    let mut rest = bytes;
    'values: loop {
        if is_behind {
            let Some(kind) = within.pop() else {
                return Ok(rest);
            };
            match end(kind, rest, scratch)? {
                Ended::Closed(after) => rest = after,
                Ended::Next(value) => {
                    within.push(kind)?;
                    rest = value;
                    is_behind = false;
                }
            }
        } else {
            match begin(rest, scratch)? {
                Begun::Whole(after) => {
                    rest = after;
                    is_behind = true;
                }
                Begun::Inside(kind, value) => {
                    within.push(kind)?;
                    rest = value;
                }
            }
        }
    }
}
