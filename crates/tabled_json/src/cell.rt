//! Values as the texts of cells, read.

ghost use Rattle.std.specs.Prelude.{◌≡◌, ◌≤◌, ℕ, List, IfOk, MatchResult, length};
ghost use Rattle.tabled_json.specs.Faults.{CellFault, IsNoText};
ghost use Rattle.tabled_json.specs.Grammar.{CellAt};
ghost use Rattle.tabled_json.specs.Records.{HoldsText};
ghost use Rattle.tabled_texts.specs.Texts.{text_of};
ghost use Rattle.tabled_texts.specs.Reading.{Shows};

use crate::fault::{Fault, PartError};
use crate::lending::lent;
use crate::list::{Element, exact};
use crate::scalar::scalar;
use crate::space::behind_byte;
use crate::value::{behind_value, opened};
use std::alloc::{AllocError, Global};
use std::str;
use tabled_texts::Spare;

/// Bytes as a text, lent by a source that begins with it, or else a copy. So many bytes are left where it shows.
pub(crate) fn text_of<'a>(
    source: &'a [u8],
    bytes: &[u8],
    spare: &mut Spare<'a>,
    left: usize,
) -> Result<&'a str, PartError>
    ensures { MatchResult result (HoldsText bytes.now) (Shows (IsNoText left bytes.now)) }
{
    let found = lent(source, bytes, spare)?;
    match str::from_utf8(found) {
        Ok(text) => Ok(text),
        Err(_) => Err(PartError::Faulty(Fault::NotUtf8, left)),
    }
}

/// The bytes behind a quote, if they begin with one.
pub(crate) fn behind_quote(bytes: &[u8]) -> &[u8] {
    behind_byte(b'"', bytes).unwrap_or(bytes)
}

/// The text of the value at the front, and the bytes behind it.
pub(crate) fn cell<'a>(
    alloc: Global,
    bytes: &'a [u8],
    scratch: &mut Vec<u8>,
    spare: &mut Spare<'a>,
) -> Result<(&'a str, &'a [u8]), PartError>
    ensures read { MatchResult result (λ r. CellAt bytes.now r.0.now r.1.now) (Shows (CellFault bytes.now)) }
    ensures shorter { IfOk result (λ r. length r.1.now ≤ length bytes.now) }
{
    if let Some((_kind, _inner)) = opened(bytes) {
        let after = behind_value(alloc, bytes, scratch)?;
        let value = &bytes[..bytes.len() - after.len()];
        let text = text_of(bytes, value, spare, bytes.len())?;
        return Ok((text, after));
    }
    let after = scalar(bytes, scratch)?;
    let text = text_of(behind_quote(bytes), scratch.as_slice(), spare, bytes.len())?;
    Ok((text, after))
}

impl<'a> Element<'a> for &'a str {
    ghost Shown = { List ℕ };

    ghost shown = { text_of };

    ghost is_at = { CellAt };

    ghost is_fault = { CellFault };

    fn read(
        alloc: Global,
        bytes: &'a [u8],
        scratch: &mut Vec<u8>,
        spare: &mut Spare<'a>,
    ) -> Result<(Self, &'a [u8]), PartError> {
        cell(alloc, bytes, scratch, spare)
    }

    // Most rows have few texts: what would be left over counts, and shrinking leaves holes.
    fn settle(alloc: Global, texts: Vec<Self>) -> Result<Vec<Self>, AllocError>
        ensures { IfOk result (λ all. all.items ≡ texts.entry.items) }
    {
        exact(alloc, texts.as_slice())
    }
}
