//! Elements, read.

ghost use Rattle.std.specs.List.{list_all};
ghost use Rattle.std.specs.Prelude.{◌≡◌, ◌<◌, ◌≤◌, IfOk, MatchOption, MatchResult, Some, length};
ghost use Rattle.tabled_html_reading.specs.Building.{are_spans, built_after, closed, is_number_if};
ghost use Rattle.tabled_html_reading.specs.Characters.{is_blank, is_digit};
ghost use Rattle.tabled_html_reading.specs.Elements.{value_of};
ghost use Rattle.tabled_html_elements.specs.Parts.{AddsCell, AddsNoCell, AddsNoRow, AddsNoRows, AddsRow, AddsRows, ContinuesBetween};
ghost use Rattle.tabled_html_elements.specs.Reading.{built_from, ends_cell, kept};
ghost use Rattle.tabled_html_reading.specs.Tokenizing.Token.{Marked};

use crate::characters::{is_blank, is_digit};
use crate::elements::{Attribute, Element, Row, Tag};
use crate::fault::ReadError;
use crate::text::read_piece;
use std::alloc::{AllocError, Global};

/// A text without U+0000.
pub(crate) fn kept(alloc: Global, text: &[u8]) -> Result<Vec<u8>, AllocError>
    ensures { IfOk result (λ out. out.items ≡ kept text.now) }
{
    let mut out = Vec::with_capacity(alloc, text.len())?;
    for byte in text {
        if *byte != 0 {
            out.push(*byte)?;
        }
    }
    Ok(out)
}

/// Says whether all characters are white space.
fn are_blanks(text: &[u8]) -> bool
    ensures { result ≡ list_all is_blank text.now }
{
    text.iter().all(|byte| is_blank(*byte))
}

/// Reads white space between texts, and the tag behind it. None is the end.
#[tactic(auto, using(crate::proofs::Pieces::tag_between, crate::proofs::Pieces::end_between, crate::proofs::Pieces::no_tag_between, crate::proofs::Pieces::no_end_between, crate::proofs::Pieces::nothing_built_of))]
pub(crate) fn read_tag_between<'a>(
    alloc: Global,
    text: &mut Vec<u8>,
    bytes: &'a [u8],
) -> Result<Option<(Tag, &'a [u8])>, ReadError>
    ensures read { ContinuesBetween result bytes.now (λ b. closed (Some b)) (λ r b. built_from (built_after (Some b) (Marked r.0)) r.1.now) }
    ensures shorter { IfOk result (λ next. MatchOption next (0 ≤ 0) (λ r. length r.1.now < length bytes.now)) }
{
    let Some((tag, after)) = read_piece(alloc, text, bytes)? else {
        if are_blanks(text) {
            return Ok(None);
        }
        return Err(ReadError::NoTable);
    };
    if !are_blanks(text) {
        return Err(ReadError::NoTable);
    }
    Ok(Some((tag, after)))
}

/// Says whether all bytes are digits.
fn are_digits(value: &[u8]) -> bool
    ensures { result ≡ list_all is_digit value.now }
{
    value.iter().all(|byte| is_digit(*byte))
}

/// Says whether a value is a number.
fn is_number(value: &[u8]) -> bool
    ensures { result ≡ is_number_if (Some value.now) }
{
    if value.is_empty() {
        return false;
    }
    are_digits(value)
}

/// Says whether an attribute that says a span is a number, where it is there.
fn is_span(attributes: &[Attribute], name: &[u8]) -> bool
    ensures { result ≡ is_number_if (value_of name.now attributes.now) }
{
    for attribute in attributes {
        if attribute.name.as_slice() == name {
            return is_number(&attribute.value);
        }
    }
    true
}

/// Says whether a tag ends a cell.
fn ends_cell(tag: &Tag, is_header: bool) -> bool
    ensures { result ≡ ends_cell tag.now is_header }
{
    if !tag.is_end {
        return false;
    }
    if is_header {
        return tag.name.as_slice() == b"th".as_slice();
    }
    tag.name.as_slice() == b"td".as_slice()
}

/// Says whether the attributes that say spans are numbers.
fn are_spans(attributes: &[Attribute]) -> bool
    ensures { result ≡ are_spans attributes.now }
{
    is_span(attributes, b"colspan") && is_span(attributes, b"rowspan")
}

/// Reads a cell's text behind its start tag, and its end tag.
#[tactic(auto, using(crate::proofs::Pieces::cell_ended, crate::proofs::Pieces::cell_not_ended, crate::proofs::Pieces::cell_not_spans, crate::proofs::Pieces::cell_cut, crate::proofs::Pieces::nothing_built_of))]
fn read_cell<'a>(
    alloc: Global,
    text: &mut Vec<u8>,
    is_header: bool,
    attributes: Vec<Attribute>,
    bytes: &'a [u8],
) -> Result<(Element, &'a [u8]), ReadError>
    ensures read { MatchResult result (λ r. AddsCell is_header attributes.items bytes.now r.0 r.1.now) (AddsNoCell is_header attributes.items bytes.now) }
    ensures shorter { IfOk result (λ r. length r.1.now < length bytes.now) }
{
    let Some((tag, after)) = read_piece(alloc, text, bytes)? else {
        return Err(ReadError::NoTable);
    };
    if !ends_cell(&tag, is_header) {
        return Err(ReadError::NoTable);
    }
    if !are_spans(&attributes) {
        return Err(ReadError::NoTable);
    }
    let text = kept(alloc, text)?;
    let cell = Element {
        is_header,
        attributes,
        text,
    };
    Ok((cell, after))
}

/// Reads the cells of a row behind its start tag, and its end tag.
#[tactic(auto, using(crate::proofs::Pieces::none_built))]
pub(crate) fn read_row<'a>(
    alloc: Global,
    text: &mut Vec<u8>,
    bytes: &'a [u8],
) -> Result<(Row, &'a [u8]), ReadError>
    ensures read { MatchResult result (λ r. AddsRow bytes.now r.0 r.1.now) (AddsNoRow bytes.now) }
    ensures shorter { IfOk result (λ r. length r.1.now < length bytes.now) }
{
    let mut cells = Vec::new(alloc);
    let mut rest = bytes;
    'cells: loop {
        let Some((tag, behind)) = read_tag_between(alloc, text, rest)? else {
            return Err(ReadError::NoTable);
        };
        if tag.is_end {
            if tag.name.as_slice() != b"tr".as_slice() {
                return Err(ReadError::NoTable);
            }
            return Ok((Row { cells }, behind));
        }
        if tag.name.as_slice() != b"td".as_slice() && tag.name.as_slice() != b"th".as_slice() {
            return Err(ReadError::NoTable);
        }
        let is_header = tag.name.as_slice() == b"th".as_slice();
        let (cell, after) = read_cell(alloc, text, is_header, tag.attributes, behind)?;
        cells.push(cell)?;
        rest = after;
    }
}

/// Reads the rows of a row group behind some, and its end tag, or that of the table. Says whether it was that.
#[tactic(auto, using(crate::proofs::Pieces::none_built))]
pub(crate) fn read_rows<'a>(
    alloc: Global,
    text: &mut Vec<u8>,
    is_head: bool,
    rows: &mut Vec<Row>,
    bytes: &'a [u8],
) -> Result<(bool, &'a [u8]), ReadError>
    ensures read { MatchResult result (λ r. AddsRows is_head rows.old.items bytes.now r.0 rows.new.items r.1.now) (AddsNoRows is_head rows.old.items bytes.now) }
    ensures shorter { IfOk result (λ r. length r.1.now < length bytes.now) }
{
    let mut rest = bytes;
    'rows: loop {
        let Some((tag, behind)) = read_tag_between(alloc, text, rest)? else {
            return Err(ReadError::NoTable);
        };
        if tag.is_end {
            if tag.name.as_slice() == b"table".as_slice() {
                return Ok((true, behind));
            }
            let name = if is_head {
                b"thead".as_slice()
            } else {
                b"tbody".as_slice()
            };
            if tag.name.as_slice() == name {
                return Ok((false, behind));
            }
            return Err(ReadError::NoTable);
        }
        if tag.name.as_slice() != b"tr".as_slice() {
            return Err(ReadError::NoTable);
        }
        let (row, after) = read_row(alloc, text, behind)?;
        rows.push(row)?;
        rest = after;
    }
}
