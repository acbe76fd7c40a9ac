//! The elements of a table, read.

ghost use Rattle.std.specs.Prelude.{◌≡◌, ◌<◌, IfOk, MatchResult, None, Some, codes, false, length, true};
ghost use Rattle.std.specs.Str.{bytes_eq};
ghost use Rattle.tabled_html_reading.specs.Building.{nothing_built, parsed};
ghost use Rattle.tabled_html_reading.specs.Building.Mode.{Behind, InCaption, InTable};
ghost use Rattle.tabled_html_elements.specs.Outcomes.{Continues, ContinuesEach};
ghost use Rattle.tabled_html_elements.specs.Parts.{built_behind_group, built_behind_tag, built_outside};
ghost use Rattle.tabled_html_elements.specs.Reading.{AreNone, IfFaulty, begins_table, built_from, ends_caption, may_have_caption, with_caption, with_more};
ghost use Rattle.tabled_html_reading.specs.Tokenizing.{normalized};

use crate::building::{kept, read_row, read_rows, read_tag_between};
use crate::elements::{Group, Table, Tag};
use crate::fault::ReadError;
use crate::text::read_piece;
use std::alloc::{AllocError, Global};

/// Says whether a tag has a name.
fn is_named(tag: &Tag, name: &[u8]) -> bool
    ensures { result ≡ bytes_eq tag.now.name name.now }
{
    tag.name.as_slice() == name
}

/// Says whether a tag ends a caption.
fn ends_caption(tag: &Tag) -> bool
    ensures { result ≡ ends_caption tag.now }
{
    tag.is_end && tag.name.as_slice() == b"caption".as_slice()
}

/// Reads a caption's text behind its start tag, and its end tag.
#[tactic(auto, using(crate::proofs::Pieces::caption_ended, crate::proofs::Pieces::caption_not_ended, crate::proofs::Pieces::caption_cut, crate::proofs::Pieces::nothing_built_of))]
fn read_caption<'a>(
    alloc: Global,
    text: &mut Vec<u8>,
    bytes: &'a [u8],
) -> Result<(Vec<u8>, &'a [u8]), ReadError>
    ensures read { ContinuesEach result (built_outside InCaption bytes.now) (λ r table. built_outside InTable r.1.now (with_caption table r.0.items)) }
    ensures shorter { IfOk result (λ r. length r.1.now < length bytes.now) }
{
    let Some((tag, after)) = read_piece(alloc, text, bytes)? else {
        return Err(ReadError::NoTable);
    };
    if !ends_caption(&tag) {
        return Err(ReadError::NoTable);
    }
    let read = kept(alloc, text)?;
    Ok((read, after))
}

/// Reads a row group behind the start tag of it, or of its first row. Says whether the table ends there.
#[tactic(auto, using(crate::proofs::Pieces::no_part))]
fn read_group<'a>(
    alloc: Global,
    text: &mut Vec<u8>,
    start: &Tag,
    bytes: &'a [u8],
) -> Result<(Group, bool, &'a [u8]), ReadError>
    requires start { start.now.is_end ≡ false }
    requires apart { bytes_eq start.now.name (codes "caption") ≡ false }
    ensures read { ContinuesEach result (built_behind_tag start.now bytes.now) (λ r table. built_behind_group r.1 r.2.now (with_more table r.0)) }
    ensures shorter { IfOk result (λ r. length r.2.now < length bytes.now) }
{
    let mut rows = Vec::new(alloc);
    let is_head = is_named(start, b"thead");
    let mut rest = bytes;
    if is_named(start, b"tr") {
        let (row, after) = read_row(alloc, text, bytes)?;
        rows.push(row)?;
        rest = after;
    } else if !is_head && !is_named(start, b"tbody") {
        return Err(ReadError::NoTable);
    }
    let (is_last, after) = read_rows(alloc, text, is_head, &mut rows, rest)?;
    Ok((Group { is_head, rows }, is_last, after))
}

/// Says whether a table may have a caption: it has none, and no row group.
fn may_have_caption(table: &Table) -> bool
    ensures { result ≡ may_have_caption table.now }
{
    table.caption.is_none() && table.groups.is_empty()
}

/// Reads a caption of a table behind its start tag.
#[tactic(auto, using(crate::proofs::Pieces::caption_begun, crate::proofs::Pieces::caption_refused))]
fn add_caption<'a>(
    alloc: Global,
    text: &mut Vec<u8>,
    table: &mut Table,
    start: &Tag,
    bytes: &'a [u8],
) -> Result<&'a [u8], ReadError>
    requires start { start.now.is_end ≡ false }
    requires caption { bytes_eq start.now.name (codes "caption") ≡ true }
    ensures read { Continues result (built_behind_tag start.now bytes.now table.old) (λ after. built_outside InTable after.now table.new) }
    ensures shorter { IfOk result (λ after. length after.now < length bytes.now) }
{
    if !may_have_caption(table) {
        return Err(ReadError::NoTable);
    }
    let (caption, after) = read_caption(alloc, text, bytes)?;
    table.caption = Some(caption);
    Ok(after)
}

/// Reads a row group of a table behind the start tag of it, or of its first row. Says whether the table ends there.
fn add_group<'a>(
    alloc: Global,
    text: &mut Vec<u8>,
    table: &mut Table,
    start: &Tag,
    bytes: &'a [u8],
) -> Result<(bool, &'a [u8]), ReadError>
    requires start { start.now.is_end ≡ false }
    requires apart { bytes_eq start.now.name (codes "caption") ≡ false }
    ensures read { Continues result (built_behind_tag start.now bytes.now table.old) (λ r. built_behind_group r.0 r.1.now table.new) }
    ensures shorter { IfOk result (λ r. length r.1.now < length bytes.now) }
{
    let (group, is_last, after) = read_group(alloc, text, start, bytes)?;
    table.groups.push(group)?;
    Ok((is_last, after))
}

/// Reads what is in a table behind its start tag, and its end tag.
fn read_parts<'a>(
    alloc: Global,
    text: &mut Vec<u8>,
    table: &mut Table,
    bytes: &'a [u8],
) -> Result<&'a [u8], ReadError>
    ensures read { Continues result (built_outside InTable bytes.now table.old) (λ after. built_outside Behind after.now table.new) }
    ensures shorter { IfOk result (λ after. length after.now < length bytes.now) }
{
    let mut rest = bytes;
    'parts: loop {
        let Some((tag, behind)) = read_tag_between(alloc, text, rest)? else {
            return Err(ReadError::NoTable);
        };
        if tag.is_end {
            if !is_named(&tag, b"table") {
                return Err(ReadError::NoTable);
            }
            return Ok(behind);
        }
        if is_named(&tag, b"caption") {
            rest = add_caption(alloc, text, table, &tag, behind)?;
        } else {
            let (is_last, after) = add_group(alloc, text, table, &tag, behind)?;
            if is_last {
                return Ok(after);
            }
            rest = after;
        }
    }
}

/// Says whether a tag behind a text begins a table.
fn begins_table(text: &[u8], tag: &Tag) -> bool
    ensures { result ≡ begins_table text.now tag.now }
{
    text.is_empty() && !tag.is_end && is_named(tag, b"table")
}

/// Reads the table of bytes whose newlines are as they are read.
#[tactic(auto, using(crate::proofs::Pieces::no_table_begins, crate::proofs::Pieces::table_begins, crate::proofs::Pieces::no_table_of_text, crate::proofs::Pieces::no_tag_behind, crate::proofs::Pieces::nothing_built_of))]
fn read_normalized(alloc: Global, bytes: &[u8]) -> Result<Table, ReadError>
    ensures { MatchResult result (λ t. built_from (Some nothing_built) bytes.now ≡ Some t) (λ e. AreNone nothing_built bytes.now e) }
{
    let mut text = Vec::new(alloc);
    let Some((tag, behind)) = read_piece(alloc, &mut text, bytes)? else {
        return Err(ReadError::NoTable);
    };
    if !begins_table(&text, &tag) {
        return Err(ReadError::NoTable);
    }
    let mut table = Table {
        attributes: tag.attributes,
        caption: None,
        groups: Vec::new(alloc),
    };
    let after = read_parts(alloc, &mut text, &mut table, behind)?;
    match read_tag_between(alloc, &mut text, after)? {
        Some(_) => Err(ReadError::NoTable),
        None => Ok(table),
    }
}

/// Bytes with their newlines as they are read.
fn normalized(alloc: Global, bytes: &[u8]) -> Result<Vec<u8>, AllocError>
    ensures { IfOk result (λ out. out.items ≡ normalized bytes.now) }
{
    let mut out = Vec::with_capacity(alloc, bytes.len())?;
    let mut is_behind_return = false;
    for byte in bytes {
        if *byte == b'\r' {
            out.push(b'\n')?;
        } else if !is_behind_return || *byte != b'\n' {
            out.push(*byte)?;
        }
        is_behind_return = *byte == b'\r';
    }
    Ok(out)
}

/// Reads the elements of a table. The bytes have to be those of a table alone, as this project writes one, or of one like
/// it: what the definitions don't describe, as a comment or another element, is no table.
///
/// The attributes of a tag are compared with one another, which takes long where there are very many.
///
/// Of this project.
pub fn read(alloc: Global, bytes: &[u8]) -> Result<Table, ReadError>
    // What is read is what the definitions read, and where they read nothing it is no table.
    ensures { MatchResult result (λ t. parsed bytes.now ≡ Some t) (λ e. IfFaulty e (parsed bytes.now ≡ None)) }
{
    let bytes = normalized(alloc, bytes)?;
    read_normalized(alloc, &bytes)
}
