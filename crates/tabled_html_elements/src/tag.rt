//! Tags, read.

ghost use Rattle.std.specs.Prelude.{◌≡◌, ◌<◌, ◌≤◌, ◌∷◌, [], IfOk, is_some, length};
ghost use Rattle.tabled_html_reading.specs.Characters.{lowercase};
ghost use Rattle.tabled_html_reading.specs.Elements.{value_of};
ghost use Rattle.tabled_html_elements.specs.Outcomes.{Continues, ContinuesEach};
ghost use Rattle.tabled_html_elements.specs.Tags.{AddsAttributes, Leads, LeadsNamed, behind_tag, in_tag};
ghost use Rattle.tabled_html_reading.specs.Tokenizing.{tag, tokens_from, with_attribute};
ghost use Rattle.tabled_html_reading.specs.Tokenizing.State.{AfterAttributeValue, AttributeName, AttributeValue, BeforeAttributeName, BeforeAttributeValue, TagName, TagOpen};

use crate::characters::{is_blank, is_letter, lowercase};
use crate::elements::{Attribute, Tag};
use crate::fault::ReadError;
use std::alloc::Global;

/// Reads a tag's name behind its first letter, up to the blank or the bracket behind it.
fn read_name<'a>(name: &mut Vec<u8>, bytes: &'a [u8]) -> Result<&'a [u8], ReadError>
    ensures read { Leads result bytes.now (λ is_end. TagName (tag is_end name.old.items)) (λ is_end. BeforeAttributeName (tag is_end name.new.items)) }
    ensures shorter { IfOk result (λ after. length after.now ≤ length bytes.now) }
{
    let mut rest = bytes;
    'name: loop {
        let Some((first, behind)) = rest.split_first() else {
            return Err(ReadError::NoTable);
        };
        if is_blank(*first) || *first == b'>' {
            return Ok(rest);
        }
        if *first == b'/' || *first == 0 {
            return Err(ReadError::NoTable);
        }
        name.push(lowercase(*first))?;
        rest = behind;
    }
}

/// Reads an attribute's name behind its first letter, and the equals sign behind it.
fn read_attribute_name<'a>(name: &mut Vec<u8>, bytes: &'a [u8]) -> Result<&'a [u8], ReadError>
    ensures read { Leads result bytes.now (λ t. AttributeName t name.old.items) (λ t. BeforeAttributeValue t name.new.items) }
    ensures shorter { IfOk result (λ after. length after.now < length bytes.now) }
{
    let mut rest = bytes;
    'name: loop {
        let Some((first, behind)) = rest.split_first() else {
            return Err(ReadError::NoTable);
        };
        if *first == b'=' {
            return Ok(behind);
        }
        if !is_letter(*first) {
            return Err(ReadError::NoTable);
        }
        name.push(lowercase(*first))?;
        rest = behind;
    }
}

/// Reads blanks, and the quote behind them.
fn read_quote(bytes: &[u8]) -> Result<&[u8], ReadError>
    ensures read { LeadsNamed result bytes.now BeforeAttributeValue (λ t name. AttributeValue t name []) }
    ensures shorter { IfOk result (λ after. length after.now < length bytes.now) }
{
    let mut rest = bytes;
    'blanks: loop {
        let Some((first, behind)) = rest.split_first() else {
            return Err(ReadError::NoTable);
        };
        if *first == b'"' {
            return Ok(behind);
        }
        if !is_blank(*first) {
            return Err(ReadError::NoTable);
        }
        rest = behind;
    }
}

/// Reads an attribute's value, and the quote behind it.
fn read_value<'a>(value: &mut Vec<u8>, bytes: &'a [u8]) -> Result<&'a [u8], ReadError>
    ensures read { LeadsNamed result bytes.now (λ t n. AttributeValue t n value.old.items) (λ t n. AfterAttributeValue (with_attribute t n value.new.items)) }
    ensures shorter { IfOk result (λ after. length after.now < length bytes.now) }
{
    let mut rest = bytes;
    'value: loop {
        let Some((first, behind)) = rest.split_first() else {
            return Err(ReadError::NoTable);
        };
        if *first == b'"' {
            return Ok(behind);
        }
        if *first == b'&' || *first == 0 {
            return Err(ReadError::NoTable);
        }
        value.push(*first)?;
        rest = behind;
    }
}

/// Sees that a blank or a bracket is behind an attribute.
fn read_end(bytes: &[u8]) -> Result<(), ReadError>
    ensures read { ContinuesEach result (λ t. tokens_from bytes.now (AfterAttributeValue t)) (λ _ t. tokens_from bytes.now (BeforeAttributeName t)) }
{
    let Some((first, _behind)) = bytes.split_first() else {
        return Err(ReadError::NoTable);
    };
    if is_blank(*first) || *first == b'>' {
        return Ok(());
    }
    Err(ReadError::NoTable)
}

/// Says whether an attribute of some has a name.
fn has_name(attributes: &[Attribute], name: &[u8]) -> bool
    ensures { result ≡ is_some (value_of name.now attributes.now) }
{
    for attribute in attributes {
        if attribute.name.as_slice() == name {
            return true;
        }
    }
    false
}

/// Reads an attribute behind the first letter of its name.
fn read_attribute<'a>(
    alloc: Global,
    attributes: &mut Vec<Attribute>,
    letter: u8,
    bytes: &'a [u8],
) -> Result<&'a [u8], ReadError>
    ensures read { AddsAttributes result bytes.now attributes.old.items attributes.new.items (λ t. AttributeName t (lowercase letter ∷ [])) in_tag }
    ensures shorter { IfOk result (λ after. length after.now < length bytes.now) }
{
    let mut name = Vec::new(alloc);
    name.push(lowercase(letter))?;
    let equals = read_attribute_name(&mut name, bytes)?;
    let quote = read_quote(equals)?;
    let mut value = Vec::new(alloc);
    let after = read_value(&mut value, quote)?;
    read_end(after)?;
    if !has_name(attributes, &name) {
        attributes.push(Attribute { name, value })?;
    }
    Ok(after)
}

/// Reads the attributes of a tag, and the bracket behind them.
fn read_attributes<'a>(
    alloc: Global,
    attributes: &mut Vec<Attribute>,
    bytes: &'a [u8],
) -> Result<&'a [u8], ReadError>
    ensures read { AddsAttributes result bytes.now attributes.old.items attributes.new.items BeforeAttributeName behind_tag }
    ensures shorter { IfOk result (λ after. length after.now < length bytes.now) }
{
    let mut rest = bytes;
    'attributes: loop {
        let Some((first, behind)) = rest.split_first() else {
            return Err(ReadError::NoTable);
        };
        if *first == b'>' {
            return Ok(behind);
        }
        if is_blank(*first) {
            rest = behind;
        } else if is_letter(*first) {
            rest = read_attribute(alloc, attributes, *first, behind)?;
        } else {
            return Err(ReadError::NoTable);
        }
    }
}

/// Reads a tag behind the first letter of its name.
fn read_named<'a>(
    alloc: Global,
    is_end: bool,
    letter: u8,
    bytes: &'a [u8],
) -> Result<(Tag, &'a [u8]), ReadError>
    ensures read { Continues result (tokens_from bytes.now (TagName (tag is_end (lowercase letter ∷ [])))) (λ r. behind_tag r.1.now r.0) }
    ensures shorter { IfOk result (λ r. length r.1.now < length bytes.now) }
{
    let mut name = Vec::new(alloc);
    name.push(lowercase(letter))?;
    let rest = read_name(&mut name, bytes)?;
    let mut attributes = Vec::new(alloc);
    let after = read_attributes(alloc, &mut attributes, rest)?;
    let tag = Tag {
        is_end,
        name,
        attributes,
    };
    Ok((tag, after))
}

/// Reads a tag behind its first bracket.
pub(crate) fn read_tag<'a>(alloc: Global, bytes: &'a [u8]) -> Result<(Tag, &'a [u8]), ReadError>
    ensures read { Continues result (tokens_from bytes.now TagOpen) (λ r. behind_tag r.1.now r.0) }
    ensures shorter { IfOk result (λ r. length r.1.now < length bytes.now) }
{
    let Some((first, behind)) = bytes.split_first() else {
        return Err(ReadError::NoTable);
    };
    if is_letter(*first) {
        return read_named(alloc, false, *first, behind);
    }
    if *first != b'/' {
        return Err(ReadError::NoTable);
    }
    let Some((letter, rest)) = behind.split_first() else {
        return Err(ReadError::NoTable);
    };
    if is_letter(*letter) {
        return read_named(alloc, true, *letter, rest);
    }
    Err(ReadError::NoTable)
}
