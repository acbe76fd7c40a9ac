//! Characters, read.

ghost use Rattle.std.specs.Prelude.{◌<◌, ◌≤◌, IfOk, MatchOption, length};
ghost use Rattle.tabled_html_elements.specs.Texts.{ReadsText, behind_text, text_and_tag};
ghost use Rattle.tabled_html_reading.specs.Tokenizing.{emit, tokens_from};
ghost use Rattle.tabled_html_reading.specs.Tokenizing.State.{Data, TagOpen};

use crate::elements::Tag;
use crate::fault::ReadError;
use crate::reference::read_reference;
use crate::tag::read_tag;
use std::alloc::Global;

/// Puts characters behind a text. The bytes behind the bracket of the next tag, or none at the end.
fn read_characters<'a>(
    alloc: Global,
    text: &mut Vec<u8>,
    bytes: &'a [u8],
) -> Result<Option<&'a [u8]>, ReadError>
    ensures read { ReadsText result (behind_text text.old.items bytes.now Data) text.new.items (λ after. behind_text text.new.items after.now TagOpen) }
    ensures shorter { IfOk result (λ next. MatchOption next (0 ≤ 0) (λ after. length after.now < length bytes.now)) }
{
    let mut rest = bytes;
    'characters: loop {
        let Some((first, behind)) = rest.split_first() else {
            return Ok(None);
        };
        if *first == b'<' {
            return Ok(Some(behind));
        }
        if *first == b'&' {
            rest = read_reference(alloc, text, behind)?;
        } else {
            text.push(*first)?;
            rest = behind;
        }
    }
}

/// Makes a text the characters up to the next tag, and reads that tag. None is the end.
pub(crate) fn read_piece<'a>(
    alloc: Global,
    text: &mut Vec<u8>,
    bytes: &'a [u8],
) -> Result<Option<(Tag, &'a [u8])>, ReadError>
    ensures read { ReadsText result (tokens_from bytes.now Data) text.new.items (λ r. emit (text_and_tag text.new.items r.0) (tokens_from r.1.now Data)) }
    ensures shorter { IfOk result (λ next. MatchOption next (0 ≤ 0) (λ r. length r.1.now < length bytes.now)) }
{
    text.clear();
    let Some(behind) = read_characters(alloc, text, bytes)? else {
        return Ok(None);
    };
    let (tag, after) = read_tag(alloc, behind)?;
    Ok(Some((tag, after)))
}
