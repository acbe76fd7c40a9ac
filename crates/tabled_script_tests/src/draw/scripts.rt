//! Scripts and the pictures of their tables.

use super::odd::ODD;
use super::originals::ORIGINALS;
use super::rearranged::{REARRANGED, TABLE};
use std::alloc::{AllocError, Global};
use std::test::Fail;
use tabled_draw::{Look, picture_with};
use tabled_language::{ParseError, Script, padded, parse};
use tabled_steps::run;

/// The picture of the table that a script makes, and none of a faulty script.
pub(crate) fn drawn(alloc: Global, script: &str) -> Result<Option<String>, AllocError> {
    drawn_in(alloc, script, &Look::default())
}

/// The picture in a look of the table that a script makes, and none of a faulty script.
pub(crate) fn drawn_in(
    alloc: Global,
    script: &str,
    look: &Look<'_>,
) -> Result<Option<String>, AllocError> {
    match parse(alloc, script.as_bytes()) {
        Ok(script) => Ok(Some(drawn_after(alloc, script, look)?)),
        Err(ParseError::Faulty { .. }) => Ok(None),
        Err(ParseError::OutOfMemory) => Err(AllocError),
    }
}

/// The picture of a script's table after its steps.
fn drawn_after(alloc: Global, script: Script, look: &Look<'_>) -> Result<String, AllocError> {
    let Script {
        records,
        mut spans,
        steps,
        ..
    } = script;
    let mut records = padded(records)?;
    match run(alloc, &mut records, &mut spans, steps) {
        Ok(()) => picture_with(alloc, &records, &spans, look),
        Err((_, error)) => Err(error),
    }
}

/// Whether a picture has these lines, with a newline after each.
pub(crate) fn has_lines(picture: &str, lines: &str) -> bool {
    picture.strip_suffix('\n') == Some(lines)
}

/// Tells the first of some cases that isn't drawn as it says. A case is lines of a script, before which some stand in
/// all cases, and, after a line `=`, the lines of its picture; an empty line stands before the next case.
fn first_wrong(
    alloc: Global,
    before: &str,
    cases: &'static str,
) -> Result<Option<&'static str>, Fail> {
    for case in cases.split("\n\n") {
        let (steps, lines) = case.split_once("=\n").unwrap_or(("", ""));
        let script = format!(in alloc; "{before}{steps}")?;
        let is_right = match drawn(alloc, script.as_str())? {
            Some(picture) => has_lines(picture.as_str(), lines),
            None => false,
        };
        if !is_right {
            return Ok(Some(case));
        }
    }
    Ok(None)
}

#[test]
fn are_drawn_as_they_say(rt: HostRuntime) -> Result<(), Fail> {
    for &(before, cases) in &[("", ORIGINALS), ("", ODD), (TABLE, REARRANGED)] {
        assert_eq!(rt; first_wrong(rt.alloc(), before, cases)?, None);
    }
    Ok(())
}
