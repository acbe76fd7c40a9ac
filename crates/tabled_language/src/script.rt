//! A script: its records, its merged cells and its steps.

ghost use Rattle.std.specs.Prelude.{◌≡◌, ◌+◌, ◌<◌, ◌^◌, false, IfErr, IfOk, length, map};
ghost use Rattle.tabled_language.specs.Lent.{texts_in_records};
ghost use Rattle.tabled_language.specs.Line.{ended_lines, has_byte, lines_of, says_line};
ghost use Rattle.tabled_language.specs.Memory.{InBytes, InWords};
ghost use Rattle.tabled_language.specs.Script.{lines_between, parse, parse_between};
ghost use Rattle.tabled_language.specs.Parsing.{EndsBetween, EndsScript, HasStepLines, IsScript, ReadsGiven, draft_in};

use crate::draft::Draft;
use crate::fault::ParseError;
use crate::lent::LentText;
use crate::origin::until_last_newline;
use crate::parts::Parts;
use crate::text_parts::TextLines;
use crate::texts::plain;
use std::alloc::Global;
use tabled_grid::config::SpannedConfig;
use tabled_steps::Step;

/// The records of a script, whose texts it lends where they stand there as they are, its merged cells, its steps, and
/// the numbers of their lines, counted from 1.
#[derive(Drop)]
pub struct Script<'a> {
    pub records: Vec<Vec<LentText<'a>>>,
    pub spans: SpannedConfig,
    pub steps: Vec<Step>,
    pub step_lines: Vec<usize>,
}

/// A draft with what the lines of bytes say behind so many others, and the number of the last.
fn read_lines<'a>(
    alloc: Global,
    draft: Draft<'a>,
    before: usize,
    input: &'a [u8],
) -> Result<(Draft<'a>, usize), ParseError>
    requires { before < 2 ^ 63 }
    ensures { ReadsGiven (draft_in draft.entry) before (map InBytes (ended_lines input.now)) result }
{
    let Some(lines) = until_last_newline(input) else {
        return Ok((draft, before));
    };
    // To test all bytes at once takes less than to test those of each line.
    match plain(lines) {
        Some(text) => read_plain_lines(alloc, draft, before, text),
        None => read_each_line(alloc, draft, before, lines),
    }
}

/// A draft with what the lines of any bytes say.
fn read_each_line<'a>(
    alloc: Global,
    mut draft: Draft<'a>,
    before: usize,
    lines: &'a [u8],
) -> Result<(Draft<'a>, usize), ParseError>
    requires { before < 2 ^ 63 }
    ensures { ReadsGiven (draft_in draft.entry) before (map InBytes (lines_of lines.now)) result }
{
    let mut number = before;
    for line in Parts::new(lines, b'\n') {
        number += 1;
        if let Err(error) = draft.read_line(alloc, number, line) {
            return Err(error.in_line(number));
        }
    }
    Ok((draft, number))
}

/// A draft with what the lines of a text without escapes say.
fn read_plain_lines<'a>(
    alloc: Global,
    mut draft: Draft<'a>,
    before: usize,
    text: &'a str,
) -> Result<(Draft<'a>, usize), ParseError>
    requires no_escape { has_byte 92 text.now ≡ false }
    requires few { before < 2 ^ 63 }
    ensures { ReadsGiven (draft_in draft.entry) before (map InBytes (lines_of text.now)) result }
{
    let mut number = before;
    for line in TextLines::new(text) {
        number += 1;
        if let Err(error) = draft.read_plain(alloc, number, line) {
            return Err(error.in_line(number));
        }
    }
    Ok((draft, number))
}

/// A draft with what lists of words say, as lines do.
fn read_each_words<'a>(
    alloc: Global,
    mut draft: Draft<'a>,
    before: usize,
    words: Vec<Vec<LentText<'a>>>,
) -> Result<(Draft<'a>, usize), ParseError>
    requires { before + length words.items < 2 ^ 64 }
    ensures { ReadsGiven (draft_in draft.entry) before (map InWords (texts_in_records words.entry.items)) result }
{
    let mut number = before;
    for texts in words {
        number += 1;
        if let Err(error) = draft.read_given(alloc, number, texts) {
            return Err(error.in_line(number));
        }
    }
    Ok((draft, number))
}

/// The script that bytes write, or the number of its first faulty line and the fault. Its records are as
/// long as their lines, and its merged cells fit their table; no step is done.
///
/// Want of memory is answered only where memory is asked for before the first fault is found.
///
/// Of this project.
pub fn parse<'a>(alloc: Global, input: &'a [u8]) -> Result<Script<'a>, ParseError>
    ensures script { IfOk result (IsScript (parse input.now)) }
    ensures step_lines { IfOk result (HasStepLines (map says_line (lines_of input.now))) }
    ensures error { IfErr result (EndsScript input.now) }
{
    parse_between(alloc, Vec::new(alloc), input, Vec::new(alloc))
}

/// The script of rows, bytes and lists of words, or the number of its first faulty line and the fault: a record for each
/// row, as if its texts stood behind `row`, then what the lines of the bytes say, then what each list of words says, as
/// the words of a line. The lines are counted in this order, whether or not a newline ends the last one of the bytes;
/// `origin_of` tells which of them a number is. The texts are lent, and records are as long as their rows and lines.
///
/// Want of memory is answered only where memory is asked for before the first fault is found: a row asks for none; or
/// where there are more rows and words than any memory holds.
///
/// Of this project.
pub fn parse_between<'a>(
    alloc: Global,
    rows: Vec<Vec<LentText<'a>>>,
    input: &'a [u8],
    words: Vec<Vec<LentText<'a>>>,
) -> Result<Script<'a>, ParseError>
    ensures script { IfOk result (IsScript (parse_between (texts_in_records rows.entry.items) input.now (texts_in_records words.entry.items))) }
    ensures step_lines { IfOk result (HasStepLines (lines_between (texts_in_records rows.entry.items) input.now (texts_in_records words.entry.items))) }
    ensures error { IfErr result (EndsBetween (texts_in_records rows.entry.items) input.now (texts_in_records words.entry.items)) }
{
    let before = rows.len();
    if before + words.len() > usize::MAX / 2 {
        return Err(ParseError::OutOfMemory);
    }
    let draft = Draft::of_records(alloc, rows);
    let (draft, before) = read_lines(alloc, draft, before, input)?;
    let (draft, _) = read_each_words(alloc, draft, before, words)?;
    draft.into_script(alloc)
}
