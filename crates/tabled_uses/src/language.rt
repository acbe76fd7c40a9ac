//! Calls of the language of scripts.

use std::alloc::{AllocError, Global};
use tabled_grid::config::SpannedConfig;
use tabled_grid::records::{
    CellText, ExactRecords, PeekableRecords, Records, RecordsMut, Resizable,
};
use tabled_language::{
    LentText, Origin, ParseError, Script, count_lines, origin_of, padded, parse, parse_between,
};
use tabled_steps::run;

/// Does the steps of a script to a store, or answers the number of the first faulty line.
pub fn does<R>(
    alloc: Global,
    input: &[u8],
    records: &mut R,
    cfg: &mut SpannedConfig,
) -> Result<Option<usize>, AllocError>
where
    R: Records + ExactRecords + PeekableRecords + RecordsMut<String> + Resizable,
    R::Cell: CellText,
    requires { R.is_well_formed records.old }
    ensures { R.is_well_formed records.new }
{
    let script = match parse(alloc, input) {
        Ok(script) => script,
        Err(ParseError::Faulty { line, .. }) => return Ok(Some(line)),
        Err(ParseError::OutOfMemory) => return Err(AllocError),
    };
    match run(alloc, records, cfg, script.steps) {
        Ok(()) => Ok(None),
        Err((_, error)) => Err(error),
    }
}

/// The rows and columns of a script's own table after its steps.
pub fn ends_with(alloc: Global, input: &[u8]) -> Result<(usize, usize), ParseError> {
    let Script {
        records,
        mut spans,
        steps,
        ..
    } = parse(alloc, input)?;
    let mut cells = padded(records)?;
    match run(alloc, &mut cells, &mut spans, steps) {
        Ok(()) => Ok((cells.count_rows(), cells.count_columns())),
        Err((_, error)) => Err(error.into()),
    }
}

/// The words that the records of a script lend, each behind a tab.
pub fn lent_words(alloc: Global, input: &[u8]) -> Result<String, ParseError> {
    let script = parse(alloc, input)?;
    let mut words = String::new(alloc);
    for record in &script.records {
        for text in record {
            let LentText::Lent(plain) = text else {
                continue;
            };
            if text.as_word() == Some(plain.as_word()) {
                words.push('\t')?;
                words.push_str(plain.as_word())?;
            }
        }
    }
    Ok(words)
}

/// Where the first faulty line of a script comes from that stands between rows and words, if one is faulty.
pub fn first_faulty<'a>(
    alloc: Global,
    rows: Vec<Vec<LentText<'a>>>,
    input: &'a [u8],
    words: Vec<Vec<LentText<'a>>>,
) -> Result<Option<Origin>, AllocError> {
    let many = rows.len();
    match parse_between(alloc, rows, input, words) {
        Ok(_) => Ok(None),
        Err(ParseError::Faulty { line, .. }) => {
            Ok(Some(origin_of(many, count_lines(input), line)))
        }
        Err(ParseError::OutOfMemory) => Err(AllocError),
    }
}
