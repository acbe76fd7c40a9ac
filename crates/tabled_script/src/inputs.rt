//! The rows of files, one behind another, and steps as lists of words.

ghost use Rattle.std.specs.Cmp.Lexicographic.{pointwise};
ghost use Rattle.std.specs.Prelude.{◌≡◌, IfOk, MatchResult, Some, map};
ghost use Rattle.std.specs.Str.{bytes_eq};
ghost use Rattle.std.specs.String.{string_bytes};
ghost use Rattle.tabled_texts.specs.Texts.{rows_of, text_of};
ghost use Rattle.tabled_language.specs.Lent.{texts_in_records, texts_in_row};
ghost use Rattle.tabled_language.specs.Parsing.{cell_texts};
ghost use Rattle.tabled_script.specs.Inputs.{HasRows, HasTable, NoRowsIn, NoTable, NotBehind, behind};
ghost use Rattle.tabled_script.specs.Outcome.{status_of_error};

use crate::csv_form::csv_rows;
use crate::json_form::json_rows;
use crate::outcome::{FAULTY, OUT_OF_MEMORY};
use crate::request::{Format, Source};
use std::alloc::{AllocError, Global};
use tabled_language::LentText;
use tabled_texts::{Room, Spare};

/// What is wrong with a file of rows.
#[derive(Clone, Copy)]
pub(crate) enum SourceFault {
    Csv(tabled_csv::Fault),
    /// It shows at a byte of the line, counted from 1.
    Json {
        column: usize,
        fault: tabled_json::Fault,
    },
}

/// Why a file has no rows.
#[derive(Clone, Copy)]
pub(crate) enum RowsError {
    /// It is faulty, as shows in a line.
    Faulty { line: usize, fault: SourceFault },
    OutOfMemory,
}

/// Why rows don't stand behind others.
#[derive(Drop)]
pub(crate) enum JoinError<'a> {
    /// Their first row isn't the head, which is the first row of those before, and of the file of an index.
    Differs {
        head: Vec<&'a str>,
        first: Vec<&'a str>,
        of: usize,
    },
    OutOfMemory,
}

/// Why files have no table.
#[derive(Drop)]
pub(crate) enum SourcesError<'a> {
    /// The file of an index has no rows.
    Unread(usize, RowsError),
    /// The rows of the file of an index don't stand behind those of the files before.
    Unjoined(usize, JoinError<'a>),
}

impl SourcesError<'_> {
    pub(crate) fn status(&self) -> u8
        ensures { result ≡ status_of_error self.now }
    {
        match self {
            SourcesError::Unread(_, RowsError::OutOfMemory)
            | SourcesError::Unjoined(_, JoinError::OutOfMemory) => OUT_OF_MEMORY,
            SourcesError::Unread(_, RowsError::Faulty { .. })
            | SourcesError::Unjoined(_, JoinError::Differs { .. }) => FAULTY,
        }
    }
}

/// The rows of files, one behind another. Where they begin with the same row, it stands once.
pub(crate) fn rows_of_sources<'a>(
    alloc: Global,
    sources: &'a [Source],
    room: &'a mut Room,
) -> Result<Vec<Vec<&'a str>>, SourcesError<'a>>
    ensures { MatchResult result (λ rows. HasTable sources.now (rows_of rows.items)) (NoTable sources.now) }
{
    let mut spare = Spare::new(room);
    let mut rows = Vec::new(alloc);
    let mut index = 0;
    // The file whose first row is that of the rows.
    let mut of = 0;
    for source in sources {
        of = first_of(&rows, index, of);
        match rows_of(alloc, source, &mut spare) {
            Ok(others) => match joined(rows, others, of) {
                Ok(all) => rows = all,
                Err(error) => return Err(SourcesError::Unjoined(index, error)),
            },
            Err(error) => return Err(SourcesError::Unread(index, error)),
        }
        index += 1;
    }
    Ok(rows)
}

/// The file whose first row is that of rows, or that of an index, where there are none yet.
fn first_of(rows: &[Vec<&str>], index: usize, of: usize) -> usize {
    if rows.is_empty() { index } else { of }
}

/// The rows of a file.
fn rows_of<'a>(
    alloc: Global,
    source: &'a Source,
    spare: &mut Spare<'a>,
) -> Result<Vec<Vec<&'a str>>, RowsError>
    ensures { MatchResult result (λ rows. HasRows source.now (rows_of rows.items)) (NoRowsIn source.now.format source.now.bytes.items) }
{
    match source.format {
        Format::Csv(dialect) => csv_rows(alloc, dialect, &source.bytes, spare),
        Format::Json => json_rows(alloc, &source.bytes, spare),
    }
}

/// Rows and others behind them, without the first one of these, if it is that of the rows, and of the file of an index.
fn joined<'a>(
    rows: Vec<Vec<&'a str>>,
    others: Vec<Vec<&'a str>>,
    of: usize,
) -> Result<Vec<Vec<&'a str>>, JoinError<'a>>
    ensures { MatchResult result (λ all. behind (rows_of rows.entry.items) (rows_of others.entry.items) ≡ Some (rows_of all.items)) (NotBehind (rows_of rows.entry.items) (rows_of others.entry.items)) }
{
    if rows.is_empty() {
        return Ok(others);
    }
    let mut rest = others.into_iter();
    let Some(first) = rest.next() else {
        return Ok(rows);
    };
    let mut all = rows;
    if !is_same_row(&all[0], &first) {
        let head = all.swap_remove(0);
        return Err(JoinError::Differs { head, first, of });
    }
    for row in rest {
        if all.push(row).is_err() {
            return Err(JoinError::OutOfMemory);
        }
    }
    Ok(all)
}

/// Says whether two rows have the same texts.
fn is_same_row(row: &[&str], other: &[&str]) -> bool
    ensures { result ≡ pointwise bytes_eq (map text_of row.now) (map text_of other.now) }
{
    if row.len() != other.len() {
        return false;
    }
    for i in 0..row.len() {
        if row[i] != other[i] {
            return false;
        }
    }
    true
}

/// The words of steps, lent.
pub(crate) fn lent_words<'a>(
    alloc: Global,
    steps: &'a [Vec<String>],
) -> Result<Vec<Vec<LentText<'a>>>, AllocError>
    ensures { IfOk result (λ words. texts_in_records words.items ≡ cell_texts steps.now) }
{
    let mut words = Vec::with_capacity(alloc, steps.len())?;
    for step in steps {
        words.push(lent_step(alloc, step)?)?;
    }
    Ok(words)
}

/// The words of a step, lent.
pub(crate) fn lent_step<'a>(
    alloc: Global,
    step: &'a [String],
) -> Result<Vec<LentText<'a>>, AllocError>
    ensures { IfOk result (λ words. texts_in_row words ≡ map string_bytes step.now) }
{
    let mut words = Vec::with_capacity(alloc, step.len())?;
    for word in step {
        words.push(LentText::from(word.as_str()))?;
    }
    Ok(words)
}
