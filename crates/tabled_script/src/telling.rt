//! What is told beside the answer: of lines, of files, and of a status.

use crate::cures::cure_of_json;
use crate::inputs::{JoinError, RowsError, SourceFault, SourcesError, lent_step};
use crate::json_form::EqualKeys;
use crate::message::complaint;
use crate::notes::Notes;
use crate::outcome::{FAILED, OUT_OF_MEMORY, Outcome, Unwritten};
use crate::request::{Request, Source};
use crate::told_words::ToldWords;
use std::alloc::{AllocError, Global};
use std::io::Write;
use tabled_language::{Fault, Origin, count_lines, faulty_word, faulty_word_of_line, origin_of};

/// Where what is read as lines comes from: rows of files, the lines of a script, and the steps of arguments.
#[derive(Clone, Copy)]
pub(crate) struct LineOrigins<'s, 'r> {
    /// How many rows stand before the lines of the script.
    pub(crate) rows: usize,
    pub(crate) script: &'s [u8],
    pub(crate) steps: &'r [Vec<String>],
}

/// What is doubtful of a step.
#[derive(Drop)]
pub(crate) enum Doubt {
    /// It goes by names that no column has, as this says.
    NamesNoColumn(String),
    NamesNothing,
    ChangesNothing,
    /// It wraps texts to no column.
    LeavesNoText,
}

impl<'s, 'r> LineOrigins<'s, 'r> {
    /// The number of the last line of the script: the steps of arguments stand behind it.
    pub(crate) fn script_end(&self) -> usize {
        self.rows.saturating_add(count_lines(self.script))
    }

    /// Where the line of a number stands.
    fn origin(&self, number: usize) -> Origin {
        origin_of(self.rows, count_lines(self.script), number)
    }

    /// A line of the script, by its number there.
    fn line(&self, number: usize) -> &'s [u8] {
        let mut lines = self.script.split(|byte| *byte == b'\n');
        lines.nth(number.saturating_sub(1)).unwrap_or(&[])
    }

    /// Says whether a faulty line is a step that `then` ended, or one behind it: the text may have been meant.
    fn is_beside_then(&self, origin: Origin, fault: Fault) -> bool {
        match (origin, fault) {
            (Origin::Words(number), Fault::WordCount) => number < self.steps.len(),
            (Origin::Words(number), Fault::UnknownWord) => 1 < number,
            _ => false,
        }
    }

    /// The words of the line of a number, if it is a step of the arguments.
    pub(crate) fn step_words(&self, number: usize) -> &'r [String] {
        match self.origin(number) {
            Origin::Words(number) => self.step(number),
            Origin::Row(_) | Origin::Line(_) => &[],
        }
    }

    /// The words of a step, by its number.
    fn step(&self, number: usize) -> &'r [String] {
        match self.steps.get(number.saturating_sub(1)) {
            Some(words) => words,
            None => &[],
        }
    }

    /// As many words of a line as are told.
    fn words(&self, alloc: Global, origin: Origin) -> Result<ToldWords, AllocError> {
        let mut told = ToldWords::new(alloc);
        match origin {
            Origin::Row(_) => {}
            Origin::Line(number) => {
                for word in self.line(number).split(|byte| *byte == b'\t') {
                    told.push(alloc, word)?;
                }
            }
            Origin::Words(number) => {
                for word in self.step(number) {
                    told.push(alloc, word.as_bytes())?;
                }
            }
        }
        Ok(told)
    }

    /// Which word of a faulty line its fault is at.
    fn faulty_word(&self, alloc: Global, origin: Origin) -> Result<usize, AllocError> {
        match origin {
            Origin::Row(_) => Ok(0),
            Origin::Line(number) => faulty_word_of_line(alloc, self.line(number)),
            Origin::Words(number) => faulty_word(alloc, &lent_step(alloc, self.step(number))?),
        }
    }
}

/// Tells of what comes of a script that isn't its table: where its first faulty line stands, the word at fault and the
/// likely cure, and its words as they were read; or how many columns a picture takes; or which key stands twice; or that
/// memory ran out. Nothing is told where that can't be written, or memory runs out.
pub(crate) fn tell_outcome<E: Write>(
    alloc: Global,
    lines: LineOrigins,
    outcome: &Outcome,
    errors: &mut E,
) {
    match outcome {
        Err(Unwritten::Faulty(number, fault)) => tell(
            fault_lines(alloc, lines, *number, *fault),
            errors,
        ),
        Err(Unwritten::TooNarrow(narrow)) => narrow.tell(alloc, errors),
        Err(Unwritten::EqualKeys(keys)) => tell(equal_keys_line(alloc, keys), errors),
        Err(Unwritten::OutOfMemory) => tell_status(OUT_OF_MEMORY, errors),
        // Who gives the writer knows why it failed.
        Ok(()) | Err(Unwritten::Failed) => {}
    }
}

/// Tells why files have no table: where one is faulty and what is wrong there, or which first rows differ.
pub(crate) fn tell_sources_error<E: Write>(
    alloc: Global,
    sources: &[Source],
    error: &SourcesError,
    errors: &mut E,
) {
    match error {
        SourcesError::Unread(index, RowsError::Faulty { line, fault }) => {
            if let Some(source) = sources.get(*index) {
                tell(source_fault_line(alloc, source, *line, *fault), errors);
            }
        }
        SourcesError::Unjoined(index, JoinError::Differs { head, first, of }) => {
            let names = (name_of(sources, *index), name_of(sources, *of));
            tell(difference_lines(alloc, names, head, first), errors);
        }
        SourcesError::Unread(_, RowsError::OutOfMemory)
        | SourcesError::Unjoined(_, JoinError::OutOfMemory) => tell_status(OUT_OF_MEMORY, errors),
    }
}

/// Tells that the rows of files have not all as many texts as the first one, if that is so and is checked.
pub(crate) fn tell_ragged<E: Write>(
    alloc: Global,
    request: &Request,
    rows: &[Vec<&str>],
    notes: &mut Notes<'_, E>,
) {
    let Some(first) = rows.first() else {
        return;
    };
    let wide = first.len();
    let others = rows.iter().filter(|row| row.len() != wide).count();
    if request.checks_steps && 0 < others {
        let place = rows.iter().position(|row| row.len() != wide).unwrap_or(0);
        let number = place.saturating_add(1);
        let name = name_of(&request.sources, 0);
        notes.tell(format!(in alloc;
            "tabled_script: {name}: the first row has {wide} texts, and row {number} another number of them; rows that differ from the first: {others}\n"
        ));
    }
}

/// Tells of a status that memory ran out, or that reading or writing failed. Of others there is nothing to be told.
///
/// Of this project.
pub fn tell_status<E: Write>(status: u8, errors: &mut E) {
    let line: &[u8] = match status {
        OUT_OF_MEMORY => b"tabled_script: memory ran out\n",
        FAILED => b"tabled_script: reading or writing failed\n",
        _ => return,
    };
    // Where it can't be told, the status says it.
    let _ = errors.write_all(line);
}

/// Writes what is told, if there was memory for it.
fn tell<E: Write>(told: Result<String, AllocError>, errors: &mut E) {
    if let Ok(lines) = told {
        // Where it can't be told, the answer is the same.
        let _ = errors.write_all(lines.as_bytes());
    }
}

/// A line that says where a faulty line stands, what is wrong with it and its cure, and one with its words.
fn fault_lines(
    alloc: Global,
    lines: LineOrigins,
    number: usize,
    fault: Fault,
) -> Result<String, AllocError> {
    let origin = lines.origin(number);
    let at = lines.faulty_word(alloc, origin)?;
    let words = lines.words(alloc, origin)?;
    let mut told = begun(alloc, origin)?;
    let is_beside_then = lines.is_beside_then(origin, fault);
    let complaint = complaint(alloc, fault, &words.words, at, is_beside_then)?;
    let number = fault.number();
    told.push_str(complaint.as_str())?;
    let explained = format!(in alloc; " (fault {number}: --explain {number})\n  in:")?;
    told.push_str(explained.as_str())?;
    words.push_to(&mut told)?;
    told.push('\n')?;
    Ok(told)
}

/// A line that says where a step stands and what is doubtful of it, and its words, but where names say it.
pub(crate) fn doubt_line(
    alloc: Global,
    lines: LineOrigins,
    number: usize,
    doubt: Doubt,
) -> Result<String, AllocError> {
    let origin = lines.origin(number);
    let mut told = begun(alloc, origin)?;
    let text = match &doubt {
        Doubt::NamesNoColumn(text) => {
            told.push_str(text.as_str())?;
            told.push('\n')?;
            return Ok(told);
        }
        Doubt::NamesNothing => "names nothing in the table:",
        Doubt::ChangesNothing => "changes nothing in the table:",
        Doubt::LeavesNoText => "leaves no text, since a width of 0 has room for none:",
    };
    told.push_str(text)?;
    lines.words(alloc, origin)?.push_to(&mut told)?;
    told.push('\n')?;
    Ok(told)
}

/// The beginning of a line that tells where a line stands.
fn begun(alloc: Global, origin: Origin) -> Result<String, AllocError> {
    match origin {
        Origin::Row(number) => format!(in alloc; "tabled_script: row {number}: "),
        Origin::Line(number) => format!(in alloc; "tabled_script: line {number}: "),
        Origin::Words(number) => format!(in alloc; "tabled_script: step {number}: "),
    }
}

/// The name of a file.
fn name_of(sources: &[Source], index: usize) -> &str {
    match sources.get(index) {
        Some(source) => source.name.as_str(),
        None => "",
    }
}

/// A line that says in which line of a file what is wrong, and its likely cure.
fn source_fault_line(
    alloc: Global,
    source: &Source,
    line: usize,
    fault: SourceFault,
) -> Result<String, AllocError> {
    let name = source.name.as_str();
    match fault {
        SourceFault::Csv(tabled_csv::Fault::NotUtf8) => {
            let encoding = likely_encoding(&source.bytes);
            format!(in alloc;
                "tabled_script: {name}: line {line}: a field is not UTF-8: 'iconv -f {encoding} -t UTF-8' makes it of {encoding}\n"
            )
        }
        SourceFault::Csv(fault) => {
            format!(in alloc; "tabled_script: {name}: line {line}: {fault}\n")
        }
        SourceFault::Json { column, fault } => {
            let cure = cure_of_json(fault);
            format!(in alloc;
                "tabled_script: {name}: line {line}, column {column}: {fault}: {cure}\n"
            )
        }
    }
}

/// A line that says which key stands in two columns.
fn equal_keys_line(alloc: Global, keys: &EqualKeys) -> Result<String, AllocError> {
    let (first, second) = (keys.first, keys.second);
    let mut told = format!(in alloc;
        "tabled_script: columns {first} and {second} have one key in the first row, where records need different ones:"
    )?;
    let mut key = ToldWords::new(alloc);
    key.push(alloc, keys.key.as_bytes())?;
    key.push_to(&mut told)?;
    told.push('\n')?;
    Ok(told)
}

/// How bytes that aren't UTF-8 are likely encoded: UTF-16 begins with its mark.
fn likely_encoding(bytes: &[u8]) -> &'static str {
    match bytes {
        [0xFF, 0xFE, ..] | [0xFE, 0xFF, ..] => "UTF-16",
        _ => "LATIN1",
    }
}

/// A line that says that a file begins with another row than one before it, and one with both rows.
fn difference_lines(
    alloc: Global,
    names: (&str, &str),
    head: &[&str],
    first: &[&str],
) -> Result<String, AllocError> {
    let (name, other) = names;
    let mut told = format!(in alloc;
        "tabled_script: {name}: its first row is not that of {other}\n "
    )?;
    ToldWords::of_texts(alloc, first)?.push_to(&mut told)?;
    told.push_str(" in place of")?;
    ToldWords::of_texts(alloc, head)?.push_to(&mut told)?;
    told.push('\n')?;
    Ok(told)
}
