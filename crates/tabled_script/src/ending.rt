//! The table that a script ends with, written.

ghost use Rattle.std.specs.Prelude.{◌≡◌, IfOk, IsTrue};
ghost use Rattle.tabled_texts.specs.Texts.{rows_of, text_of};
ghost use Rattle.tabled_grid.specs.Grid.{IsEven, grid_of, map_items};
ghost use Rattle.tabled_grid.specs.Spans.{empty};
ghost use Rattle.tabled_language.specs.Parsing.{cell_texts};
ghost use Rattle.tabled_language.specs.Script.{parse_between};
ghost use Rattle.tabled_script.specs.Answer.{ended};
ghost use Rattle.tabled_script.specs.InMemory.{said_by, state_by, state_in};
ghost use Rattle.tabled_script.specs.Outcome.{Comes, ComesOfState};

use crate::checked::run_checked;
use crate::form::Form;
use crate::inputs::lent_words;
use crate::lending::lent_rows;
use crate::names::unknown_alignments_line;
use crate::notes::Notes;
use crate::outcome::{Outcome, Unwritten};
use crate::request::Request;
use crate::telling::LineOrigins;
use std::alloc::{AllocError, Global};
use std::io::Write;
use tabled_grid::config::SpannedConfig;
use tabled_grid::records::CellText;
use tabled_language::{LentText, ParseError, Script, padded, parse_between};
use tabled_steps::run;

/// Reads the script of rows, bytes and the steps of a request, and writes the table that it ends with in the form that
/// is asked for. Doubtful steps are told: those of the request, or all where that is asked for.
pub(crate) fn run_between<W: Write, E: Write>(
    alloc: Global,
    request: &Request,
    rows: Vec<Vec<&str>>,
    script: &[u8],
    writer: &mut W,
    notes: &mut Notes<'_, E>,
) -> Outcome
    ensures { Comes request.now.form (parse_between (rows_of rows.entry.items) script.now (cell_texts request.now.steps.items)) (W.contents writer.old) (W.contents writer.new) result }
{
    if script.is_empty() && request.steps.is_empty() && are_even(&rows) {
        return write_rows(alloc, request, rows, writer, notes);
    }
    let lines = LineOrigins {
        rows: rows.len(),
        script,
        steps: &request.steps,
    };
    let records = lent_rows(alloc, rows)?;
    let words = lent_words(alloc, &request.steps)?;
    match parse_between(alloc, records, script, words) {
        Ok(script) => run_parsed(alloc, request, lines, script, writer, notes),
        Err(ParseError::Faulty { line, fault }) => Err(Unwritten::Faulty(line, fault)),
        Err(ParseError::OutOfMemory) => Err(Unwritten::OutOfMemory),
    }
}

/// Says that rows are equally long.
fn are_even(rows: &[Vec<&str>]) -> bool
    ensures { IsTrue result → IsEven (grid_of (map_items rows.now)) }
{
    let Some(first) = rows.first() else {
        return true;
    };
    let width = first.len();
    for row in rows {
        if row.len() != width {
            return false;
        }
    }
    true
}

/// Writes the table of rows as they are, without merged cells.
fn write_rows<W: Write, E: Write>(
    alloc: Global,
    request: &Request,
    rows: Vec<Vec<&str>>,
    writer: &mut W,
    notes: &mut Notes<'_, E>,
) -> Outcome
    requires { IsEven (grid_of (map_items rows.items)) }
    ensures { ComesOfState request.now.form (state_by text_of rows.entry.items empty) (W.contents writer.old) (W.contents writer.new) result }
{
    tell_unaligned(alloc, &request.form, &rows, notes);
    // A text that is lent takes less room than a cell that steps may write to.
    request
        .form
        .write(alloc, rows, &SpannedConfig::new(alloc), writer)
}

/// Writes the table of a script's records and merged cells after its steps.
fn run_parsed<W: Write, E: Write>(
    alloc: Global,
    request: &Request,
    lines: LineOrigins,
    script: Script,
    writer: &mut W,
    notes: &mut Notes<'_, E>,
) -> Outcome
    ensures { ComesOfState request.now.form (ended (said_by script.entry)) (W.contents writer.old) (W.contents writer.new) result }
{
    let (records, spans) = state_at_end(alloc, request.checks_steps, lines, script, notes)?;
    tell_unaligned(alloc, &request.form, &records, notes);
    request.form.write(alloc, records, &spans, writer)
}

/// Tells the names that columns are aligned by, but that none of them has.
fn tell_unaligned<T: CellText, E: Write>(
    alloc: Global,
    form: &Form,
    records: &[Vec<T>],
    notes: &mut Notes<'_, E>,
) {
    if let Some(alignments) = form.alignments() {
        // Where memory runs out here, the table may yet be written.
        if let Ok(Some(line)) = unknown_alignments_line(alloc, alignments, records) {
            notes.tell(Ok(line));
        }
    }
}

/// The cells and the merged cells of a script after its steps.
fn state_at_end<'a, E: Write>(
    alloc: Global,
    checks_steps: bool,
    lines: LineOrigins,
    script: Script<'a>,
    notes: &mut Notes<'_, E>,
) -> Result<(Vec<Vec<LentText<'a>>>, SpannedConfig), AllocError>
    ensures well { IfOk result (λ end. IsEven (grid_of (map_items end.0.items))) }
    ensures state { IfOk result (λ end. state_in end.0.items end.1 ≡ ended (said_by script.entry)) }
{
    let Script {
        records,
        mut spans,
        steps,
        step_lines,
    } = script;
    let mut records = padded(records)?;
    let looks = checks_steps || !lines.steps.is_empty();
    if looks {
        run_checked(
            alloc,
            &mut records,
            &mut spans,
            steps,
            &step_lines,
            checks_steps,
            lines,
            notes,
        )?;
        return Ok((records, spans));
    }
    match run(alloc, &mut records, &mut spans, steps) {
        Ok(()) => Ok((records, spans)),
        Err((_, error)) => Err(error),
    }
}
