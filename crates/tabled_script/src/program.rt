//! The programs: a script read, and the table that it makes written as a script, drawn, or as a request asks.

ghost use Rattle.std.specs.Prelude.{◌≡◌, ◌⊎◌, ℕ, Ok, Err, IfOk, IfSome, OnOk, List};
ghost use Rattle.std.specs.Io.KnownBytes.{Appends};
ghost use Rattle.std.specs.String.{string_bytes};
ghost use Rattle.tabled_script.specs.Again.{FitsAtEnd, GivesAgain};
ghost use Rattle.tabled_script.specs.Answer.{ShowsState, ended, fault_line, memory_line, output_of, picture_of};
ghost use Rattle.tabled_script.specs.Inputs.{HasTable};
ghost use Rattle.tabled_script.specs.Outcome.{Ends, EndsBy, FindsNoTable, ShowsNoTable, ShowsTable};
ghost use Rattle.tabled_script.specs.Status.{IsAnswer, IsDone, IsStatus, done, faulty, out_of_memory};
ghost use Rattle.tabled_language.specs.Parsing.{cell_texts};
ghost use Rattle.tabled_language.specs.Script.{Script as Meaning, parse, parse_between};
ghost use Rattle.tabled_language.specs.declared.fault.Fault.{Fault};

use crate::alignments::Alignments;
use crate::ending::run_between;
use crate::form::Form;
use crate::inputs::rows_of_sources;
use crate::notes::Notes;
use crate::outcome::{DONE, FAILED, FAULTY, OUT_OF_MEMORY, Outcome, Unwritten, status_with_notes};
use crate::reading::{Unread, read_whole};
use crate::request::Request;
use crate::stray_options::tell_stray_options;
use crate::telling::{LineOrigins, tell_outcome, tell_ragged, tell_sources_error, tell_status};
use std::alloc::{AllocError, Global};
use std::io::{self, Read, Write};
use tabled_draw::Style;
use tabled_language::Fault;
use tabled_texts::Room;

/// The line that is written where memory ran out.
const MEMORY_LINE: &[u8] = b"out of memory\n";

/// Runs the script that a reader has, and answers a status.
///
/// - 0: the output was written: the table of its records and merged cells after its steps. Where the merged
///   cells fit, that is a script with the same output.
/// - 2: `line N: fault K` was written, for the first faulty line.
/// - 3: `out of memory` was written: memory ran out.
/// - 4: reading or writing failed, and nothing is said of what was written.
///
/// Nothing of the output is written before all lines are read. With 0, 2 and 3 the writer was
/// flushed, too.
pub fn run_script<R: Read, W: Write>(alloc: Global, reader: &mut R, writer: &mut W) -> u8
    ensures known { IsStatus result }
    ensures done { result ≡ done → IfSome (R.remaining reader.old) (λ input.
        (script : Meaning) × (parse input ≡ Ok script) × Appends (W.contents writer.old) (W.contents writer.new) (output_of script)) }
    ensures again { result ≡ done → IfSome (R.remaining reader.old) (λ input.
        (script : Meaning) → parse input ≡ Ok script → FitsAtEnd script → GivesAgain script) }
    ensures faulty { result ≡ faulty → IfSome (R.remaining reader.old) (λ input.
        (fault : ℕ × Fault) × (parse input ≡ Err fault) × Appends (W.contents writer.old) (W.contents writer.new) (fault_line fault)) }
    ensures memory { result ≡ out_of_memory → Appends (W.contents writer.old) (W.contents writer.new) memory_line }
{
    run_to_form(alloc, Form::Script, reader, writer)
}

/// Draws the table that a script makes: reads as `run_script` does, writes the table's picture in the
/// output's place, and answers the same statuses.
///
/// - 0: the picture was written, of the table and its merged cells that fit after the script's steps.
/// - 2, 3, 4: as those of `run_script`. Nothing of the picture is written with 2 or 3.
pub fn draw_script<R: Read, W: Write>(alloc: Global, reader: &mut R, writer: &mut W) -> u8
    ensures known { IsStatus result }
    ensures done { result ≡ done → IfSome (R.remaining reader.old) (λ input.
        (script : Meaning) × (parse input ≡ Ok script) × Appends (W.contents writer.old) (W.contents writer.new) (picture_of script)) }
    ensures faulty { result ≡ faulty → IfSome (R.remaining reader.old) (λ input.
        (fault : ℕ × Fault) × (parse input ≡ Err fault) × Appends (W.contents writer.old) (W.contents writer.new) (fault_line fault)) }
    ensures memory { result ≡ out_of_memory → Appends (W.contents writer.old) (W.contents writer.new) memory_line }
{
    let form = Form::Picture(Style::ascii(), Alignments::Places(Vec::new(alloc)));
    run_to_form(alloc, form, reader, writer)
}

/// Answers a request: reads the rows of its files, one behind another, as records before those of a script, does the
/// script's steps and then those of the request, writes the table in the form that is asked for, and answers a status.
/// Where files begin with the same row, it stands once.
///
/// - 0: the table was written.
/// - 2: a file has no rows, or begins with another row than those before it; or a line of the script or a step of the
///   request is faulty; or no picture is as narrow as is asked for, or two columns have
///   the same key. Nothing was written.
/// - 3: memory ran out, and nothing was written.
/// - 4: writing failed, and nothing is said of what was written.
/// - 5: the table was written, and what was checked is doubtful, as was told.
///
/// Nothing is written but the table. What else there is to tell, but why writing failed, goes to `errors`, in a line or two
/// each; where that can't be written, or memory runs out, the answer is the same:
///
/// - a fault, as that of `line N` of the script, of `step N` of the request, or of a line of a file, with its likely cure
///   and its words; first rows that differ; how many columns a picture takes that can't be as narrow;
/// - names of columns, by which a step of the request goes, that no text of the first row before it is, and those texts;
/// - that another step of the request names no cell of the table before it, or leaves no text, since it has a width of 0, or
///   that a word of a step is an option's name;
/// - where steps are checked, the same of a step of the script, that a step changes nothing, and that rows of files have not
///   all as many texts as the first.
///
/// Of this project.
pub fn answer<W: Write, E: Write>(
    alloc: Global,
    request: &Request,
    script: &[u8],
    writer: &mut W,
    errors: &mut E,
) -> u8
    ensures known { IsAnswer result }
    ensures done { IsDone result →
        (rows : List (List (List ℕ))) × HasTable request.now.sources.items rows
        × (meaning : Meaning) × (parse_between rows script.now (cell_texts request.now.steps.items) ≡ Ok meaning)
        × ShowsState request.now.form (ended meaning) (W.contents writer.old) (W.contents writer.new) }
    ensures faulty { result ≡ faulty → (W.contents writer.new ≡ W.contents writer.old) × FindsNoTable request.now script.now }
    ensures memory { result ≡ out_of_memory → W.contents writer.new ≡ W.contents writer.old }
{
    let mut room = match Room::new(alloc) {
        Ok(room) => room,
        Err(_) => {
            tell_status(OUT_OF_MEMORY, errors);
            return OUT_OF_MEMORY;
        }
    };
    let sources = request.sources.as_slice();
    match rows_of_sources(alloc, sources, &mut room) {
        Ok(rows) => {
            let lines = LineOrigins {
                rows: rows.len(),
                script,
                steps: &request.steps,
            };
            let mut notes = Notes::new(errors);
            tell_ragged(alloc, request, &rows, &mut notes);
            let outcome = run_between(alloc, request, rows, script, writer, &mut notes);
            if outcome.is_ok() {
                tell_stray_options(alloc, &request.steps, &mut notes);
            }
            tell_outcome(alloc, lines, &outcome, notes.errors);
            status_with_notes(&outcome, request.checks_steps && notes.has_notes)
        }
        Err(error) => {
            tell_sources_error(alloc, sources, &error, errors);
            error.status()
        }
    }
}

/// Reads the script that a reader has, writes the table that it ends with in a form, or what ends it, and answers a
/// status.
fn run_to_form<R: Read, W: Write>(alloc: Global, form: Form, reader: &mut R, writer: &mut W) -> u8
    ensures known { IsStatus result }
    ensures done { result ≡ done → IfSome (R.remaining reader.old) (λ input. ShowsTable form input (W.contents writer.old) (W.contents writer.new)) }
    ensures faulty { result ≡ faulty → IfSome (R.remaining reader.old) (λ input. ShowsNoTable form input (W.contents writer.old) (W.contents writer.new)) }
    ensures memory { result ≡ out_of_memory → Appends (W.contents writer.old) (W.contents writer.new) memory_line }
{
    match read_whole(alloc, reader) {
        Ok(script) => {
            let request = Request::new(alloc, form);
            let rows = Vec::new(alloc);
            let mut sink = io::sink();
            let mut notes = Notes::new(&mut sink);
            let outcome = run_between(alloc, &request, rows, &script, writer, &mut notes);
            write_end(alloc, outcome, writer)
        }
        Err(Unread::Failed(_)) => FAILED,
        Err(Unread::OutOfMemory) => write_end(alloc, Err(Unwritten::OutOfMemory), writer),
    }
}

/// Writes the line of a fault, or that memory ran out, where that is what comes of a script, and answers its status.
pub(crate) fn write_end<W: Write>(alloc: Global, outcome: Outcome, writer: &mut W) -> u8
    ensures { Ends outcome result (W.contents writer.old) (W.contents writer.new) }
{
    match outcome {
        Ok(()) => DONE,
        Err(Unwritten::Faulty(line, fault)) => match fault_line(alloc, (line, fault)) {
            Ok(text) => write_status(writer, text.as_bytes(), FAULTY),
            Err(_) => write_status(writer, MEMORY_LINE, OUT_OF_MEMORY),
        },
        Err(Unwritten::TooNarrow(_) | Unwritten::EqualKeys(_)) => FAULTY,
        Err(Unwritten::OutOfMemory) => write_status(writer, MEMORY_LINE, OUT_OF_MEMORY),
        Err(Unwritten::Failed) => FAILED,
    }
}

/// Writes bytes, flushes the writer, and answers a status, or that writing failed.
fn write_status<W: Write>(writer: &mut W, bytes: &[u8], status: u8) -> u8
    ensures { EndsBy bytes.now status result (W.contents writer.old) (W.contents writer.new) }
{
    match write_whole(writer, bytes) {
        Ok(()) => status,
        Err(_) => FAILED,
    }
}

/// The line that names a faulty line and its fault.
fn fault_line(alloc: Global, fault: (usize, Fault)) -> Result<String, AllocError>
    ensures { IfOk result (λ text. string_bytes text ≡ fault_line fault) }
{
    let line = fault.0;
    let number = fault.1.number();
    format!(in alloc; "line {line}: fault {number}\n")
}

/// Writes bytes, and flushes the writer.
pub(crate) fn write_whole<W: Write>(writer: &mut W, bytes: &[u8]) -> io::Result<()>
    ensures { OnOk result (Appends (W.contents writer.old) (W.contents writer.new) bytes.now) }
{
    writer.write_all(bytes)?;
    writer.flush()
}
