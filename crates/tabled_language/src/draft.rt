//! What the lines of a script say, one after another.

ghost use Rattle.std.specs.Prelude.{◌≡◌, []};
ghost use Rattle.std.specs.Option.{option_map};
ghost use Rattle.tabled_language.specs.Drafts.{shape_misfit};
ghost use Rattle.tabled_language.specs.declared.fault.Fault.TheVariants.{ShapeDiffers};

use crate::fault::{Fault, ParseError};
use crate::lent::LentText;
use crate::padding::longest;
use crate::script::Script;
use crate::spans::SpanLines;
use crate::text_parts::Fields;
use crate::texts::{escaped_texts, lent_texts, make_empty_line, plain};
use crate::words::{Read, Words};
use std::alloc::Global;
use tabled_grid::records::CellText;
use tabled_steps::Step;

/// The shape that a line says.
#[derive(Clone, Copy)]
struct Shape {
    /// The number of the line.
    line: usize,
    rows: usize,
    columns: usize,
}

/// What was read of a script so far.
#[derive(Drop)]
pub(crate) struct Draft<'a> {
    shape: Option<Shape>,
    records: Vec<Vec<LentText<'a>>>,
    spans: SpanLines,
    steps: Vec<Step>,
    /// The numbers of the lines of steps. One more where memory for a step was refused.
    step_lines: Vec<usize>,
}

impl<'a> Draft<'a> {
    ghost use Rattle.std.specs.Prelude.{◌≡◌, false, [], map};
    ghost use Rattle.std.specs.List.{AllByRecursion};
    ghost use Rattle.tabled_language.specs.Drafts.{draft_of, takes};
    ghost use Rattle.tabled_language.specs.Lent.{bytes_of, texts_in_records};
    ghost use Rattle.tabled_language.specs.Line.{has_byte, says_line, words_of};
    ghost use Rattle.tabled_language.specs.Memory.{line_asks, span_asks, step_asks};
    ghost use Rattle.tabled_language.specs.Output.{IsOwnWord};
    ghost use Rattle.tabled_language.specs.Parsing.{BecomesScript, IsPlaced, ReadsGivenWords, ReadsLine, ReadsVerb, ReadsWords, draft_in};
    ghost use Rattle.tabled_language.specs.Verb.{RecordLine, says_shape, says_span, says_step};

    /// The draft of records that are read.
    pub(crate) fn of_records(alloc: Global, records: Vec<Vec<LentText<'a>>>) -> Self
        ensures { draft_in result ≡ draft_of (map RecordLine (texts_in_records records.entry.items)) }
    {
        Draft {
            shape: None,
            records,
            spans: SpanLines::new(alloc),
            steps: Vec::new(alloc),
            step_lines: Vec::new(alloc),
        }
    }

    /// Adds what the line of a number says, or says why it isn't read.
    pub(crate) fn read_line(&mut self, alloc: Global, number: usize, line: &'a [u8]) -> Read<()>
        requires { has_byte 10 line.now ≡ false }
        ensures { ReadsLine (draft_in self.old) number (says_line line.now) (line_asks (takes (draft_in self.old)) line.now) result (draft_in self.new) }
    {
        if line.is_empty() {
            return Ok(());
        }
        if let Some(line) = plain(line) {
            return self.read_plain(alloc, number, line);
        }
        match escaped_texts(alloc, line)? {
            Some(texts) => self.read_texts(alloc, number, texts),
            None => Err(Fault::Escape.into()),
        }
    }

    /// Adds what a line without escapes says, or says why it isn't read.
    pub(crate) fn read_plain(&mut self, alloc: Global, number: usize, line: &'a str) -> Read<()>
        requires no_newline { has_byte 10 line.now ≡ false }
        requires no_escape { has_byte 92 line.now ≡ false }
        ensures { ReadsLine (draft_in self.old) number (says_line line.now) (line_asks (takes (draft_in self.old)) line.now) result (draft_in self.new) }
    {
        if line.is_empty() {
            return Ok(());
        }
        self.read_words(alloc, number, line)
    }

    /// Adds what the words of a line without escapes say, or says why they aren't read.
    fn read_words(&mut self, alloc: Global, number: usize, line: &'a str) -> Read<()>
        requires { AllByRecursion IsOwnWord (words_of line.now) }
        ensures { ReadsWords (draft_in self.old) number (words_of line.now) result (draft_in self.new) }
    {
        let mut words = Fields::new(line);
        match words.next() {
            None => Ok(()),
            Some("row") => {
                self.before_spans()?;
                self.records.push(lent_texts(alloc, words)?)?;
                Ok(())
            }
            Some(verb) => self.read_verb(alloc, number, verb, Words::of_line(words)),
        }
    }

    /// Adds what words say as those of a line, or says why they aren't read.
    pub(crate) fn read_given(
        &mut self,
        alloc: Global,
        number: usize,
        words: Vec<LentText<'a>>,
    ) -> Read<()>
        ensures { ReadsGivenWords (draft_in self.old) number (map bytes_of words.entry.items) result (draft_in self.new) }
    {
        if make_empty_line(&words) {
            return Ok(());
        }
        self.read_texts(alloc, number, words)
    }

    /// Adds what a line's texts say, or says why they aren't read.
    fn read_texts(&mut self, alloc: Global, number: usize, mut texts: Vec<LentText<'a>>) -> Read<()>
        ensures { ReadsWords (draft_in self.old) number (map bytes_of texts.entry.items) result (draft_in self.new) }
    {
        if texts.is_empty() {
            return Ok(());
        }
        let verb = texts.remove(0);
        match verb.text() {
            "row" => {
                self.before_spans()?;
                self.records.push(texts)?;
                Ok(())
            }
            verb => self.read_verb(alloc, number, verb, Words::of_texts(&texts)),
        }
    }

    /// Adds what any verb but `row` says with the words after it, or says why they aren't read.
    fn read_verb(&mut self, alloc: Global, number: usize, verb: &str, words: Words) -> Read<()>
        ensures { ReadsVerb (draft_in self.old) number verb.now words.entry result (draft_in self.new) }
    {
        match verb {
            "shape" => self.read_shape(number, words),
            "span" => self.read_span(number, words),
            verb => self.read_step(alloc, number, verb, words),
        }
    }

    /// Takes the shape that words say, or says why it isn't read.
    fn read_shape(&mut self, number: usize, mut words: Words) -> Read<()>
        ensures { ReadsLine (draft_in self.old) number (says_shape words.entry) false result (draft_in self.new) }
    {
        if self.shape.is_some()
            || !self.records.is_empty()
            || !self.spans.is_empty()
            || !self.steps.is_empty()
        {
            return Err(Fault::OutOfPlace.into());
        }
        let (rows, columns) = words.shape()?;
        if words.left() > 0 {
            return Err(Fault::WordCount.into());
        }
        self.shape = Some(Shape {
            line: number,
            rows,
            columns,
        });
        Ok(())
    }

    /// Says that a record stands after a span or a step, where it does.
    fn before_spans(&self) -> Read<()>
        ensures { IsPlaced (draft_in self.now) (RecordLine []) result }
    {
        if !self.spans.is_empty() || !self.steps.is_empty() {
            return Err(Fault::OutOfPlace.into());
        }
        Ok(())
    }

    /// Adds the anchor that words say, or says why it isn't read.
    fn read_span(&mut self, number: usize, mut words: Words) -> Read<()>
        ensures { ReadsLine (draft_in self.old) number (says_span words.entry) (span_asks (takes (draft_in self.old)) words.entry) result (draft_in self.new) }
    {
        if !self.steps.is_empty() {
            return Err(Fault::OutOfPlace.into());
        }
        let anchor = words.anchor()?;
        if words.left() > 0 {
            return Err(Fault::WordCount.into());
        }
        self.spans.push(number, anchor)?;
        Ok(())
    }

    /// Adds the step that a verb and the words after it say, or says why it isn't read.
    fn read_step(&mut self, alloc: Global, number: usize, verb: &str, mut words: Words) -> Read<()>
        ensures { ReadsLine (draft_in self.old) number (says_step verb.now words.entry) (step_asks verb.now words.entry) result (draft_in self.new) }
    {
        let step = words.step(alloc, verb)?;
        if words.left() > 0 {
            return Err(Fault::WordCount.into());
        }
        self.step_lines.push(number)?;
        self.steps.push(step)?;
        Ok(())
    }

    /// The script, or the line whose shape or rectangle doesn't fit the records. It takes no memory where there are no
    /// anchors.
    pub(crate) fn into_script(self, alloc: Global) -> Result<Script<'a>, ParseError>
        ensures { BecomesScript (draft_in self.entry) result }
    {
        let Draft {
            shape,
            records,
            spans,
            steps,
            step_lines,
        } = self;
        let rows = records.len();
        let columns = longest(&records);
        if let Some(line) = misshaped(shape, rows, columns) {
            return Err(ParseError::Faulty {
                line,
                fault: Fault::ShapeDiffers,
            });
        }
        let spans = spans.merged(alloc, rows, columns)?;
        Ok(Script {
            records,
            spans,
            steps,
            step_lines,
        })
    }
}

/// The number of a shape's line, where the shape isn't that of a table.
fn misshaped(shape: Option<Shape>, rows: usize, columns: usize) -> Option<usize>
    ensures { option_map (λ n. (n, ShapeDiffers)) result ≡ shape_misfit (record { rows = rows; columns = columns; cells = [] }) shape }
{
    match shape {
        Some(said) => {
            if said.rows == rows && said.columns == columns {
                None
            } else {
                Some(said.line)
            }
        }
        None => None,
    }
}
