//! What the arguments ask for, as a whole.

ghost use Rattle.std.specs.List.{find};
ghost use Rattle.std.specs.Option.{option_and_then, option_map, unwrap_or};
ghost use Rattle.std.specs.Prelude.{◌≡◌, ◌++◌, ◌&&◌, ◌==◌, [], IfErr, IfOk, None, length, map, not};
ghost use Rattle.std.specs.String.{string_bytes};
ghost use Rattle.tabled_script.specs.Aligners.{aligner, aligner_of, listed};
ghost use Rattle.tabled_script.specs.Arguments.{is_set, named_files, step_of, words_of};
ghost use Rattle.tabled_script.specs.Requests.{IsForm, IsUnmade, awaited, contradiction, deciding, dialect_of, drawn_of, files_of, format_of, goes_with, lacks_csv, named_source, says_html, says_something, script_of, separator_of, settings_of_forms, to_separator_of, unread_files, values_of, writing_of, width_of, writes_csv, writing_in, written_of};

use crate::alignment_words::aligner_of;
use crate::alignments::Alignments;
use crate::arguments::{Arguments, Next, push_step};
use crate::form::Form;
use crate::html_form::HtmlPage;
use crate::refusal::Refusal;
use crate::request::{Format, Request, Source};
use crate::setting::{Drawn, FormName, Kind, Setting};
use std::alloc::{AllocError, Global};
use tabled_csv::{Dialect, Separator};
use tabled_draw::Style;
use tabled_json::{Layout, Values};

/// What the arguments ask for.
///
/// Of this project.
#[derive(Drop)]
pub struct Invocation {
    /// What is asked of `answer`, without the bytes of its sources.
    pub request: Request,
    /// The file of the script, if there is one: `-` for standard input.
    pub script: Option<String>,
    /// The file that the table is written to, in place of standard output.
    pub output: Option<String>,
}

/// The settings that say what a table is written as, in the order in which they are named.
const SETTINGS_OF_FORMS: [Setting; 9] = [
    Setting::Form,
    Setting::Header,
    Setting::Caption,
    Setting::Style,
    Setting::Picture,
    Setting::Alignments,
    Setting::Width,
    Setting::ToSeparator,
    Setting::Strings,
];

impl Arguments {
    /// What was asked for. The bytes of files are not read yet. It is refused where the last option lacks its value, two
    /// contradict each other, or one says how CSV is read or parted and there is none.
    pub fn into_invocation(self, alloc: Global) -> Result<Invocation, Refusal>
        ensures whole { IfOk result (λ _. awaited self.next ≡ None) }
        ensures read { IfOk result (λ _. lacks_csv self ≡ None) }
        ensures agrees { IfOk result (λ _. contradiction self ≡ None) }
        ensures form { IfOk result (λ invocation. IsForm (writing_of self) invocation.request.form) }
        ensures sources { IfOk result (λ invocation. map named_source invocation.request.sources.items ≡ files_of self) }
        ensures steps { IfOk result (λ invocation. words_of invocation.request.steps.items ≡ self.steps ++ step_of self.step) }
        ensures checks_steps { IfOk result (λ invocation. invocation.request.checks_steps ≡ self.checks_steps) }
        ensures script { IfOk result (λ invocation. option_map string_bytes invocation.script ≡ script_of self.script (length self.sources == 0)) }
        ensures output { IfOk result (λ invocation. option_map string_bytes invocation.output ≡ self.output) }
        ensures refused { IfErr result (IsUnmade self) }
    {
        if let Next::Value(setting) = self.next {
            return Err(Refusal::NoValue(setting));
        }
        if let Some((first, other)) = self.contradiction() {
            return Err(Refusal::Contradictory(first, other));
        }
        if let Some(setting) = self.lacking_csv() {
            return Err(Refusal::NoCsv(setting));
        }
        let written = self.written();
        let look = self.look();
        let width = self.picture_width();
        let dialect = self.dialect();
        let separator = self.written_separator();
        let values = self.values();
        let header = self.header_rows();
        let is_alone = self.is_without_files();
        let Arguments {
            alignments,
            caption,
            sources,
            script,
            output,
            mut steps,
            step,
            checks_steps,
            ..
        } = self;
        push_step(&mut steps, step)?;
        let script = script_of(alloc, script, is_alone)?;
        let alignments = aligned(alloc, alignments)?;
        let writing = FormParts {
            written,
            look,
            width,
            alignments,
            separator,
            values,
            header,
            caption,
        };
        let form = writing.into_form();
        let sources = unread(alloc, sources, dialect)?;
        Ok(Invocation {
            request: Request {
                form,
                sources,
                steps,
                checks_steps,
            },
            script,
            output,
        })
    }

    /// What a picture is drawn in.
    fn look(&self) -> Drawn
        ensures { result ≡ drawn_of self.now }
    {
        match self.drawn {
            Some(drawn) => drawn,
            None => Drawn::Style(Style::ascii()),
        }
    }

    /// How many columns a picture has at most: those of the terminal only where it is written there.
    fn picture_width(&self) -> Option<usize>
        ensures { result ≡ width_of self.now }
    {
        if self.width.is_some() || self.output.is_some() {
            return self.width;
        }
        self.columns
    }

    /// What parts the fields of the files that are read.
    fn read_separator(&self) -> Separator
        ensures { result ≡ separator_of self.now }
    {
        match self.separator {
            Some(separator) => separator,
            None => Separator::comma(),
        }
    }

    /// How the records of the files of CSV stand in them.
    fn dialect(&self) -> Dialect
        ensures { result ≡ dialect_of self.now }
    {
        Dialect::new(self.read_separator()).quoting(!self.no_quotes)
    }

    /// The setting that says how CSV is read or parted, where there is none.
    fn lacking_csv(&self) -> Option<Setting>
        ensures { result ≡ lacks_csv self.now }
    {
        if self.reads_csv {
            None
        } else if self.no_quotes {
            Some(Setting::NoQuotes)
        } else if self.separator.is_some() && !writes_csv(self.written()) {
            Some(Setting::Separator)
        } else {
            None
        }
    }

    /// What parts the fields of CSV that is written.
    fn written_separator(&self) -> Separator
        ensures { result ≡ to_separator_of self.now }
    {
        match self.to_separator {
            Some(separator) => separator,
            None => self.read_separator(),
        }
    }

    /// What texts are as values of JSON: bare where they may be, unless strings are asked for.
    fn values(&self) -> Values
        ensures { result ≡ values_of self.now }
    {
        if self.strings {
            Values::Strings
        } else {
            Values::Bare
        }
    }

    /// How many rows are the header of a table of HTML.
    fn header_rows(&self) -> usize
        ensures { result ≡ unwrap_or self.now.header 0 }
    {
        self.header.unwrap_or(0)
    }

    /// Says whether there is no file of rows.
    fn is_without_files(&self) -> bool
        ensures { result ≡ (length self.now.sources == 0) }
    {
        self.sources.is_empty()
    }

    /// What the table is written as.
    fn written(&self) -> FormName
        ensures { result ≡ written_of self.now }
    {
        match self.deciding() {
            None => FormName::Script,
            Some(Setting::Form) => self.written.unwrap_or(FormName::Script),
            Some(Setting::ToSeparator) => FormName::Csv,
            Some(Setting::Strings) => FormName::Json,
            Some(Setting::Header | Setting::Caption) => FormName::Html,
            Some(_) => FormName::Picture,
        }
    }

    /// The setting that says what the table is written as, if there is one.
    fn deciding(&self) -> Option<Setting>
        ensures { result ≡ deciding self.now }
    {
        SETTINGS_OF_FORMS
            .iter()
            .copied()
            .find(|setting| self.is_set(*setting))
    }

    /// Two settings that contradict each other, if there are any.
    fn contradiction(&self) -> Option<(Setting, Setting)>
        ensures { result ≡ contradiction self.now }
    {
        let first = self.deciding()?;
        let other = self.misfit(self.written())?;
        Some((first, other))
    }

    /// The first setting that doesn't go with what is written so, or says nothing of it.
    fn misfit(&self, written: FormName) -> Option<Setting>
        ensures { result ≡ find (λ s. is_set s self.now && not (goes_with written s && says_something self.now s)) settings_of_forms }
    {
        SETTINGS_OF_FORMS.iter().copied().find(|setting| self.is_set(*setting)
            && !(goes_with(written, *setting) && self.says_something(*setting)))
    }

    /// Says whether a setting says something of what is drawn: a width says nothing of Markdown, whose rows are lines.
    fn says_something(&self, setting: Setting) -> bool
        ensures { result ≡ says_something self.now setting }
    {
        match setting {
            Setting::Width => !matches!(self.drawn, Some(Drawn::Markdown)),
            _ => true,
        }
    }
}

/// Says whether what is written so is CSV.
fn writes_csv(written: FormName) -> bool
    ensures { result ≡ writes_csv written }
{
    matches!(written, FormName::Csv)
}

/// Says whether what is written so may be asked for with a setting.
fn goes_with(written: FormName, setting: Setting) -> bool
    ensures { result ≡ goes_with written setting }
{
    match (written, setting) {
        (_, Setting::Form) => true,
        (FormName::Script, _) => false,
        (FormName::Picture, _) => !matches!(
            setting,
            Setting::ToSeparator | Setting::Strings | Setting::Header | Setting::Caption
        ),
        (FormName::Csv, _) => setting == Setting::ToSeparator,
        (FormName::Json | FormName::JsonLines, _) => setting == Setting::Strings,
        (FormName::Html | FormName::HtmlPage, _) => says_html(setting),
    }
}

/// Says whether a setting says how HTML is written.
fn says_html(setting: Setting) -> bool
    ensures { result ≡ says_html setting }
{
    matches!(
        setting,
        Setting::Header | Setting::Caption | Setting::Alignments
    )
}

/// How a table is to be written: as what, and drawn in what, how wide, how aligned, parted by what, with which values, and
/// with how many rows of header under which caption.
#[derive(Drop)]
struct FormParts {
    written: FormName,
    look: Drawn,
    width: Option<usize>,
    alignments: Alignments,
    separator: Separator,
    values: Values,
    header: usize,
    caption: Option<String>,
}

impl FormParts {
    fn into_form(self) -> Form
        ensures { IsForm (writing_in self) result }
    {
        let FormParts {
            written,
            look,
            width,
            alignments,
            separator,
            values,
            header,
            caption,
        } = self;
        match written {
            FormName::Script => Form::Script,
            FormName::Csv => Form::Csv(separator),
            FormName::Json => Form::Json(Layout::Array, values),
            FormName::JsonLines => Form::Json(Layout::Lines, values),
            FormName::Html => Form::Html(HtmlPage {
                header,
                caption,
                alignments,
                is_whole: false,
            }),
            FormName::HtmlPage => Form::Html(HtmlPage {
                header,
                caption,
                alignments,
                is_whole: true,
            }),
            FormName::Picture => match (look, width) {
                (Drawn::Markdown, _) => Form::Markdown(alignments),
                (Drawn::Style(style), None) => Form::Picture(style, alignments),
                (Drawn::Style(style), Some(width)) => Form::NarrowPicture(width, style, alignments),
            },
        }
    }
}

/// How columns are aligned by a value: by no list where there is none.
fn aligned(alloc: Global, value: Option<String>) -> Result<Alignments, AllocError>
    ensures { IfOk result (λ alignments. aligner alignments ≡ unwrap_or (option_and_then aligner_of (option_map string_bytes value)) (listed [])) }
{
    if let Some(value) = value {
        if let Some(alignments) = aligner_of(alloc, value.as_str())? {
            return Ok(alignments);
        }
    }
    Ok(Alignments::Places(Vec::new(alloc)))
}

/// The file of the script: standard input where none is asked for, and there are no files of rows.
fn script_of(
    alloc: Global,
    script: Option<String>,
    is_alone: bool,
) -> Result<Option<String>, AllocError>
    ensures { IfOk result (λ file. option_map string_bytes file ≡ script_of (option_map string_bytes script) is_alone) }
{
    match script {
        None if is_alone => Ok(Some(String::from_str(alloc, "-")?)),
        _ => Ok(script),
    }
}

/// The files of rows, of which no byte is read.
fn unread(
    alloc: Global,
    files: Vec<(Kind, String)>,
    dialect: Dialect,
) -> Result<Vec<Source>, AllocError>
    ensures { IfOk result (λ sources. map named_source sources.items ≡ unread_files dialect (named_files files.items)) }
{
    let mut sources = Vec::new(alloc);
    for (kind, name) in files {
        sources.push(Source {
            name,
            format: format_of(kind, dialect),
            bytes: Vec::new(alloc),
        })?;
    }
    Ok(sources)
}

/// How the rows of a file are read.
fn format_of(kind: Kind, dialect: Dialect) -> Format
    ensures { result ≡ format_of dialect kind }
{
    match kind {
        Kind::Csv => Format::Csv(dialect),
        Kind::Json => Format::Json,
    }
}
