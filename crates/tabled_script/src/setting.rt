//! The settings of the program, each by an option, and what their values mean.

ghost use Rattle.std.specs.Option.{option_map};
ghost use Rattle.std.specs.Prelude.{◌≡◌};
ghost use Rattle.tabled_script.specs.Settings.{drawn_named, forms, is_csv, name_of, named_in, names_file, names_input, options, read_by, separator_of, takes_value};
ghost use Rattle.tabled_script.specs.declared.setting.Setting.TheVariants as setting;

use tabled_csv::Separator;
use tabled_draw::Style;

/// What an option sets: most to the value that stands behind it.
///
/// Of this project.
#[derive(Clone, Copy, Debug, PartialEq, Eq)]
pub enum Setting {
    /// What a table is written as.
    Form,
    /// That a picture is drawn.
    Picture,
    /// The style of a picture.
    Style,
    /// How the texts of columns are aligned.
    Alignments,
    /// How many columns a picture has at most.
    Width,
    /// How many columns the terminal has: as many as a picture has at most that isn't asked for in a width.
    Columns,
    /// A file of rows.
    Rows(Kind),
    /// What parts the fields of the files that are read.
    Separator,
    /// That quotes are characters like others in CSV that is read.
    NoQuotes,
    /// What parts the fields of CSV that is written.
    ToSeparator,
    /// That all values of JSON that is written are strings.
    Strings,
    /// How many rows are the header of a table of HTML.
    Header,
    /// The caption of a table of HTML.
    Caption,
    /// The file of the script.
    Script,
    /// The file that the table is written to.
    Output,
    /// That what is doubtful of all steps and rows is told.
    Checks,
}

/// What the rows of a file are written as.
///
/// Of this project.
#[derive(Clone, Copy, Debug, PartialEq, Eq)]
pub enum Kind {
    Csv,
    Json,
}

/// What a table is written as.
#[derive(Clone, Copy, PartialEq, Eq)]
pub(crate) enum FormName {
    Script,
    Picture,
    Csv,
    Json,
    JsonLines,
    Html,
    HtmlPage,
}

/// What a picture is drawn in.
#[derive(Clone, Copy)]
pub(crate) enum Drawn {
    Style(Style),
    Markdown,
}

/// The names of the options, those of what is told in place of a table, too.
pub(crate) const OPTIONS: [&'static str; 21] = [
    "--to",
    "--draw",
    "--style",
    "--align",
    "--width",
    "--columns",
    "--csv",
    "--json",
    "--separator",
    "--no-quotes",
    "--to-separator",
    "--strings",
    "--header",
    "--caption",
    "--script",
    "--output",
    "-o",
    "--check",
    "--help",
    "--explain",
    "--version",
];

/// The names of what a table is written as.
pub(crate) const FORMS: [&'static str; 6] = ["script", "csv", "json", "jsonl", "html", "html-page"];

impl Setting {
    /// The setting of an option.
    pub(crate) fn named(option: &str) -> Option<Setting>
        ensures { result ≡ named_in options option.now }
    {
        match option {
            "--to" => Some(Setting::Form),
            "--draw" => Some(Setting::Picture),
            "--style" => Some(Setting::Style),
            "--align" => Some(Setting::Alignments),
            "--width" => Some(Setting::Width),
            "--columns" => Some(Setting::Columns),
            "--csv" => Some(Setting::Rows(Kind::Csv)),
            "--json" => Some(Setting::Rows(Kind::Json)),
            "--separator" => Some(Setting::Separator),
            "--no-quotes" => Some(Setting::NoQuotes),
            "--to-separator" => Some(Setting::ToSeparator),
            "--strings" => Some(Setting::Strings),
            "--header" => Some(Setting::Header),
            "--caption" => Some(Setting::Caption),
            "--script" => Some(Setting::Script),
            "--output" | "-o" => Some(Setting::Output),
            "--check" => Some(Setting::Checks),
            _ => None,
        }
    }

    /// The option that sets it.
    pub(crate) fn name(self) -> &'static str
        ensures { result.now ≡ name_of self }
    {
        match self {
            Setting::Form => "--to",
            Setting::Picture => "--draw",
            Setting::Style => "--style",
            Setting::Alignments => "--align",
            Setting::Width => "--width",
            Setting::Columns => "--columns",
            Setting::Rows(kind) => kind.option(),
            Setting::Separator => "--separator",
            Setting::NoQuotes => "--no-quotes",
            Setting::ToSeparator => "--to-separator",
            Setting::Strings => "--strings",
            Setting::Header => "--header",
            Setting::Caption => "--caption",
            Setting::Script => "--script",
            Setting::Output => "--output",
            Setting::Checks => "--check",
        }
    }

    /// Says whether a value stands behind its option.
    pub(crate) fn takes_value(self) -> bool
        ensures { result ≡ takes_value self }
    {
        !matches!(
            self,
            Setting::Picture | Setting::NoQuotes | Setting::Strings | Setting::Checks
        )
    }

    /// Says whether its value names a file that is read.
    pub(crate) fn names_input(self) -> bool
        ensures { result ≡ names_input self }
    {
        matches!(self, Setting::Rows(_) | Setting::Script)
    }

    /// Says whether its value names a file.
    pub(crate) fn names_file(self) -> bool
        ensures { result ≡ names_file self }
    {
        matches!(self, Setting::Rows(_) | Setting::Script | Setting::Output)
    }
}

impl Kind {
    pub(crate) fn is_csv(self) -> bool
        ensures { result ≡ is_csv self }
    {
        matches!(self, Kind::Csv)
    }

    /// The option that reads a file of it.
    fn option(self) -> &'static str
        ensures { result.now ≡ name_of (setting.Rows self) }
    {
        match self {
            Kind::Csv => "--csv",
            Kind::Json => "--json",
        }
    }
}

/// What a table is written as, by name.
pub(crate) fn form_named(name: &str) -> Option<FormName>
    ensures { result ≡ named_in forms name.now }
{
    match name {
        "script" => Some(FormName::Script),
        "csv" => Some(FormName::Csv),
        "json" => Some(FormName::Json),
        "jsonl" => Some(FormName::JsonLines),
        "html" => Some(FormName::Html),
        "html-page" => Some(FormName::HtmlPage),
        _ => None,
    }
}

/// What a picture is drawn in by a name.
pub(crate) fn drawn_named(name: &str) -> Option<Drawn>
    ensures { result ≡ drawn_named name.now }
{
    // As Markdown a table has to be escaped, and not only drawn.
    if name == "markdown" {
        return Some(Drawn::Markdown);
    }
    let style = Style::named(name)?;
    Some(Drawn::Style(style))
}

/// The separator of a name, if it has one.
pub(crate) fn separator_of(name: &str) -> Option<Separator>
    ensures { result ≡ separator_of name.now }
{
    if name == "tab" {
        return Separator::new(b'\t');
    }
    match name.as_bytes() {
        [byte] => Separator::new(*byte),
        _ => None,
    }
}

/// The options that read a file of rows, as its name ends.
pub(crate) fn read_by(name: &str) -> Option<&'static str>
    ensures { option_map (λ options. options.now) result ≡ read_by name.now }
{
    if name.ends_with(".csv") {
        return Some("--csv");
    }
    if name.ends_with(".tsv") {
        return Some("--separator tab --csv");
    }
    if name.ends_with(".json") {
        return Some("--json");
    }
    if name.ends_with(".jsonl") {
        return Some("--json");
    }
    None
}
