//! Why a request isn't made of arguments, or isn't answered.

ghost use Rattle.std.specs.List.{flat_map};
ghost use Rattle.std.specs.Option.{option_map};
ghost use Rattle.std.specs.Prelude.{◌≡◌, ◌++◌, ◌∷◌, IfOk, OnOk, codes, map};
ghost use Rattle.std.specs.String.{string_bytes};
ghost use Rattle.tabled_script.specs.Refusals.{GetsFirst, cure_of, failure_of, failure_text, file_text, meant_by, meant_in, misuse_text, names_text, option_as_file_text, option_text, other_form, reading_options, refusal_line, refusal_text, status_of, value_text};
ghost use Rattle.tabled_script.specs.Settings.{forms};

use crate::outcome::{FAILED, OUT_OF_MEMORY};
use crate::setting::{FORMS, OPTIONS, Setting, read_by};
use std::alloc::{AllocError, AllocFailed, Global};
use std::io::{ErrorKind, Write};
use tabled_draw::Style;
use tabled_held::write_all;
use tabled_help::nearest;

/// The answer to what can't be asked for.
pub(crate) const REFUSED: u8 = 1;

/// Why a request isn't answered.
///
/// Of this project.
#[derive(Debug, Drop)]
pub enum Refusal {
    /// An argument, or this part of it, asks for nothing.
    Misused(Misuse, String),
    /// The last option lacks its value.
    NoValue(Setting),
    /// Two options contradict each other.
    Contradictory(Setting, Setting),
    /// It is said by this how CSV is read, and there is none.
    NoCsv(Setting),
    /// An argument isn't UTF-8.
    NotText,
    /// No script comes in: standard input is a terminal.
    Terminal,
    /// A file can't be read or written.
    Failed(String, Failure),
    OutOfMemory,
}

/// Why an argument asks for nothing.
///
/// Of this project.
#[derive(Clone, Copy, Debug)]
pub enum Misuse {
    /// There is no such option.
    NoOption,
    /// The setting can't have this value.
    WrongValue(Setting),
    /// The option takes no value.
    NeedlessValue(Setting),
    /// The setting has a value already.
    Repeated(Setting),
    /// Standard input is read already.
    InputRepeated,
    /// An option stands where the setting has the name of a file.
    OptionAsFile(Setting),
    /// A step begins with the name of a file.
    FileAsStep,
    /// Texts can't be wrapped to no columns.
    NoColumns,
}

/// Why a file can't be read or written.
///
/// Of this project.
#[derive(Clone, Copy, Debug)]
pub enum Failure {
    /// There is no such file, or no folder for it.
    Missing,
    /// It may not be read or written.
    Forbidden,
    /// It is a folder.
    Folder,
    /// A disk is full.
    Full,
    Other,
}

impl Failure {
    /// Why a file can't be read or written, by the kind of an error.
    pub fn of(kind: ErrorKind) -> Self
        ensures { result ≡ failure_of kind }
    {
        match kind {
            ErrorKind::NotFound => Failure::Missing,
            ErrorKind::PermissionDenied => Failure::Forbidden,
            ErrorKind::IsADirectory => Failure::Folder,
            ErrorKind::StorageFull => Failure::Full,
            _ => Failure::Other,
        }
    }

    fn text(self) -> &'static str
        ensures { result.now ≡ failure_text self }
    {
        match self {
            Failure::Missing => "No such file or directory",
            Failure::Forbidden => "Permission denied",
            Failure::Folder => "Is a directory",
            Failure::Full => "No space left on device",
            Failure::Other => "reading or writing failed",
        }
    }
}

impl Refusal {
    /// Tells it in a line and answers its status: 1 for arguments that ask for nothing, 3 for want of memory, 4 for a file.
    /// Where the line can't be written, or memory runs out, the status is the same.
    #[tactic(auto, using(crate::proofs::Told::gets_none, crate::proofs::Told::gets_first))]
    pub fn tell<E: Write>(self, alloc: Global, errors: &mut E) -> u8
        ensures status { result ≡ status_of self }
        ensures told { GetsFirst (E.contents errors.old) (E.contents errors.new) (refusal_line self) }
    {
        if let Ok(line) = self.line(alloc) {
            // The status says it, too.
            let _ = write_all(errors, line.as_bytes());
        }
        self.status()
    }

    fn status(&self) -> u8
        ensures { result ≡ status_of self.now }
    {
        match self {
            Refusal::Misused(_, _)
            | Refusal::NoValue(_)
            | Refusal::Contradictory(_, _)
            | Refusal::NoCsv(_)
            | Refusal::NotText
            | Refusal::Terminal => REFUSED,
            Refusal::Failed(_, _) => FAILED,
            Refusal::OutOfMemory => OUT_OF_MEMORY,
        }
    }

    /// Its line, behind the program's name.
    fn line(&self, alloc: Global) -> Result<String, AllocError>
        ensures { IfOk result (λ line. string_bytes line ≡ refusal_line self.now) }
    {
        let text = self.text(alloc)?;
        format!(in alloc; "tabled_script: {text}\n")
    }

    fn text(&self, alloc: Global) -> Result<String, AllocError>
        ensures { IfOk result (λ text. string_bytes text ≡ refusal_text self.now) }
    {
        match self {
            Refusal::Misused(misuse, text) => misuse_text(alloc, *misuse, text.as_str()),
            Refusal::NoValue(setting) => {
                let option = setting.name();
                format!(in alloc; "{option} lacks its value")
            }
            Refusal::Contradictory(first, other) => {
                let (first, other) = (first.name(), other.name());
                format!(in alloc; "{first} and {other} contradict each other")
            }
            Refusal::NoCsv(setting) => {
                let option = setting.name();
                format!(in alloc;
                    "{option} says how the files of --csv are read, and there is none"
                )
            }
            Refusal::NotText => format!(in alloc; "an argument isn't UTF-8"),
            Refusal::Terminal => format!(in alloc;
                "a script comes in by standard input, which is a terminal here: write ./tabled_script [OPTIONS] [STEP [then STEP]..] < SCRIPT; --help tells the rest"
            ),
            Refusal::Failed(name, failure) => {
                let why = failure.text();
                format!(in alloc; "{name}: {why}")
            }
            Refusal::OutOfMemory => format!(in alloc; "memory ran out"),
        }
    }
}

/// What is wrong with an argument, or this part of it.
fn misuse_text(alloc: Global, misuse: Misuse, argument: &str) -> Result<String, AllocError>
    ensures { IfOk result (λ text. string_bytes text ≡ misuse_text misuse argument.now) }
{
    match misuse {
        Misuse::NoOption => option_text(alloc, argument),
        Misuse::WrongValue(setting) => value_text(alloc, setting, argument),
        Misuse::NeedlessValue(setting) => {
            let option = setting.name();
            format!(in alloc; "{option} takes no value")
        }
        Misuse::Repeated(setting) => {
            let option = setting.name();
            format!(in alloc; "{option} stands here twice")
        }
        Misuse::InputRepeated => {
            format!(in alloc; "standard input is read once: - stands here twice")
        }
        Misuse::OptionAsFile(setting) => option_as_file_text(alloc, setting.name(), argument),
        Misuse::FileAsStep => file_text(alloc, argument),
        Misuse::NoColumns => format!(in alloc;
            "wrap {argument} would leave no text: it takes a width of 1 or more"
        ),
    }
}

/// That an option stands where another one has the name of a file, and how a file of that name is named.
fn option_as_file_text(alloc: Global, wanting: &str, option: &str) -> Result<String, AllocError>
    ensures { IfOk result (λ text. string_bytes text ≡ option_as_file_text wanting.now option.now) }
{
    format!(in alloc;
        "{wanting} wants a file, and {option} is an option: ./{option} is a file of that name"
    )
}

/// That a step begins with the name of a file, and how that is read.
fn file_text(alloc: Global, name: &str) -> Result<String, AllocError>
    ensures { IfOk result (λ text. string_bytes text ≡ file_text name.now) }
{
    let mut text = String::from_str(alloc, name)?;
    text.push_str(" is a file: ")?;
    text.push_str(reading_options(name))?;
    text.push_str(" ")?;
    text.push_str(name)?;
    Ok(text)
}

/// The options that read a file, as its name ends.
#[tactic(auto, unfolding(crate::specs::Refusals::reading_options))]
fn reading_options(name: &str) -> &'static str
    ensures { result.now ≡ reading_options name.now }
{
    match read_by(name) {
        Some(options) => options,
        None => "--csv",
    }
}

/// That there is no such option, and which may be meant.
fn option_text(alloc: Global, option: &str) -> Result<String, AllocError>
    ensures { IfOk result (λ text. string_bytes text ≡ option_text option.now) }
{
    let mut text = String::from_str(alloc, "there is no option ")?;
    text.push_str(option)?;
    push_cure(&mut text, option, meant_by(option))?;
    Ok(text)
}

/// Adds which option may be meant by one that isn't known here, or where they are listed.
fn push_cure(text: &mut String, option: &str, meant: Option<&str>) -> Result<(), AllocError>
    ensures { OnOk result (string_bytes text.new ≡ string_bytes text.old ++ cure_of option.now (option_map (λ it. it.now) meant.entry)) }
{
    let Some(meant) = meant else {
        return text.push_str(": --help lists them");
    };
    if meant == option {
        return text.push_str(" here: it stands first");
    }
    text.push_str("; maybe ")?;
    text.push_str(meant)?;
    text.push_str(" is meant")?;
    Ok(())
}

/// The option that may be meant by one that isn't known: none by a single letter, which is like each other one.
#[tactic(auto, unfolding(crate::specs::Refusals::meant_by))]
fn meant_by(option: &str) -> Option<&'static str>
    ensures { option_map (λ it. it.now) result ≡ meant_by option.now }
{
    if option.len() <= 2 {
        return None;
    }
    meant_in(option, &OPTIONS)
}

/// The option that may be meant by a word.
fn meant_in<'o>(word: &str, options: &[&'o str]) -> Option<&'o str>
    ensures { option_map (λ option. option.now) result ≡ meant_in word.now (map (λ option. option.now) options.now) }
{
    nearest(word, options)
}

/// What is wrong with a value.
fn value_text(alloc: Global, setting: Setting, value: &str) -> Result<String, AllocError>
    ensures { IfOk result (λ text. string_bytes text ≡ value_text setting value.now) }
{
    match setting {
        Setting::Style => names_text(alloc, "style", value, &Style::NAMES),
        Setting::Form => form_text(alloc, value),
        Setting::Alignments => {
            format!(in alloc;
                "columns are aligned by letters, as llr, by auto, or by names, as Price=r,Region=c, not by {value}"
            )
        }
        Setting::Width | Setting::Columns => {
            format!(in alloc; "{value} is no number of columns")
        }
        Setting::Header => format!(in alloc; "{value} is no number of rows"),
        Setting::Caption => {
            let option = setting.name();
            format!(in alloc; "{option} takes any value")
        }
        Setting::Separator | Setting::ToSeparator => {
            format!(in alloc;
                "{value} is no separator: one character of ASCII, but no quote, or tab"
            )
        }
        Setting::Rows(_) | Setting::Script | Setting::Output => {
            let option = setting.name();
            format!(in alloc; "no name of a file stands behind {option}")
        }
        Setting::Picture | Setting::NoQuotes | Setting::Strings | Setting::Checks => {
            let option = setting.name();
            format!(in alloc; "{option} takes no value")
        }
    }
}

/// That there is no form of a name, which there are, and how a table is written in one that has a name elsewhere.
fn form_text(alloc: Global, name: &str) -> Result<String, AllocError>
    ensures { IfOk result (λ text. string_bytes text ≡ names_text (codes "form") name.now (flat_map (λ form. 32 ∷ form.0) forms) ++ other_form name.now) }
{
    let mut text = names_text(alloc, "form", name, &FORMS)?;
    if name == "tsv" {
        text.push_str("; tsv is --to csv --to-separator tab")?;
    }
    Ok(text)
}

/// That there is nothing of some kind with a name, and which there are.
fn names_text(alloc: Global, kind: &str, name: &str, names: &[&str]) -> Result<String, AllocError>
    ensures { IfOk result (λ text. string_bytes text ≡ names_text kind.now name.now (flat_map (λ known. 32 ∷ known.now) names.now)) }
{
    let mut text = format!(in alloc; "there is no {kind} {name}:")?;
    push_each(&mut text, names)?;
    Ok(text)
}

/// Adds names, each behind a blank.
fn push_each(line: &mut String, names: &[&str]) -> Result<(), AllocError>
    ensures { OnOk result (string_bytes line.new ≡ string_bytes line.old ++ flat_map (λ name. 32 ∷ name.now) names.now) }
{
    for name in names {
        line.push(' ')?;
        line.push_str(name)?;
    }
    Ok(())
}

impl From<AllocError> for Refusal {
    ghost use Rattle.std.specs.Prelude.{◌≡◌};
    ghost use Rattle.tabled_script.specs.declared.refusal.Refusal.TheVariants.{OutOfMemory};

    ghost from_gives = { λ _ e. e ≡ OutOfMemory };

    fn from(_refused: AllocError) -> Refusal {
        Refusal::OutOfMemory
    }
}

impl<T: Drop> From<AllocFailed<T>> for Refusal {
    ghost use Rattle.std.specs.Prelude.{◌≡◌};
    ghost use Rattle.tabled_script.specs.declared.refusal.Refusal.TheVariants.{OutOfMemory};

    ghost from_gives = { λ _ e. e ≡ OutOfMemory };

    fn from(_refused: AllocFailed<T>) -> Refusal {
        Refusal::OutOfMemory
    }
}
