//! The arguments of the program: options, and then steps.

ghost use Rattle.std.specs.Option.{option_map};
ghost use Rattle.std.specs.Prelude.{◌≡◌, ◌++◌, IfOk, OnOk, map};
ghost use Rattle.std.specs.String.{string_bytes};
ghost use Rattle.tabled_script.specs.Aligners.{aligning};
ghost use Rattle.tabled_script.specs.Arguments.{file_named, has_taken, is_input, is_option, is_set, leaves_no_text, reads_input_again, set_to, step_ended, step_of, taken, text_of_word, with_dashed, with_first_value, with_option, with_option_and_value, with_value, with_word, words_of};
ghost use Rattle.tabled_script.specs.Refusals.{IsRefused, Takes};
ghost use Rattle.tabled_script.specs.Requests.{nothing_asked};
ghost use Rattle.tabled_script.specs.Settings.{named_in, options};

use crate::alignment_words::aligner_of;
use crate::refusal::{Misuse, Refusal};
use crate::setting::{
    Drawn, FormName, Kind, Setting, drawn_named, form_named, read_by, separator_of,
};
use std::alloc::{AllocError, Global};
use std::marker::Model;
use std::mem;
use tabled_csv::Separator;
use tabled_language::length_of;

/// What an argument is, by those before it.
#[derive(Clone, Copy, PartialEq, Eq)]
pub(crate) enum Next {
    /// An option, or the first word of the first step.
    Option,
    /// The value of the option before it.
    Value(Setting),
    /// A word of a step, or `then`, which ends it.
    Word,
}

/// The arguments that were taken so far. A contract sees them as what they ask for.
///
/// Of this project.
#[derive(Drop)]
pub struct Arguments {
    pub(crate) next: Next,
    pub(crate) written: Option<FormName>,
    pub(crate) draws: bool,
    pub(crate) drawn: Option<Drawn>,
    pub(crate) alignments: Option<String>,
    pub(crate) width: Option<usize>,
    pub(crate) columns: Option<usize>,
    pub(crate) sources: Vec<(Kind, String)>,
    pub(crate) separator: Option<Separator>,
    pub(crate) no_quotes: bool,
    /// Whether one of the files that are read is CSV.
    pub(crate) reads_csv: bool,
    pub(crate) to_separator: Option<Separator>,
    pub(crate) strings: bool,
    pub(crate) header: Option<usize>,
    pub(crate) caption: Option<String>,
    pub(crate) script: Option<String>,
    pub(crate) output: Option<String>,
    /// Whether standard input is one of the files that are read.
    pub(crate) reads_input: bool,
    /// The steps that ended.
    pub(crate) steps: Vec<Vec<String>>,
    /// The words of the step that has not ended.
    pub(crate) step: Vec<String>,
    pub(crate) checks_steps: bool,
}

impl Model for Arguments {
    ghost use Rattle.std.specs.Option.{option_map};
    ghost use Rattle.std.specs.Prelude.{map};
    ghost use Rattle.std.specs.String.{string_bytes};
    ghost use Rattle.tabled_script.specs.Arguments.{Asked, named_files, words_of};

    ghost Value = { Asked };

    ghost view = { λ a. record {
      next = a.next;
      written = a.written;
      draws = a.draws;
      drawn = a.drawn;
      alignments = option_map string_bytes a.alignments;
      width = a.width;
      columns = a.columns;
      sources = named_files a.sources.items;
      separator = a.separator;
      no_quotes = a.no_quotes;
      reads_csv = a.reads_csv;
      to_separator = a.to_separator;
      strings = a.strings;
      header = a.header;
      caption = option_map string_bytes a.caption;
      script = option_map string_bytes a.script;
      output = option_map string_bytes a.output;
      reads_input = a.reads_input;
      steps = words_of a.steps.items;
      step = map string_bytes a.step.items;
      checks_steps = a.checks_steps;
    } };
}

impl Arguments {
    /// No argument, which asks for the script of standard input, and its table as a script.
    pub fn new(alloc: Global) -> Self
        ensures { result ≡ nothing_asked }
    {
        Arguments {
            next: Next::Option,
            written: None,
            draws: false,
            drawn: None,
            alignments: None,
            width: None,
            columns: None,
            sources: Vec::new(alloc),
            separator: None,
            no_quotes: false,
            reads_csv: false,
            to_separator: None,
            strings: false,
            header: None,
            caption: None,
            script: None,
            output: None,
            reads_input: false,
            steps: Vec::new(alloc),
            step: Vec::new(alloc),
            checks_steps: false,
        }
    }

    /// Takes an argument behind those before it. It is refused where it, or the part of it that the refusal names, asks
    /// for nothing.
    pub fn take(self, alloc: Global, argument: &str) -> Result<Self, Refusal>
        ensures { Takes (taken argument.now self) result }
    {
        match self.next {
            Next::Option if argument.starts_with('-') => self.with_dashed(alloc, argument),
            Next::Option | Next::Word => self.with_word(alloc, argument),
            Next::Value(setting) => self.with_value(alloc, setting, argument),
        }
    }

    /// Takes what begins with a minus: an option, maybe with its value, or `--`, which ends the options.
    fn with_dashed(mut self, alloc: Global, argument: &str) -> Result<Self, Refusal>
        ensures { Takes (with_dashed argument.now self) result }
    {
        if argument == "--" {
            self.next = Next::Word;
            return Ok(self);
        }
        match argument.split_once('=') {
            Some((option, value)) => self.with_option_and_value(alloc, option, value),
            None => self.with_option(alloc, argument),
        }
    }

    /// Takes an option by itself.
    #[tactic(auto, using(crate::proofs::Taken::refused_for))]
    fn with_option(mut self, alloc: Global, option: &str) -> Result<Self, Refusal>
        ensures { Takes (with_option (named_in options option.now) option.now self) result }
    {
        match Setting::named(option) {
            None => Err(misused(alloc, Misuse::NoOption, option)),
            Some(Setting::Picture) => {
                self.draws = true;
                Ok(self)
            }
            Some(Setting::NoQuotes) => {
                self.no_quotes = true;
                Ok(self)
            }
            Some(Setting::Strings) => {
                self.strings = true;
                Ok(self)
            }
            Some(Setting::Checks) => {
                self.checks_steps = true;
                Ok(self)
            }
            Some(setting) => {
                self.next = Next::Value(setting);
                Ok(self)
            }
        }
    }

    /// Takes an option with its value.
    #[tactic(auto, using(crate::proofs::Taken::refused_for))]
    fn with_option_and_value(
        self,
        alloc: Global,
        option: &str,
        value: &str,
    ) -> Result<Self, Refusal>
        ensures { Takes (with_option_and_value (named_in options option.now) option.now value.now self) result }
    {
        match Setting::named(option) {
            None => Err(misused(alloc, Misuse::NoOption, option)),
            Some(setting) if setting.takes_value() => self.with_value(alloc, setting, value),
            Some(setting) => Err(misused(alloc, Misuse::NeedlessValue(setting), value)),
        }
    }

    /// Sets a setting to a value, if it can have that and has none, standard input is not read already, and no option
    /// stands in a file's place.
    #[tactic(auto, using(crate::proofs::Taken::refused_for))]
    fn with_value(self, alloc: Global, setting: Setting, value: &str) -> Result<Self, Refusal>
        ensures { Takes (with_value setting value.now self) result }
    {
        if self.is_set(setting) {
            return Err(misused(alloc, Misuse::Repeated(setting), value));
        }
        if self.reads_input_again(setting, value) {
            return Err(misused(alloc, Misuse::InputRepeated, value));
        }
        if setting.names_file() && is_option(value) {
            return Err(misused(alloc, Misuse::OptionAsFile(setting), value));
        }
        self.with_first_value(alloc, setting, value)
    }

    /// Sets a setting to a value, if it can have that.
    #[tactic(auto, using(crate::proofs::Taken::refused_for, crate::proofs::Taken::wrong_value))]
    fn with_first_value(
        mut self,
        alloc: Global,
        setting: Setting,
        value: &str,
    ) -> Result<Self, Refusal>
        ensures { Takes (with_first_value setting value.now self) result }
    {
        self.set(alloc, setting, value)?;
        if self.has_taken(setting, value) {
            self.next = Next::Option;
            return Ok(self);
        }
        Err(misused(alloc, Misuse::WrongValue(setting), value))
    }

    /// Says whether a value names standard input as a file that is read, and that is read already.
    fn reads_input_again(&self, setting: Setting, value: &str) -> bool
        ensures { result ≡ reads_input_again setting value.now self.now }
    {
        self.reads_input && setting.names_input() && is_input(value)
    }

    /// Sets a setting to what a value means.
    fn set(&mut self, alloc: Global, setting: Setting, value: &str) -> Result<(), AllocError>
        ensures { OnOk result (self.new ≡ set_to setting value.now self.old) }
    {
        match setting {
            Setting::Form => self.written = form_named(value),
            Setting::Style => self.drawn = drawn_named(value),
            Setting::Alignments => self.alignments = aligning(alloc, value)?,
            Setting::Width => self.width = length_of(value),
            Setting::Columns => self.columns = length_of(value),
            Setting::Separator => self.separator = separator_of(value),
            Setting::ToSeparator => self.to_separator = separator_of(value),
            Setting::Header => self.header = length_of(value),
            Setting::Caption => self.caption = Some(String::from_str(alloc, value)?),
            Setting::Output => self.output = file_named(alloc, value)?,
            Setting::Script => {
                self.script = file_named(alloc, value)?;
                self.reads_input = self.reads_input || is_input(value);
            }
            Setting::Rows(kind) => {
                self.sources.push((kind, String::from_str(alloc, value)?))?;
                self.reads_input = self.reads_input || is_input(value);
                self.reads_csv = self.reads_csv || kind.is_csv();
            }
            Setting::Picture | Setting::NoQuotes | Setting::Strings | Setting::Checks => {}
        }
        Ok(())
    }

    /// Says whether a value was one that a setting can have.
    fn has_taken(&self, setting: Setting, value: &str) -> bool
        ensures { result ≡ has_taken setting value.now self.now }
    {
        match setting {
            Setting::Rows(_) => !value.is_empty(),
            _ => self.is_set(setting),
        }
    }

    /// Says whether a setting has its value.
    pub(crate) fn is_set(&self, setting: Setting) -> bool
        ensures { result ≡ is_set setting self.now }
    {
        match setting {
            Setting::Form => self.written.is_some(),
            Setting::Picture => self.draws,
            Setting::Style => self.drawn.is_some(),
            Setting::Alignments => self.alignments.is_some(),
            Setting::Width => self.width.is_some(),
            Setting::Columns => self.columns.is_some(),
            Setting::Rows(_) => false,
            Setting::Separator => self.separator.is_some(),
            Setting::NoQuotes => self.no_quotes,
            Setting::ToSeparator => self.to_separator.is_some(),
            Setting::Strings => self.strings,
            Setting::Header => self.header.is_some(),
            Setting::Caption => self.caption.is_some(),
            Setting::Script => self.script.is_some(),
            Setting::Output => self.output.is_some(),
            Setting::Checks => self.checks_steps,
        }
    }

    /// Adds a word to the steps, or ends one.
    #[tactic(auto, using(crate::proofs::Taken::refused_for))]
    fn with_word(mut self, alloc: Global, word: &str) -> Result<Self, Refusal>
        ensures { Takes (with_word word.now self) result }
    {
        if word == "then" {
            self.end_step(alloc)?;
        } else {
            if self.step.is_empty() && read_by(word).is_some() {
                return Err(misused(alloc, Misuse::FileAsStep, word));
            }
            if leaves_no_text(&self.step, word) {
                return Err(misused(alloc, Misuse::NoColumns, word));
            }
            self.step
                .push(String::from_str(alloc, text_of_word(word))?)?;
        }
        self.next = Next::Word;
        Ok(self)
    }

    /// Ends the step that has not ended, if it has words.
    fn end_step(&mut self, alloc: Global) -> Result<(), AllocError>
        ensures { OnOk result (self.new ≡ step_ended self.old) }
    {
        let step = mem::replace(&mut self.step, Vec::new(alloc));
        push_step(&mut self.steps, step)
    }
}

/// Adds a step, if it has words.
#[tactic(auto, using(crate::proofs::Taken::no_step, crate::proofs::Taken::one_step))]
pub(crate) fn push_step(steps: &mut Vec<Vec<String>>, step: Vec<String>) -> Result<(), AllocError>
    ensures { OnOk result (words_of steps.new.items ≡ words_of steps.old.items ++ step_of (map string_bytes step.items)) }
{
    if !step.is_empty() {
        steps.push(step)?;
    }
    Ok(())
}

/// The text that a word of a step stands for: `\\then` for `then`, which by itself ends a step.
fn text_of_word(word: &str) -> &str
    ensures { result.now ≡ text_of_word word.now }
{
    if word == "\\then" { "then" } else { word }
}

/// Says whether a word behind these is a width that has room for no text.
fn leaves_no_text(step: &[String], word: &str) -> bool
    ensures { result ≡ leaves_no_text (map string_bytes step.now) word.now }
{
    match step {
        [verb] if verb.as_str() == "wrap" => match length_of(word) {
            Some(width) => width == 0,
            None => false,
        },
        _ => false,
    }
}

/// The refusal of an argument, or of a part of it.
fn misused(alloc: Global, misuse: Misuse, argument: &str) -> Refusal
    ensures { IsRefused (misuse, argument.now) result }
{
    match String::from_str(alloc, argument) {
        Ok(text) => Refusal::Misused(misuse, text),
        Err(_) => Refusal::OutOfMemory,
    }
}

/// Says whether a word is an option.
fn is_option(word: &str) -> bool
    ensures { result ≡ is_option word.now }
{
    Setting::named(word).is_some()
}

/// Says whether the file of a name is standard input.
fn is_input(name: &str) -> bool
    ensures { result ≡ is_input name.now }
{
    name == "-"
}

/// A value, if it aligns columns.
fn aligning(alloc: Global, value: &str) -> Result<Option<String>, AllocError>
    ensures { IfOk result (λ text. option_map string_bytes text ≡ aligning value.now) }
{
    match aligner_of(alloc, value)? {
        Some(_) => Ok(Some(String::from_str(alloc, value)?)),
        None => Ok(None),
    }
}

/// The name of a file, if it is one.
fn file_named(alloc: Global, name: &str) -> Result<Option<String>, AllocError>
    ensures { IfOk result (λ file. option_map string_bytes file ≡ file_named name.now) }
{
    if name.is_empty() {
        return Ok(None);
    }
    Ok(Some(String::from_str(alloc, name)?))
}
