//! The words of a line, read from the front as they come.

use crate::fault::{Fault, LineError};
use crate::lent::LentText;
use crate::text_parts::Fields;
use crate::word::{integer_of, length_of, number_of};
use std::alloc::Global;
use std::marker::Model;
use std::slice;
use tabled_grid::records::{CellText, Text};

/// What was read, or why it wasn't.
pub(crate) type Read<T> = Result<T, LineError>;

/// Where words come from: a line without escapes, or the texts of any other.
#[derive(Drop)]
enum WordSource<'a> {
    Line(Fields<'a>),
    Texts(slice::Iter<'a, LentText<'a>>),
}

/// Words that are read from the front. A contract sees them as the list of those left.
#[derive(Drop)]
pub(crate) struct Words<'a> {
    source: WordSource<'a>,
}

impl<'a> Model for Words<'a> {
    ghost use Rattle.std.specs.Prelude.{ℕ, List};
    ghost use Rattle.tabled_language.specs.Parsing.{words_in};

    ghost Value = { List (List ℕ) };

    ghost view = { λ a. words_in a.source };
}

impl<'a> Words<'a> {
    ghost use Rattle.std.specs.Prelude.{◌≡◌, ◌≤◌, IfOk, drop, length, map, take};
    ghost use Rattle.std.specs.String.{string_bytes};
    ghost use Rattle.tabled_language.specs.Lent.{bytes_of};
    ghost use Rattle.tabled_language.specs.Parsing.{Reads, TakesWords};
    ghost use Rattle.tabled_language.specs.Words.{reads_integer, reads_length, reads_number, reads_positive_length, reads_positive_number, reads_text, reads_two, reads_word};

    /// The words of a line without escapes.
    pub(crate) fn of_line(words: Fields<'a>) -> Self
        ensures { result ≡ words.entry }
    {
        Words {
            source: WordSource::Line(words),
        }
    }

    /// Texts as words.
    pub(crate) fn of_texts(texts: &'a [LentText<'a>]) -> Self
        ensures { result ≡ map bytes_of texts.now }
    {
        Words {
            source: WordSource::Texts(texts.iter()),
        }
    }

    pub(crate) fn word(&mut self) -> Read<&'a str>
        ensures { Reads (λ word. word.now) reads_word self.old result self.new }
    {
        match &mut self.source {
            WordSource::Line(words) => match words.next() {
                Some(word) => Ok(word),
                None => Err(Fault::WordCount.into()),
            },
            WordSource::Texts(texts) => match texts.next() {
                Some(text) => Ok(text.text()),
                None => Err(Fault::WordCount.into()),
            },
        }
    }

    /// A word, as a text of its own.
    pub(crate) fn text(&mut self, alloc: Global) -> Read<String>
        ensures { Reads string_bytes reads_text self.old result self.new }
    {
        let word = self.word()?;
        Ok(String::from_str(alloc, word)?)
    }

    /// A number that a step may name.
    pub(crate) fn number(&mut self) -> Read<usize>
        ensures { Reads (λ number. number) reads_number self.old result self.new }
    {
        let word = self.word()?;
        match number_of(word) {
            Some(number) => Ok(number),
            None => Err(Fault::NumberRange.into()),
        }
    }

    pub(crate) fn two_numbers(&mut self) -> Read<(usize, usize)>
        ensures { Reads (λ two. two) (reads_two reads_number) self.old result self.new }
    {
        let first = self.number()?;
        let second = self.number()?;
        Ok((first, second))
    }

    /// Such a number, with a minus before it or none.
    pub(crate) fn integer(&mut self) -> Read<isize>
        ensures { Reads (λ number. number) reads_integer self.old result self.new }
    {
        let word = self.word()?;
        match integer_of(word) {
            Some(number) => Ok(number),
            None => Err(Fault::NumberRange.into()),
        }
    }

    /// A number of at least 1 that a step may name.
    pub(crate) fn positive_number(&mut self) -> Read<usize>
        ensures { Reads (λ number. number) reads_positive_number self.old result self.new }
    {
        let number = self.number()?;
        if number == 0 {
            return Err(Fault::NumberRange.into());
        }
        Ok(number)
    }

    /// A number that a shape or a span may name.
    pub(crate) fn length(&mut self) -> Read<usize>
        ensures { Reads (λ number. number) reads_length self.old result self.new }
    {
        let word = self.word()?;
        match length_of(word) {
            Some(number) => Ok(number),
            None => Err(Fault::NumberRange.into()),
        }
    }

    /// A number of at least 1 that a shape or a span may name.
    pub(crate) fn positive_length(&mut self) -> Read<usize>
        ensures read { Reads (λ number. number) reads_positive_length self.old result self.new }
        ensures some { IfOk result (λ number. 1 ≤ number) }
    {
        let number = self.length()?;
        if number == 0 {
            return Err(Fault::NumberRange.into());
        }
        Ok(number)
    }

    /// How many words are left.
    pub(crate) fn left(&self) -> usize
        ensures { result ≡ length self.now }
    {
        match &self.source {
            WordSource::Line(words) => words.left(),
            WordSource::Texts(texts) => texts.len(),
        }
    }

    /// n texts.
    pub(crate) fn row(&mut self, alloc: Global, many: usize) -> Read<Vec<Text<String>>>
        requires { many ≤ length self.old }
        ensures { TakesWords (λ row. map string_bytes row.items) (take many self.old) (drop many self.old) result self.new }
    {
        let mut row = Vec::with_capacity(alloc, many)?;
        for _ in 0..many {
            let text = self.text(alloc)?;
            row.push(Text::new(text))?;
        }
        Ok(row)
    }
}
