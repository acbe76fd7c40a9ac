//! The words after a verb that are one of a few.

use crate::fault::Fault;
use crate::words::{Read, Words};
use tabled_grid::config::Offset;
use tabled_grid::records::Axis;
use tabled_settings::rotate::Rotate;
use tabled_settings::split::{Behavior, Display};

impl<'a> Words<'a> {
    ghost use Rattle.tabled_language.specs.Parsing.{Reads};
    ghost use Rattle.tabled_language.specs.Verb.{offsets, reads_behavior, reads_cut_lines, reads_display, reads_lines, reads_offset, reads_rotate, reads_side};
    ghost use Rattle.tabled_language.specs.Words.{behind};

    pub(crate) fn rotate(&mut self) -> Read<Rotate>
        ensures { Reads (λ rotate. rotate) reads_rotate self.old result self.new }
    {
        match self.word()? {
            "left" => Ok(Rotate::Left),
            "right" => Ok(Rotate::Right),
            "top" => Ok(Rotate::Top),
            "bottom" => Ok(Rotate::Bottom),
            _ => Err(Fault::UnknownWord.into()),
        }
    }

    pub(crate) fn lines(&mut self) -> Read<Axis>
        ensures { Reads (λ axis. axis) reads_lines self.old result self.new }
    {
        match self.word()? {
            "rows" => Ok(Axis::Rows),
            "columns" => Ok(Axis::Columns),
            _ => Err(Fault::UnknownWord.into()),
        }
    }

    pub(crate) fn offset(&mut self) -> Read<Offset>
        ensures { Reads (λ offset. offset) reads_offset self.old result self.new }
    {
        let word = self.word()?;
        self.offset_behind(word)
    }

    fn offset_behind(&mut self, word: &str) -> Read<Offset>
        ensures { Reads (λ offset. offset) (behind offsets word.now) self.old result self.new }
    {
        match word {
            "start" => {
                let n = self.number()?;
                Ok(Offset::Start(n))
            }
            "end" => {
                let n = self.number()?;
                Ok(Offset::End(n))
            }
            _ => Err(Fault::UnknownWord.into()),
        }
    }

    pub(crate) fn side(&mut self) -> Read<Axis>
        ensures { Reads (λ axis. axis) reads_side self.old result self.new }
    {
        match self.word()? {
            "vertical" => Ok(Axis::Rows),
            "horizontal" => Ok(Axis::Columns),
            _ => Err(Fault::UnknownWord.into()),
        }
    }

    pub(crate) fn cut_lines(&mut self) -> Read<Axis>
        ensures { Reads (λ axis. axis) reads_cut_lines self.old result self.new }
    {
        match self.word()? {
            "column" => Ok(Axis::Rows),
            "row" => Ok(Axis::Columns),
            _ => Err(Fault::UnknownWord.into()),
        }
    }

    pub(crate) fn behavior(&mut self) -> Read<Behavior>
        ensures { Reads (λ behavior. behavior) reads_behavior self.old result self.new }
    {
        match self.word()? {
            "zip" => Ok(Behavior::Zip),
            "concat" => Ok(Behavior::Concat),
            _ => Err(Fault::UnknownWord.into()),
        }
    }

    pub(crate) fn display(&mut self) -> Read<Display>
        ensures { Reads (λ display. display) reads_display self.old result self.new }
    {
        match self.word()? {
            "clean" => Ok(Display::Clean),
            "retain" => Ok(Display::Retain),
            _ => Err(Fault::UnknownWord.into()),
        }
    }
}
