//! Selectors read from the words of a line.

use crate::fault::Fault;
use crate::words::{Read, Words};
use std::alloc::Global;
use tabled_steps::Select;

/// How many selectors stand in each other at most.
const LARGEST_DEPTH: usize = 64;

impl<'a> Words<'a> {
    ghost use Rattle.tabled_language.specs.Parsing.{Reads};
    ghost use Rattle.tabled_language.specs.Selectors.{edge_selectors, holding_selectors, range_selectors, reads_cells, reads_selector, selectors};
    ghost use Rattle.tabled_language.specs.Words.{behind, kept, reads_two};
    ghost use Rattle.tabled_steps.specs.Selected.{named_by};

    /// A selector that may hold others.
    pub(crate) fn cells(&mut self, alloc: Global) -> Read<Select>
        ensures { Reads named_by reads_cells self.old result self.new }
    {
        self.selector(alloc, LARGEST_DEPTH)
    }

    /// A selector that holds others to a depth.
    #[cycle(nested)]
    fn selector(&mut self, alloc: Global, depth: usize) -> Read<Select>
        ensures { Reads named_by (reads_selector depth) self.old result self.new }
    {
        let word = self.word()?;
        if depth == 0 {
            return Err(Fault::SelectorDepth.into());
        }
        self.selector_behind(alloc, depth - 1, word)
    }

    /// A selector that another one holds, in a place of its own.
    #[cycle(nested)]
    fn inner(&mut self, alloc: Global, depth: usize) -> Read<Box<Select>>
        ensures { Reads (λ place. named_by place.value) (kept (reads_selector depth)) self.old result self.new }
    {
        let select = self.selector(alloc, depth)?;
        Ok(Box::new(alloc, select)?)
    }

    /// Two of them.
    #[cycle(nested)]
    fn two_inner(&mut self, alloc: Global, depth: usize) -> Read<(Box<Select>, Box<Select>)>
        ensures { Reads (λ two. (named_by two.0.value, named_by two.1.value)) (reads_two (kept (reads_selector depth))) self.old result self.new }
    {
        let first = self.inner(alloc, depth)?;
        let second = self.inner(alloc, depth)?;
        Ok((first, second))
    }

    /// What is after the word of a selector, where others are held to a depth.
    #[cycle(nested)]
    fn selector_behind(&mut self, alloc: Global, depth: usize, word: &str) -> Read<Select>
        ensures { Reads named_by (behind (selectors (kept (reads_selector depth))) word.now) self.old result self.new }
    {
        // What most scripts say comes first.
        match word {
            "all" => Ok(Select::All),
            "cell" => {
                let (row, column) = self.two_numbers()?;
                Ok(Select::Cell(row, column))
            }
            "row" => Ok(Select::Row(self.number()?)),
            "column" => Ok(Select::Column(self.number()?)),
            "content" => Ok(Select::Content(self.text(alloc)?)),
            "name" => Ok(Select::Name(self.text(alloc)?)),
            _ => self.holding_selector(alloc, depth, word),
        }
    }

    /// What is after the word of a further selector, where others are held to a depth.
    #[cycle(nested)]
    fn holding_selector(&mut self, alloc: Global, depth: usize, word: &str) -> Read<Select>
        ensures { Reads named_by (behind (holding_selectors (kept (reads_selector depth))) word.now) self.old result self.new }
    {
        match word {
            "and" => {
                let (x, y) = self.two_inner(alloc, depth)?;
                Ok(Select::And(x, y))
            }
            "not" => {
                let (x, y) = self.two_inner(alloc, depth)?;
                Ok(Select::Not(x, y))
            }
            "intersect" => {
                let (x, y) = self.two_inner(alloc, depth)?;
                Ok(Select::Intersect(x, y))
            }
            "inverse" => Ok(Select::Inverse(self.inner(alloc, depth)?)),
            "skip" => Ok(Select::Skip(self.number()?, self.inner(alloc, depth)?)),
            "step" => Ok(Select::StepBy(self.number()?, self.inner(alloc, depth)?)),
            _ => self.edge_selector(word),
        }
    }

    /// What is after the word of a first or last row or column, or of a range.
    fn edge_selector(&mut self, word: &str) -> Read<Select>
        ensures { Reads named_by (behind edge_selectors word.now) self.old result self.new }
    {
        match word {
            "first-row" => Ok(Select::FirstRow),
            "last-row" => Ok(Select::LastRow),
            "first-column" => Ok(Select::FirstColumn),
            "last-column" => Ok(Select::LastColumn),
            "last-row-minus" => Ok(Select::LastRowMinus(self.number()?)),
            "last-row-plus" => Ok(Select::LastRowPlus(self.number()?)),
            "last-column-minus" => Ok(Select::LastColumnMinus(self.number()?)),
            "last-column-plus" => Ok(Select::LastColumnPlus(self.number()?)),
            _ => self.range_selector(word),
        }
    }

    /// What is after the word of a range or of the frame.
    fn range_selector(&mut self, word: &str) -> Read<Select>
        ensures { Reads named_by (behind range_selectors word.now) self.old result self.new }
    {
        match word {
            "frame" => Ok(Select::Frame),
            "rows" => {
                let (start, end) = self.two_numbers()?;
                Ok(Select::Rows(start, end))
            }
            "columns" => {
                let (start, end) = self.two_numbers()?;
                Ok(Select::Columns(start, end))
            }
            "segment" => {
                let (first_row, end_row) = self.two_numbers()?;
                let (first_column, end_column) = self.two_numbers()?;
                Ok(Select::Segment(first_row, end_row, first_column, end_column))
            }
            _ => Err(Fault::UnknownWord.into()),
        }
    }
}
