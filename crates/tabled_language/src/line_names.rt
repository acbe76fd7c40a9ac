//! Steps that keep named lines or sort them, read from the words of a line.

use crate::fault::Fault;
use crate::line_words::{column_name, row_name, row_word, sort_column};
use crate::words::{Read, Words};
use std::alloc::Global;
use tabled_settings::line_names::{ColumnNames, RowNames};
use tabled_settings::sort::{Sort, SortColumn, SortKeys};
use tabled_steps::Step;

impl<'a> Words<'a> {
    ghost use Rattle.tabled_language.specs.LineNames.{columns_told, reads_column, reads_named_lines, rows_told};
    ghost use Rattle.tabled_language.specs.Parsing.{Reads};
    ghost use Rattle.tabled_language.specs.Verb.{keeps, reads_descending, reads_keys, reads_row_sort, sorts};
    ghost use Rattle.tabled_language.specs.Words.{behind, reads_one_of};
    ghost use Rattle.tabled_settings.specs.Named.{all_columns_named, all_rows_named};
    ghost use Rattle.tabled_settings.specs.Sorted.{sort_column};
    ghost use Rattle.tabled_steps.specs.States.{after};

    pub(crate) fn keep(&mut self, alloc: Global) -> Read<Step>
        ensures { Reads after (reads_one_of keeps) self.old result self.new }
    {
        let word = self.word()?;
        self.keep_behind(alloc, word)
    }

    fn keep_behind(&mut self, alloc: Global, word: &str) -> Read<Step>
        ensures { Reads after (behind keeps word.now) self.old result self.new }
    {
        match (word.len(), word) {
            (4, "rows") => {
                let names = self.row_names(alloc)?;
                Ok(Step::KeepRows(names))
            }
            (7, "columns") => {
                let names = self.column_names(alloc)?;
                Ok(Step::KeepColumns(names))
            }
            _ => Err(Fault::UnknownWord.into()),
        }
    }

    /// What all words left name, at least one.
    fn row_names(&mut self, alloc: Global) -> Read<RowNames>
        ensures { Reads all_rows_named (reads_named_lines rows_told) self.old result self.new }
    {
        let mut names = Vec::new(alloc);
        while self.left() > 0 {
            let word = self.word()?;
            let Some(rows) = row_word(word) else {
                return Err(Fault::NumberRange.into());
            };
            names.push(row_name(alloc, rows)?)?;
        }
        if names.is_empty() {
            return Err(Fault::WordCount.into());
        }
        Ok(RowNames::new(names))
    }

    /// What all words left name, at least one.
    fn column_names(&mut self, alloc: Global) -> Read<ColumnNames>
        ensures { Reads all_columns_named (reads_named_lines columns_told) self.old result self.new }
    {
        let mut names = Vec::new(alloc);
        while self.left() > 0 {
            let word = self.word()?;
            names.push(column_name(alloc, word)?)?;
        }
        if names.is_empty() {
            return Err(Fault::WordCount.into());
        }
        Ok(ColumnNames::new(names))
    }

    pub(crate) fn sort(&mut self, alloc: Global) -> Read<Step>
        ensures { Reads after (reads_one_of sorts) self.old result self.new }
    {
        let word = self.word()?;
        self.sort_behind(alloc, word)
    }

    fn sort_behind(&mut self, alloc: Global, word: &str) -> Read<Step>
        ensures { Reads after (behind sorts word.now) self.old result self.new }
    {
        match word {
            "rows" => self.row_sort(alloc),
            _ => Err(Fault::UnknownWord.into()),
        }
    }

    fn row_sort(&mut self, alloc: Global) -> Read<Step>
        ensures { Reads after reads_row_sort self.old result self.new }
    {
        let from = self.length()?;
        let column = self.column_to_sort_by(alloc)?;
        let keys = self.keys()?;
        let descending = self.descending()?;
        Ok(Step::Sort(Sort {
            from,
            column,
            keys,
            descending,
        }))
    }

    fn column_to_sort_by(&mut self, alloc: Global) -> Read<SortColumn>
        ensures { Reads sort_column reads_column self.old result self.new }
    {
        let word = self.word()?;
        Ok(sort_column(alloc, word)?)
    }

    fn keys(&mut self) -> Read<SortKeys>
        ensures { Reads (λ keys. keys) reads_keys self.old result self.new }
    {
        match self.word()? {
            "text" => Ok(SortKeys::Texts),
            "number" => Ok(SortKeys::Numbers),
            _ => Err(Fault::UnknownWord.into()),
        }
    }

    fn descending(&mut self) -> Read<bool>
        ensures { Reads (λ descending. descending) reads_descending self.old result self.new }
    {
        if self.left() == 0 {
            return Ok(false);
        }
        match self.word()? {
            "down" => Ok(true),
            _ => Err(Fault::UnknownWord.into()),
        }
    }
}
