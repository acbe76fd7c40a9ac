//! Steps read from the verb of a line and the words after it.

use crate::fault::Fault;
use crate::words::{Read, Words};
use std::alloc::Global;
use tabled_grid::records::{Axis, Text, VecRecords};
use tabled_settings::concat::Concat;
use tabled_settings::formatting::Charset;
use tabled_settings::merge::Merge;
use tabled_settings::reverse::Reverse;
use tabled_settings::split::Split;
use tabled_settings::width::Width;
use tabled_spans::panel::{Footer, Header, HorizontalPanel, VerticalPanel};
use tabled_steps::Step;
use tabled_table::Table;

impl<'a> Words<'a> {
    ghost use Rattle.std.specs.Prelude.{◌≤◌, ◌*◌, drop, length};
    ghost use Rattle.std.specs.String.{string_bytes};
    ghost use Rattle.tabled_grid.specs.Grid.{map_grid};
    ghost use Rattle.tabled_grid.specs.declared.records.axis.Axis.TheVariants.{Columns, Rows};
    ghost use Rattle.tabled_language.specs.Parsing.{Reads, TakesWords, cell_texts};
    ghost use Rattle.tabled_language.specs.Verb.{reads_clean, reads_concat, reads_cut_panel, reads_dup, reads_extract, reads_footer, reads_header, reads_merge, reads_panel, reads_replace, reads_reverse, reads_set, reads_span, reads_split, reads_table, reads_tabs, reads_truncate, reads_turn, reads_wrap, removals, rows_of_texts, steps};
    ghost use Rattle.tabled_language.specs.Words.{behind, reads_one_of};
    ghost use Rattle.tabled_steps.specs.States.{after};

    /// What is after the verb of a step.
    // A call of its own would hand the step over in memory.
    #[inline(always)]
    pub(crate) fn step(&mut self, alloc: Global, verb: &str) -> Read<Step>
        ensures { Reads after (behind steps verb.now) self.old result self.new }
    {
        // What many scripts say often comes first. To compare a word takes a call, so its length is compared before.
        match (verb.len(), verb) {
            (3, "set") => self.set(alloc),
            (3, "dup") => self.dup(alloc),
            (5, "clean") => self.clean(alloc),
            (4, "tabs") => self.tabs(alloc),
            (4, "wrap") => self.wrap(alloc),
            (8, "truncate") => self.truncate(alloc),
            (7, "replace") => self.replace(alloc),
            (5, "cspan") => self.span(alloc, Axis::Columns),
            (5, "rspan") => self.span(alloc, Axis::Rows),
            (6, "rotate") => self.turn(),
            (7, "reverse") => self.reverse(),
            (6, "remove") => self.removal(alloc),
            (4, "keep") => self.keep(alloc),
            (4, "sort") => self.sort(alloc),
            (6, "concat") => self.concat(alloc),
            (7, "extract") => self.extract(),
            (5, "split") => self.split(),
            (5, "merge") => self.merge(alloc),
            (6, "header") => self.header(alloc),
            (6, "footer") => self.footer(alloc),
            (6, "hpanel") => self.panel(alloc, Axis::Rows),
            (6, "vpanel") => self.panel(alloc, Axis::Columns),
            (7, "vpanelw") => self.cut_panel(alloc),
            (6, "vmerge") => Ok(Step::MergeVertical(Merge::vertical())),
            (6, "hmerge") => Ok(Step::MergeHorizontal(Merge::horizontal())),
            _ => Err(Fault::UnknownWord.into()),
        }
    }

    #[inline(always)]
    fn set(&mut self, alloc: Global) -> Read<Step>
        ensures { Reads after reads_set self.old result self.new }
    {
        let select = self.cells(alloc)?;
        let text = self.text(alloc)?;
        Ok(Step::Set(select, text))
    }

    #[inline(always)]
    fn dup(&mut self, alloc: Global) -> Read<Step>
        ensures { Reads after reads_dup self.old result self.new }
    {
        let destination = self.cells(alloc)?;
        let source = self.cells(alloc)?;
        Ok(Step::Dup(destination, source))
    }

    fn clean(&mut self, alloc: Global) -> Read<Step>
        ensures { Reads after reads_clean self.old result self.new }
    {
        let select = self.cells(alloc)?;
        Ok(Step::Charset(Charset::new().clean(), select))
    }

    fn tabs(&mut self, alloc: Global) -> Read<Step>
        ensures { Reads after reads_tabs self.old result self.new }
    {
        let size = self.number()?;
        let select = self.cells(alloc)?;
        Ok(Step::Charset(Charset::new().tab_size(size), select))
    }

    fn wrap(&mut self, alloc: Global) -> Read<Step>
        ensures { Reads after reads_wrap self.old result self.new }
    {
        let width = self.number()?;
        let select = self.cells(alloc)?;
        Ok(Step::Wrap(Width::wrap(width).keep_words(true), select))
    }

    fn truncate(&mut self, alloc: Global) -> Read<Step>
        ensures { Reads after reads_truncate self.old result self.new }
    {
        let width = self.number()?;
        let select = self.cells(alloc)?;
        Ok(Step::Truncate(Width::truncate(width).suffix("\u{2026}"), select))
    }

    fn replace(&mut self, alloc: Global) -> Read<Step>
        ensures { Reads after reads_replace self.old result self.new }
    {
        let from = self.text(alloc)?;
        let to = self.text(alloc)?;
        let select = self.cells(alloc)?;
        Ok(Step::Replace(from, to, select))
    }

    fn span(&mut self, alloc: Global, axis: Axis) -> Read<Step>
        ensures { Reads after (reads_span axis) self.old result self.new }
    {
        let size = self.integer()?;
        let select = self.cells(alloc)?;
        Ok(match axis {
            Axis::Rows => Step::RowSpan(size, select),
            Axis::Columns => Step::ColumnSpan(size, select),
        })
    }

    fn merge(&mut self, alloc: Global) -> Read<Step>
        ensures { Reads after reads_merge self.old result self.new }
    {
        let axis = self.side()?;
        let select = self.cells(alloc)?;
        Ok(Step::Merge(axis, select))
    }

    fn header(&mut self, alloc: Global) -> Read<Step>
        ensures { Reads after reads_header self.old result self.new }
    {
        let text = self.text(alloc)?;
        Ok(Step::Header(Header::new(text)))
    }

    fn footer(&mut self, alloc: Global) -> Read<Step>
        ensures { Reads after reads_footer self.old result self.new }
    {
        let text = self.text(alloc)?;
        Ok(Step::Footer(Footer::new(text)))
    }

    fn panel(&mut self, alloc: Global, axis: Axis) -> Read<Step>
        ensures { Reads after (reads_panel axis) self.old result self.new }
    {
        let place = self.number()?;
        let text = self.text(alloc)?;
        Ok(match axis {
            Axis::Rows => Step::HorizontalPanel(HorizontalPanel::new(place, text)),
            Axis::Columns => Step::VerticalPanel(VerticalPanel::new(place, text)),
        })
    }

    fn cut_panel(&mut self, alloc: Global) -> Read<Step>
        ensures { Reads after reads_cut_panel self.old result self.new }
    {
        let column = self.number()?;
        let width = self.number()?;
        let text = self.text(alloc)?;
        let panel = VerticalPanel::new(column, text).width(alloc, width)?;
        Ok(Step::VerticalPanel(panel))
    }

    fn turn(&mut self) -> Read<Step>
        ensures { Reads after reads_turn self.old result self.new }
    {
        let rotate = self.rotate()?;
        Ok(Step::Rotate(rotate))
    }

    #[inline(always)]
    fn reverse(&mut self) -> Read<Step>
        ensures { Reads after reads_reverse self.old result self.new }
    {
        let axis = self.lines()?;
        let start = self.number()?;
        let limit = self.offset()?;
        Ok(Step::Reverse(Reverse { axis, start, limit }))
    }

    fn extract(&mut self) -> Read<Step>
        ensures { Reads after reads_extract self.old result self.new }
    {
        let (first_row, end_row) = self.two_numbers()?;
        let (first_column, end_column) = self.two_numbers()?;
        Ok(Step::Extract(first_row, end_row, first_column, end_column))
    }

    #[inline(always)]
    fn removal(&mut self, alloc: Global) -> Read<Step>
        ensures { Reads after (reads_one_of removals) self.old result self.new }
    {
        let word = self.word()?;
        self.removal_behind(alloc, word)
    }

    fn removal_behind(&mut self, alloc: Global, word: &str) -> Read<Step>
        ensures { Reads after (behind removals word.now) self.old result self.new }
    {
        match (word.len(), word) {
            (4, "rows") => {
                let (start, end) = self.two_numbers()?;
                Ok(Step::RemoveRows(start, end))
            }
            (7, "columns") => {
                let (start, end) = self.two_numbers()?;
                Ok(Step::RemoveColumns(start, end))
            }
            (5, "named") => Ok(Step::RemoveNamed(self.text(alloc)?)),
            _ => Err(Fault::UnknownWord.into()),
        }
    }

    #[inline(always)]
    fn concat(&mut self, alloc: Global) -> Read<Step>
        ensures { Reads after reads_concat self.old result self.new }
    {
        let side = self.side()?;
        let default = self.text(alloc)?;
        let second = self.table(alloc)?;
        let concat = match side {
            Axis::Rows => Concat::vertical(alloc, second),
            Axis::Columns => Concat::horizontal(alloc, second),
        };
        Ok(Step::Concat(concat.default_cell(default)))
    }

    /// A table: how many rows and columns it has, and its texts, row by row.
    fn table(&mut self, alloc: Global) -> Read<Table>
        ensures { Reads (λ table. map_grid string_bytes table.cells) reads_table self.old result self.new }
    {
        let rows = self.positive_number()?;
        let columns = self.positive_number()?;
        match rows.checked_mul(columns) {
            Some(many) if many <= self.left() => {
                let cells = self.rows(alloc, rows, columns)?;
                let records = VecRecords::new(alloc, cells)?;
                Ok(Table::from_records(alloc, records))
            }
            _ => Err(Fault::WordCount.into()),
        }
    }

    /// r rows of c texts.
    fn rows(&mut self, alloc: Global, rows: usize, columns: usize) -> Read<Vec<Vec<Text<String>>>>
        requires { rows * columns ≤ length self.old }
        ensures { TakesWords (λ cells. cell_texts cells.items) (rows_of_texts rows columns self.old).cells (drop (rows * columns) self.old) result self.new }
    {
        let mut cells = Vec::with_capacity(alloc, rows)?;
        for _ in 0..rows {
            let row = self.row(alloc, columns)?;
            cells.push(row)?;
        }
        Ok(cells)
    }

    fn split(&mut self) -> Read<Step>
        ensures { Reads after reads_split self.old result self.new }
    {
        let lines = self.cut_lines()?;
        let index = self.number()?;
        let behavior = self.behavior()?;
        let display = self.display()?;
        Ok(Step::Split(Split {
            lines,
            behavior,
            display,
            index,
        }))
    }
}
