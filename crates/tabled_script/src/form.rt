//! What the table that a script ends with is written as.

ghost use Rattle.tabled_grid.specs.Grid.{IsEven, grid_of, map_items};
ghost use Rattle.tabled_script.specs.InMemory.{state_by};
ghost use Rattle.tabled_script.specs.Outcome.{ComesOfState};

use crate::alignments::Alignments;
use crate::csv_form::write_csv;
use crate::html_form::{HtmlPage, write_html};
use crate::json_form::write_json;
use crate::outcome::Outcome;
use crate::picture::{write_markdown, write_narrow_picture, write_picture};
use crate::script_form::write_script;
use crate::words::KnownWord;
use std::alloc::Global;
use std::io::Write;
use tabled_csv::Separator;
use tabled_draw::Style;
use tabled_grid::config::SpannedConfig;
use tabled_json::{Layout, Values};

/// What a table is written as.
///
/// Of this project.
#[derive(Drop)]
pub enum Form {
    /// A script that makes it: its shape, its rows and its merged cells.
    Script,
    /// A picture of it in a style, with those of its merged cells that fit, and with aligned texts.
    Picture(Style, Alignments),
    /// A picture of at most n columns: where that is needed, the lines of texts are cut between words, those of the widest
    /// columns first, and where words have no room, in words, but never below the widest piece of a text.
    NarrowPicture(usize, Style, Alignments),
    /// Markdown, in which each row takes one line: texts are escaped, and of merged cells the first has the text.
    Markdown(Alignments),
    /// The texts of its cells as CSV, those of hidden cells, too.
    Csv(Separator),
    /// Records as JSON, whose keys are the first row: the texts of the cells, those of hidden cells, too.
    Json(Layout, Values),
    /// HTML, with its merged cells: a table, or a page of its own.
    Html(HtmlPage),
}

impl Form {
    /// How the texts of columns are aligned, where that is said.
    pub(crate) fn alignments(&self) -> Option<&Alignments> {
        match self {
            Form::Picture(_, alignments)
            | Form::NarrowPicture(_, _, alignments)
            | Form::Markdown(alignments) => Some(alignments),
            Form::Html(page) => Some(&page.alignments),
            Form::Script | Form::Csv(_) | Form::Json(_, _) => None,
        }
    }

    /// Writes a table, and flushes the writer. All memory is asked for before the first byte: refused, nothing
    /// is written. Where no picture is as narrow as is asked for, or two keys are equal, nothing is written, too.
    pub(crate) fn write<T: KnownWord, W: Write>(
        &self,
        alloc: Global,
        records: Vec<Vec<T>>,
        cfg: &SpannedConfig,
        writer: &mut W,
    ) -> Outcome
        requires { IsEven (grid_of (map_items records.items)) }
        ensures { ComesOfState self.now (state_by T.text_of records.items cfg.now) (W.contents writer.old) (W.contents writer.new) result }
    {
        match self {
            Form::Script => write_script(alloc, &records, cfg, writer),
            Form::Picture(style, alignments) => {
                let aligned = alignments.of_columns(alloc, &records)?;
                write_picture(alloc, records, cfg, *style, &aligned, writer)
            }
            Form::NarrowPicture(width, style, alignments) => {
                let aligned = alignments.of_columns(alloc, &records)?;
                write_narrow_picture(alloc, &records, cfg, *style, &aligned, *width, writer)
            }
            Form::Markdown(alignments) => {
                let aligned = alignments.of_columns(alloc, &records)?;
                write_markdown(alloc, records, cfg, &aligned, writer)
            }
            Form::Csv(separator) => write_csv(alloc, &records, *separator, writer),
            Form::Json(layout, values) => write_json(alloc, &records, *layout, *values, writer),
            Form::Html(page) => write_html(alloc, &records, cfg, page, writer),
        }
    }
}
