//! Calls of settings: cells that are found by their texts, written anew, and moved.

use std::alloc::{AllocError, Global};
use tabled_grid::config::{Offset, Position};
use tabled_select::location::Locator;
use tabled_select::object::{Columns, Rows, Segment};
use tabled_settings::concat::Concat;
use tabled_settings::disable::Remove;
use tabled_settings::duplicate::Dup;
use tabled_settings::extract::Extract;
use tabled_settings::format::Format;
use tabled_settings::formatting::Charset;
use tabled_settings::replace::Replace;
use tabled_settings::reverse::Reverse;
use tabled_settings::rotate::Rotate;
use tabled_settings::sort::Sort;
use tabled_settings::split::Split;
use tabled_settings::width::Width;
use tabled_table::{Table, TextRef};

pub fn writes_what_is_found(alloc: Global, table: &mut Table) -> Result<(), AllocError> {
    let dash = String::from_str(alloc, "-")?;
    let total = String::from_str(alloc, "Total")?;
    table.modify(alloc, Locator::content(dash), TextRef(""))?;
    table.modify(alloc, Locator::column(total), TextRef("0"))?;
    table.modify(alloc, Locator::by(|text| text.is_empty()), TextRef("?"))?;
    let longest = Locator::value(Segment::all(), |text, held| text.len() > held.len());
    table.modify(alloc, longest, TextRef("long"))
}

fn marked(alloc: Global, text: &str) -> Result<String, AllocError> {
    format!(in alloc; "{text}!")
}

fn placed(alloc: Global, text: &str, pos: Position) -> Result<String, AllocError> {
    format!(in alloc; "{text} {}:{}", pos.row, pos.col)
}

pub fn writes_anew(alloc: Global, table: &mut Table) -> Result<(), AllocError> {
    table.with(alloc, Format::content(marked))?;
    table.with(alloc, Format::positioned(placed))?;
    table.modify(alloc, Rows::first(), Format::content(marked).multiline())?;
    table.modify(alloc, Columns::first(), Charset::new().clean().tab_size(2))?;
    table.with(alloc, Dup::new(Columns::last(), Rows::first()))
}

/// Cuts the lines of the first column anywhere, and then those of all columns between words.
pub fn wraps(alloc: Global, table: &mut Table, width: usize) -> Result<(), AllocError> {
    table.modify(alloc, Columns::first(), Width::wrap(width))?;
    table.with(alloc, Width::wrap(width).keep_words(true))
}

/// Cuts the lines of the first column, with dots behind what stays, and replaces a part of all texts.
pub fn shortens(alloc: Global, table: &mut Table, width: usize) -> Result<(), AllocError> {
    table.modify(
        alloc,
        Columns::first(),
        Width::truncate(width).suffix("..."),
    )?;
    table.with(alloc, Replace::new("N/A", "-"))
}

pub fn turns_and_cuts(alloc: Global, table: &mut Table) -> Result<(), AllocError> {
    table.with(alloc, Rotate::Left)?;
    table.with(alloc, Reverse::rows(1).limit(Offset::Start(2)))?;
    table.with(alloc, Extract::segment(..9, 1..))?;
    table.with(alloc, Remove::row(Rows::new(1..3)))?;
    table.with(alloc, Remove::column(Columns::last()))
}

pub fn sorts(alloc: Global, table: &mut Table, column: String) -> Result<(), AllocError> {
    table.with(alloc, Sort::rows(1).index(2).numbers().descending())?;
    table.with(alloc, Sort::rows(1).name(column))
}

pub fn splits(alloc: Global, table: &mut Table) -> Result<(), AllocError> {
    table.with(alloc, Split::column(2).concat())?;
    table.with(alloc, Split::row(3).retain())
}

/// Puts a second table below one.
pub fn joins(alloc: Global, table: &mut Table, second: Table) -> Result<(), AllocError> {
    let blank = String::from_str(alloc, "-")?;
    table.with(alloc, Concat::vertical(alloc, second).default_cell(blank))
}
