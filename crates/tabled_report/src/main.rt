//! Draws a report of sales.
//!
//! A line of the input has a customer, an item, the units that were sold and their price, with tabs between them.
//! The first line names these columns and a fifth one, which the program fills in. However long the names are, the
//! picture has at most 60 columns, unless a number is wider than the word above it.
#![tactic(auto)]

mod sale;

use sale::{Sale, total};
use std::alloc::{AllocError, Global};
use std::io;
use tabled_draw::{Alignment, Look, Style, draw_with};
use tabled_select::object::{Columns, Rows};
use tabled_settings::format::Format;
use tabled_settings::merge::Merge;
use tabled_settings::panel::Panel;
use tabled_settings::width::Width;
use tabled_table::Table;
use tabled_table::builder::Builder;

/// How many columns of a picture a name takes at most.
const NAME_WIDTH: usize = 14;

fn main(rt: HostRuntime) -> io::Result<()> {
    let alloc = rt.alloc();
    let mut records = Builder::new(alloc);
    let mut sales = Vec::new(alloc);
    for line in rt.lines(alloc) {
        let mut record = cells(alloc, line?.as_str())?;
        if let Some(sale) = Sale::of_record(&record) {
            record.push(sale.amount().to_string(alloc)?)?;
            sales.push(sale)?;
        }
        records.push_record(alloc, record)?;
    }
    let last_line = format!(in alloc; "Total\t\t\t\t{}", total(&sales))?;
    records.push_record(alloc, cells(alloc, last_line.as_str())?)?;

    let report = report(alloc, records)?;
    let alignments = [Alignment::left(), Alignment::left(), Alignment::right()];
    draw_with(
        alloc,
        &mut io::writer(&rt),
        report.get_records(),
        report.get_config(),
        &Look::new(Style::modern()).align(&alignments),
    )
}

/// The cells of a line.
fn cells(alloc: Global, line: &str) -> Result<Vec<String>, AllocError> {
    line.split('\t')
        .map(|text| String::from_str(alloc, text))
        .try_collect(alloc)
}

/// A table with the names of its columns in upper case, customers and items in short lines, each customer's name in
/// one cell, and a title, which stays on a line. Equal numbers stay apart.
fn report(alloc: Global, records: Builder) -> Result<Table, AllocError> {
    let mut table = records.build(alloc)?;
    table.modify(alloc, Rows::first(), Format::content(in_upper_case))?;
    table.modify(alloc, Columns::first(), Merge::vertical())?;
    let short_lines = Width::wrap(NAME_WIDTH).keep_words(true);
    table.modify(alloc, Columns::new(..2), short_lines)?;
    let title = String::from_str(alloc, "Sales by customer, with what they come to")?;
    table.with(alloc, Panel::header(title))?;
    Ok(table)
}

fn in_upper_case(alloc: Global, text: &str) -> Result<String, AllocError> {
    text.to_uppercase(alloc)
}
