//! Draws the CSV on standard input, with equal neighbours in its first column merged.
#![tactic(auto)]

use std::alloc::{AllocError, Global};
use std::fmt::Display;
use std::io::{self, Read, Write};
use std::process::ExitCode;
use tabled_csv::{ReadError, Room, Separator, read};
use tabled_draw::{Look, Style, draw_with};
use tabled_select::object::Columns;
use tabled_settings::merge::Merge;
use tabled_table::Table;
use tabled_table::builder::Builder;

fn main(rt: HostRuntime) -> ExitCode {
    let alloc = rt.alloc();
    let mut csv = Vec::new(alloc);
    let drawn = match rt.reader().read_to_end(&mut csv) {
        Ok(_) => match table_of(alloc, &csv) {
            Ok(table) => draw_with(
                alloc,
                &mut io::writer(&rt),
                table.get_records(),
                table.get_config(),
                &Look::new(Style::modern()),
            ),
            Err(error) => return told(&rt, &error),
        },
        Err(error) => Err(error),
    };
    match drawn {
        Ok(()) => ExitCode::SUCCESS,
        Err(error) => told(&rt, &error),
    }
}

/// Tells an error on standard error, and answers the status of a failure.
fn told<E: Display>(rt: &HostRuntime, error: &E) -> ExitCode {
    // Where it can't be told, the status says it.
    let _ = writeln!(rt.stderr(), "{error}");
    ExitCode::FAILURE
}

/// The table that CSV means.
fn table_of(alloc: Global, csv: &[u8]) -> Result<Table, ReadError> {
    let mut room = Room::new(alloc)?;
    let mut rows = Builder::new(alloc);
    for row in read(alloc, Separator::comma(), csv, &mut room)? {
        rows.push_record(alloc, texts(alloc, &row)?)?;
    }
    let mut table = rows.build(alloc)?;
    table.modify(alloc, Columns::first(), Merge::vertical())?;
    Ok(table)
}

/// The texts of a row.
fn texts(alloc: Global, row: &[&str]) -> Result<Vec<String>, AllocError> {
    row.iter()
        .map(|text: &&str| String::from_str(alloc, text))
        .try_collect(alloc)
}
