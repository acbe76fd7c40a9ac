//! Tables read from CSV.

use std::alloc::{AllocError, Global};
use tabled_csv::{Dialect, ReadError, Room, Separator, Spare, read, read_with};
use tabled_draw::picture;
use tabled_table::builder::Builder;

/// The picture of the table that CSV means, its short records padded.
pub fn drawn(alloc: Global, csv: &[u8]) -> Result<String, ReadError> {
    let mut room = Room::new(alloc)?;
    let mut rows = Builder::new(alloc);
    for row in read(alloc, Separator::comma(), csv, &mut room)? {
        rows.push_record(alloc, texts(alloc, &row)?)?;
    }
    let table = rows.build(alloc)?;
    Ok(picture(alloc, table.get_records(), table.get_config())?)
}

/// Rows of texts that are lent.
pub type LentRows<'a> = Vec<Vec<&'a str>>;

/// The rows of a file of CSV, and of one whose quotes are bytes like others. They share a room.
pub fn rows_of_both<'a>(
    alloc: Global,
    first: &'a [u8],
    other: &'a [u8],
    room: &'a mut Room,
) -> Result<(LentRows<'a>, LentRows<'a>), ReadError> {
    let mut spare = Spare::new(room);
    let csv = Dialect::new(Separator::comma());
    let rows = read_with(alloc, csv, first, &mut spare)?;
    let others = read_with(alloc, csv.quoting(false), other, &mut spare)?;
    Ok((rows, others))
}

/// The texts of a row.
fn texts(alloc: Global, row: &[&str]) -> Result<Vec<String>, AllocError> {
    row.iter()
        .map(|text: &&str| String::from_str(alloc, text))
        .try_collect(alloc)
}
