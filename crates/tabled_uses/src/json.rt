//! Tables read from JSON, and written as JSON.

ghost use Rattle.std.specs.Io.KnownBytes.{Appends};
ghost use Rattle.std.specs.Prelude.{OnOk};
ghost use Rattle.tabled_texts.specs.Texts.{cells_by, rows_by};
ghost use Rattle.tabled_json.specs.Writing.{json_of};
ghost use Rattle.tabled_json.specs.declared.form.Layout.TheVariants.{Array, Lines};
ghost use Rattle.tabled_json.specs.declared.form.Values.TheVariants.{Bare, Strings};

use std::alloc::{AllocError, Global};
use std::io::{self, Write};
use tabled_draw::picture;
use tabled_grid::records::{CellText, ExactRecords, PeekableRecords, Records};
use tabled_json::{
    Layout, Member, ReadError, Room, Spare, Values, WriteError, read, read_table, read_table_with,
    table, write, write_records,
};
use tabled_table::builder::Builder;

/// The picture of the table that JSON means, its short rows padded.
pub fn drawn(alloc: Global, json: &[u8]) -> Result<String, ReadError> {
    let mut room = Room::new(alloc)?;
    let mut rows = Builder::new(alloc);
    for row in read_table(alloc, json, &mut room)? {
        rows.push_record(alloc, texts(alloc, &row)?)?;
    }
    let table = rows.build(alloc)?;
    Ok(picture(alloc, table.get_records(), table.get_config())?)
}

/// The texts of a row.
fn texts(alloc: Global, row: &[&str]) -> Result<Vec<String>, AllocError> {
    row.iter()
        .map(|text: &&str| String::from_str(alloc, text))
        .try_collect(alloc)
}

/// Rows of texts that are lent.
type Rows<'a> = Vec<Vec<&'a str>>;

/// The tables of two texts, which are read into one room.
pub fn read_both<'a>(
    alloc: Global,
    first: &'a [u8],
    second: &'a [u8],
    room: &'a mut Room,
) -> Result<(Rows<'a>, Rows<'a>), ReadError> {
    let mut spare = Spare::new(room);
    let rows = read_table_with(alloc, first, &mut spare)?;
    let others = read_table_with(alloc, second, &mut spare)?;
    Ok((rows, others))
}

/// How many keys records have: that of the members, and that of the columns of their table.
pub fn count_keys(alloc: Global, json: &[u8]) -> Result<(usize, usize), ReadError> {
    let mut room = Room::new(alloc)?;
    let objects = read(alloc, json, &mut room)?;
    let rows = table(alloc, &objects)?;
    let columns = rows.first().map(|keys| keys.len()).unwrap_or(0);
    Ok((
        objects
            .iter()
            .map(count_members)
            .fold(0, usize::saturating_add),
        columns,
    ))
}

/// How many members an object has.
fn count_members(object: &Vec<Member>) -> usize {
    object.len()
}

/// Writes rows as records, one a line, with numbers as numbers.
pub fn write_lines<W: Write, T: CellText>(
    alloc: Global,
    writer: &mut W,
    rows: &[Vec<T>],
) -> io::Result<()>
    ensures { OnOk result (Appends (W.contents writer.old) (W.contents writer.new) (json_of Lines Bare (rows_by T.text_of rows.now))) }
{
    write(alloc, writer, Layout::Lines, Values::Bare, rows)?;
    writer.flush()
}

/// Writes a store as an array of records, each value a string.
pub fn write_store<W, R>(alloc: Global, writer: &mut W, records: &R) -> Result<(), WriteError>
where
    W: Write,
    R: Records + ExactRecords + PeekableRecords,
    R::Cell: CellText,
    requires { R.is_well_formed records.now }
    ensures { OnOk result (Appends (W.contents writer.old) (W.contents writer.new) (json_of Array Strings (cells_by R.Cell.text_of (R.grid records.now)))) }
{
    write_records(alloc, writer, Layout::Array, Values::Strings, records)
}
