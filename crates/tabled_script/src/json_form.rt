//! A table as JSON, and the rows of JSON.

ghost use Rattle.std.specs.Io.KnownBytes.{Appends};
ghost use Rattle.std.specs.Prelude.{IfErr, MatchResult, OnOk};
ghost use Rattle.tabled_grid.specs.Grid.{IsEven, grid_of, map_items};
ghost use Rattle.tabled_json.specs.Meanings.{MeansTable};
ghost use Rattle.tabled_texts.specs.Texts.{rows_of};
ghost use Rattle.tabled_json.specs.Writes.{AreKeyed};
ghost use Rattle.tabled_json.specs.Writing.{json_of};
ghost use Rattle.tabled_script.specs.InMemory.{texts_by};
ghost use Rattle.tabled_script.specs.Inputs.{NoRowsIn};
ghost use Rattle.tabled_script.specs.Keys.{HasEqualKeys};
ghost use Rattle.tabled_script.specs.Outcome.{Fails};
ghost use Rattle.tabled_script.specs.declared.request.Format.TheVariants.{Json};

use crate::inputs::{RowsError, SourceFault};
use crate::outcome::{Outcome, Unwritten};
use std::alloc::Global;
use std::io::Write;
use tabled_grid::records::CellText;
use tabled_json::{Layout, ReadError, Values, WriteError, read_table_with, write_records};
use tabled_texts::Spare;

/// A key that stands in two columns of the first row, which are counted from 0.
#[derive(Drop)]
pub(crate) struct EqualKeys {
    pub(crate) key: String,
    pub(crate) first: usize,
    pub(crate) second: usize,
}

/// Writes the rows of a table as records whose keys are the first row, and flushes the writer. All memory is asked for
/// before the first byte: refused, nothing is written. Where two keys are equal, nothing is written, too.
pub(crate) fn write_json<T: CellText, W: Write>(
    alloc: Global,
    records: &Vec<Vec<T>>,
    layout: Layout,
    values: Values,
    writer: &mut W,
) -> Outcome
    requires { IsEven (grid_of (map_items records.now.items)) }
    ensures written { OnOk result (
        Appends (W.contents writer.old) (W.contents writer.new) (json_of layout values (texts_by T.text_of records.now.items).cells)) }
    ensures keyed { OnOk result (AreKeyed (texts_by T.text_of records.now.items).cells) }
    ensures unwritten { IfErr result (
        Fails (λ _. ⊥) (λ _. HasEqualKeys (texts_by T.text_of records.now.items).cells) (W.contents writer.old) (W.contents writer.new)) }
{
    match write_records(alloc, writer, layout, values, records) {
        Ok(()) => Ok(writer.flush()?),
        Err(WriteError::EqualKeys { first, second }) => {
            let key = String::from_str(alloc, text_in_first_row(records, first))?;
            Err(Unwritten::EqualKeys(EqualKeys { key, first, second }))
        }
        // Rows of a table are equally long.
        Err(WriteError::LongRow { .. }) => unreachable!(),
        Err(WriteError::OutOfMemory) => Err(Unwritten::OutOfMemory),
        Err(WriteError::Failed(_)) => Err(Unwritten::Failed),
    }
}

/// The text of a column in the first row.
fn text_in_first_row<'r, T: CellText>(records: &'r [Vec<T>], column: usize) -> &'r str {
    let Some(row) = records.first() else {
        return "";
    };
    match row.get(column) {
        Some(text) => text.text(),
        None => "",
    }
}

/// The rows that bytes mean as JSON.
pub(crate) fn json_rows<'a>(
    alloc: Global,
    bytes: &'a [u8],
    spare: &mut Spare<'a>,
) -> Result<Vec<Vec<&'a str>>, RowsError>
    ensures { MatchResult result (λ rows. MeansTable bytes.now (rows_of rows.items)) (NoRowsIn Json bytes.now) }
{
    match read_table_with(alloc, bytes, spare) {
        Ok(rows) => Ok(rows),
        Err(
            ReadError::Faulty {
                line,
                column,
                fault,
            },
        ) => Err(RowsError::Faulty {
            line,
            fault: SourceFault::Json { column, fault },
        }),
        Err(ReadError::OutOfMemory) => Err(RowsError::OutOfMemory),
    }
}
