//! A table as CSV, and the rows of CSV.

ghost use Rattle.std.specs.Io.KnownBytes.{Appends};
ghost use Rattle.std.specs.Prelude.{IfErr, MatchResult, OnOk};
ghost use Rattle.tabled_csv.specs.Grammar.{IsCsv};
ghost use Rattle.tabled_texts.specs.Texts.{rows_of};
ghost use Rattle.tabled_csv.specs.Writing.{csv_of};
ghost use Rattle.tabled_grid.specs.Grid.{IsEven, grid_of, map_items};
ghost use Rattle.tabled_script.specs.InMemory.{texts_by};
ghost use Rattle.tabled_script.specs.Inputs.{NoRowsIn};
ghost use Rattle.tabled_script.specs.Outcome.{OnlyFails};
ghost use Rattle.tabled_script.specs.declared.request.Format.TheVariants.{Csv};

use crate::inputs::{RowsError, SourceFault};
use crate::outcome::{Outcome, Unwritten};
use std::alloc::Global;
use std::io::Write;
use tabled_csv::{Dialect, ReadError, Separator, WriteError, read_with, write_records};
use tabled_grid::records::CellText;
use tabled_texts::Spare;

/// Writes the texts of a table as CSV, and flushes the writer. All memory is asked for before the first byte: refused,
/// nothing is written.
pub(crate) fn write_csv<T: CellText, W: Write>(
    alloc: Global,
    records: &Vec<Vec<T>>,
    separator: Separator,
    writer: &mut W,
) -> Outcome
    requires { IsEven (grid_of (map_items records.now.items)) }
    ensures written { OnOk result (Appends (W.contents writer.old) (W.contents writer.new) (csv_of separator (texts_by T.text_of records.now.items).cells)) }
    ensures unwritten { IfErr result (OnlyFails (W.contents writer.old) (W.contents writer.new)) }
{
    match write_records(alloc, writer, separator, records) {
        Ok(()) => Ok(writer.flush()?),
        Err(WriteError::OutOfMemory) => Err(Unwritten::OutOfMemory),
        Err(WriteError::Failed(_)) => Err(Unwritten::Failed),
    }
}

/// The rows that bytes mean as CSV.
pub(crate) fn csv_rows<'a>(
    alloc: Global,
    dialect: Dialect,
    bytes: &'a [u8],
    spare: &mut Spare<'a>,
) -> Result<Vec<Vec<&'a str>>, RowsError>
    ensures { MatchResult result (λ rows. IsCsv dialect bytes.now (rows_of rows.items)) (NoRowsIn (Csv dialect) bytes.now) }
{
    match read_with(alloc, dialect, bytes, spare) {
        Ok(rows) => Ok(rows),
        Err(ReadError::Faulty { line, fault }) => Err(RowsError::Faulty {
            line,
            fault: SourceFault::Csv(fault),
        }),
        Err(ReadError::OutOfMemory) => Err(RowsError::OutOfMemory),
    }
}
