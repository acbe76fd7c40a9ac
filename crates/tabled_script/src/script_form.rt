//! A table as a script.

ghost use Rattle.std.specs.Io.KnownBytes.{Appends};
ghost use Rattle.std.specs.List.{AllByRecursion, flat_map};
ghost use Rattle.std.specs.Prelude.{◌≡◌, ◌≤◌, [], ◌∷◌, None, codes, length, map, IfErr, OnOk};
ghost use Rattle.std.specs.Str.{IsUtf8};
ghost use Rattle.tabled_grid.specs.Grid.{IsEven, grid_of, map_items, width_of};
ghost use Rattle.tabled_grid.specs.Spans.{rectangles};
ghost use Rattle.tabled_held.specs.Pens.{Sends};
ghost use Rattle.tabled_language.specs.Output.{line, print, row_line, span_line, table_lines};
ghost use Rattle.tabled_language.specs.Word.{largest_size};
ghost use Rattle.tabled_script.specs.Answer.{IsTableIfFitting};
ghost use Rattle.tabled_script.specs.InMemory.{state_by, texts_by};
ghost use Rattle.tabled_script.specs.Outcome.{OnlyFails};

use crate::outcome::Outcome;
use crate::words::{KnownWord, write_numbers, write_word};
use std::alloc::Global;
use std::io::{self, Write};
use tabled_grid::config::{Rectangle, SpannedConfig};
use tabled_grid::records::{ExactRecords, Records};
use tabled_held::{Held, Pen};

/// Writes the lines of a table: its shape, its rows, and then its merged cells. It flushes the writer. All memory is
/// asked for before the first byte: refused, nothing is written.
pub(crate) fn write_script<T: KnownWord, W: Write>(
    alloc: Global,
    records: &Vec<Vec<T>>,
    cfg: &SpannedConfig,
    writer: &mut W,
) -> Outcome
    requires { IsEven (grid_of (map_items records.now.items)) }
    ensures written { OnOk result (Appends (W.contents writer.old) (W.contents writer.new) (print (state_by T.text_of records.now.items cfg.now))) }
    ensures known { OnOk result (IsTableIfFitting (state_by T.text_of records.now.items cfg.now)) }
    ensures unwritten { IfErr result (OnlyFails (W.contents writer.old) (W.contents writer.new)) }
{
    let held = Held::new(alloc)?;
    send_lines(writer, held, records, cfg)?;
    writer.flush()?;
    Ok(())
}

/// Writes the lines of a table.
fn send_lines<T: KnownWord, W: Write>(
    writer: &mut W,
    held: Held,
    records: &Vec<Vec<T>>,
    cfg: &SpannedConfig,
) -> io::Result<()>
    requires even { IsEven (grid_of (map_items records.now.items)) }
    requires unused { held.bytes ≡ [] }
    ensures written { OnOk result (Appends (W.contents writer.old) (W.contents writer.new) (print (state_by T.text_of records.now.items cfg.now))) }
    ensures known { OnOk result (IsTableIfFitting (state_by T.text_of records.now.items cfg.now)) }
{
    let mut pen = Pen::new(writer, held);
    write_table(&mut pen, records);
    write_spans(&mut pen, cfg);
    let (written, outcome) = pen.finish();
    // No effect: the proof reads here what the writer got.
    let _ = &*written;
    outcome
}

/// Writes a table's shape, and then its rows.
fn write_table<T: KnownWord, W: Write>(pen: &mut Pen<'_, W>, records: &Vec<Vec<T>>)
    requires { IsEven (grid_of (map_items records.now.items)) }
    ensures sends { Sends W.contents pen.old pen.new (table_lines (texts_by T.text_of records.now.items)) }
    ensures texts { pen.new.held.failure ≡ None → AllByRecursion (AllByRecursion IsUtf8) (map (map T.text_of) (map_items records.now.items)) }
    ensures sizes { (length (map_items records.now.items) ≤ largest_size) × (width_of (map_items records.now.items) ≤ largest_size) }
{
    let shape = [records.count_rows(), records.count_columns()];
    write_numbers(pen, "shape", &shape);
    write_rows(pen, records);
}

/// Writes the lines of rows, up to the first at which the writer has failed.
fn write_rows<T: KnownWord, W: Write>(pen: &mut Pen<'_, W>, rows: &[Vec<T>])
    ensures sends { Sends W.contents pen.old pen.new (flat_map (λ row. row_line (map T.text_of row.items)) rows.now) }
    ensures texts { pen.new.held.failure ≡ None → AllByRecursion (λ row. AllByRecursion IsUtf8 (map T.text_of row.items)) rows.now }
{
    for row in rows {
        write_row(pen, row);
        if pen.has_failed() {
            return;
        }
    }
}

/// Writes the line of a row's texts.
fn write_row<T: KnownWord, W: Write>(pen: &mut Pen<'_, W>, texts: &[T])
    ensures sends { Sends W.contents pen.old pen.new (row_line (map T.text_of texts.now)) }
    ensures texts { AllByRecursion IsUtf8 (map T.text_of texts.now) }
{
    pen.send(b"row");
    for text in texts {
        write_word(pen, text);
    }
    pen.send_byte(b'\n');
}

/// Writes the lines of merged cells.
fn write_spans<W: Write>(pen: &mut Pen<'_, W>, cfg: &SpannedConfig)
    ensures { Sends W.contents pen.old pen.new (flat_map span_line (rectangles cfg.now)) }
{
    for rectangle in cfg.rectangles() {
        let Rectangle { first, size } = *rectangle;
        let numbers = [first.row, first.col, size.height, size.width];
        write_numbers(pen, "span", &numbers);
    }
}
