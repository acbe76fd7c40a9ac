//! The picture of a table, written or as a text.

ghost use Rattle.std.specs.Prelude.{◌≡◌, IfOk};
ghost use Rattle.std.specs.String.{string_bytes};
ghost use Rattle.tabled_draw.specs.Picture.{IsDrawn, LeavesSome, drawn, drawn_in};
ghost use Rattle.tabled_grid.specs.Grid.{map_grid};

use crate::drawing::Drawing;
use crate::look::Look;
use crate::style::Style;
use std::alloc::{AllocError, Global};
use std::io::{self, Write};
use tabled_grid::config::SpannedConfig;
use tabled_grid::records::{CellText, ExactRecords, PeekableRecords, Records};

/// Writes the picture of a table (`r x c`) with its merged cells, of which those that don't lie inside or that share a
/// cell with another one are left out. Each line ends with a newline. A table without cells has no line.
///
/// All memory is asked for before the first byte is written: refused, this is an error of the kind `OutOfMemory`, and
/// nothing is written. Any other error is the writer's, which got the first bytes of the picture and not all. It doesn't
/// flush the writer.
///
/// Of this project.
pub fn draw<W, R>(alloc: Global, writer: &mut W, records: &R, cfg: &SpannedConfig) -> io::Result<()>
where
    W: Write,
    R: Records + ExactRecords + PeekableRecords,
    R::Cell: CellText,
    requires well { R.is_well_formed records.now }
    ensures drawn { IsDrawn W.contents result writer.old writer.new (drawn (map_grid R.Cell.text_of (R.grid records.now)) cfg.now) }
    ensures failed { LeavesSome W.contents result writer.old writer.new (drawn (map_grid R.Cell.text_of (R.grid records.now)) cfg.now) }
{
    let drawing = Drawing::new(alloc, records, cfg)?;
    drawing.write(writer)
}

/// Writes the picture of a table in a look, as `draw` writes it in that of `tabled`.
///
/// Of this project.
pub fn draw_with<W, R>(
    alloc: Global,
    writer: &mut W,
    records: &R,
    cfg: &SpannedConfig,
    look: &Look<'_>,
) -> io::Result<()>
where
    W: Write,
    R: Records + ExactRecords + PeekableRecords,
    R::Cell: CellText,
    requires well { R.is_well_formed records.now }
    ensures drawn { IsDrawn W.contents result writer.old writer.new (drawn_in look.now (map_grid R.Cell.text_of (R.grid records.now)) cfg.now) }
    ensures failed { LeavesSome W.contents result writer.old writer.new (drawn_in look.now (map_grid R.Cell.text_of (R.grid records.now)) cfg.now) }
{
    let drawing = Drawing::with_look(alloc, records, cfg, look)?;
    drawing.write(writer)
}

/// The picture of a table (`r x c`) as a text, as `draw` writes it. It may be refused for memory.
///
/// Of this project.
pub fn picture<R>(alloc: Global, records: &R, cfg: &SpannedConfig) -> Result<String, AllocError>
where
    R: Records + ExactRecords + PeekableRecords,
    R::Cell: CellText,
    requires well { R.is_well_formed records.now }
    ensures drawn { IfOk result (λ picture. string_bytes picture ≡ drawn (map_grid R.Cell.text_of (R.grid records.now)) cfg.now) }
{
    picture_with(alloc, records, cfg, &Look::new(Style::ascii()))
}

/// The picture of a table in a look as a text, as `draw_with` writes it. It may be refused for memory.
///
/// Of this project.
pub fn picture_with<R>(
    alloc: Global,
    records: &R,
    cfg: &SpannedConfig,
    look: &Look<'_>,
) -> Result<String, AllocError>
where
    R: Records + ExactRecords + PeekableRecords,
    R::Cell: CellText,
    requires well { R.is_well_formed records.now }
    ensures drawn { IfOk result (λ picture. string_bytes picture ≡ drawn_in look.now (map_grid R.Cell.text_of (R.grid records.now)) cfg.now) }
{
    let drawing = Drawing::with_look(alloc, records, cfg, look)?;
    let mut bytes = Vec::new(alloc);
    if drawing.write(&mut bytes).is_err() {
        return Err(AllocError);
    }
    String::from_utf8(bytes).map_err(|_| AllocError)
}
