//! How wide pictures are.

ghost use Rattle.std.specs.Prelude.{◌≡◌, ℕ, IfOk, List};
ghost use Rattle.tabled_draw.specs.Width.{HasItsWidth, column_widths, picture_width, width_of_columns};
ghost use Rattle.tabled_draw.specs.declared.alignment.Alignment.{Alignment};
ghost use Rattle.tabled_draw.specs.declared.style.Style.{Style};
ghost use Rattle.tabled_grid.specs.Grid.{Grid, map_grid};
ghost use Rattle.tabled_grid.specs.Spans.{SpanMap};

use crate::borders::{line_size, pad};
use crate::growth::plus;
use crate::layout::layout_of;
use crate::style::{Lines, Style};
use std::alloc::{AllocError, Global};
use tabled_grid::config::SpannedConfig;
use tabled_grid::records::{Axis, CellText, ExactRecords, PeekableRecords, Records};

/// The columns that each line takes of the picture of a table (`r x c`) in a style, as `draw_with` draws it.
///
/// Refused for memory, or where the widths or heights come to more than `usize::MAX`. The table is only read.
///
/// Of this project.
pub fn picture_width<R>(
    alloc: Global,
    records: &R,
    cfg: &SpannedConfig,
    style: &Style,
) -> Result<usize, AllocError>
where
    R: Records + ExactRecords + PeekableRecords,
    R::Cell: CellText,
    requires { R.is_well_formed records.now }
    ensures width { IfOk result (λ width. width ≡ picture_width style.now (map_grid R.Cell.text_of (R.grid records.now)) cfg.now) }
{
    let rows = records.count_rows();
    let columns = records.count_columns();
    let spans = cfg.fitting(alloc, rows, columns)?;
    let layout = layout_of(alloc, records, &spans, style)?;
    let before = layout.edges[columns];
    let last = line_size(style.columns, columns, columns);
    match before.checked_add(last) {
        Some(width) => Ok(width),
        None => Err(AllocError),
    }
}

/// The width of each column of the picture of a table (`r x c`) in a style, as `draw_with` draws it: what the widest line
/// there takes, without the blanks and borders beside it.
///
/// Refused for memory, or where the widths or heights come to more than `usize::MAX`. The table is only read.
///
/// Of this project.
pub fn column_widths<R>(
    alloc: Global,
    records: &R,
    cfg: &SpannedConfig,
    style: &Style,
) -> Result<Vec<usize>, AllocError>
where
    R: Records + ExactRecords + PeekableRecords,
    R::Cell: CellText,
    requires { R.is_well_formed records.now }
    ensures widths { IfOk result (λ widths. widths.items ≡ column_widths style.now (map_grid R.Cell.text_of (R.grid records.now)) cfg.now) }
{
    let rows = records.count_rows();
    let columns = records.count_columns();
    let spans = cfg.fitting(alloc, rows, columns)?;
    let layout = layout_of(alloc, records, &spans, style)?;
    Ok(layout.widths)
}

/// The columns that each line takes of a picture whose columns have these widths. Refused where they come to more than
/// `usize::MAX`.
///
/// Of this project.
pub fn width_of_columns(lines: Lines, widths: &[usize]) -> Result<usize, AllocError>
    ensures width { IfOk result (λ width. width ≡ width_of_columns lines widths.now) }
{
    let mut width = line_size(lines, widths.len(), widths.len());
    for k in 0..widths.len() {
        let line = line_size(lines, widths.len(), k);
        width = plus(plus(plus(width, line)?, widths[k])?, pad(Axis::Columns))?;
    }
    Ok(width)
}

/// Each line of a picture takes as many columns as `picture_width` says, where no character of the style takes more than
/// one.
pub fn lines_take_the_width_of_their_picture()
    ensures { (style : Style) (aligns : List Alignment) (g : Grid (List ℕ)) (m : SpanMap) → HasItsWidth style aligns g m }
{}
