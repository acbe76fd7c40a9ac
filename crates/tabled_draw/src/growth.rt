//! Rows and columns that grow for the texts of merged cells.

ghost use Rattle.std.specs.Prelude.{◌≡◌, ◌+◌, ◌≤◌, IfOk, OnOk, length};
ghost use Rattle.tabled_draw.specs.Sizes.{IsInOrder, grown, grown_sizes, room};
ghost use Rattle.tabled_draw.specs.Borders.{line_size};
ghost use Rattle.tabled_grid.specs.Along.{count_along};
ghost use Rattle.tabled_grid.specs.Grid.{map_grid};
ghost use Rattle.tabled_grid.specs.Fitting.{Fits};
ghost use Rattle.tabled_grid.specs.Spans.{rectangles};

use crate::borders::{line_size, lines_around, pad};
use crate::style::{Lines, Style};
use crate::texts::asked;
use std::alloc::{AllocError, Global};
use tabled_grid::config::{Rectangle, SpannedConfig};
use tabled_grid::records::{Axis, CellText, ExactRecords, PeekableRecords, Records};

/// Lets sizes grow by what the text of each merged cell lacks, one after another.
pub(crate) fn grow_all<R>(
    alloc: Global,
    records: &R,
    cfg: &SpannedConfig,
    style: &Style,
    axis: Axis,
    sizes: &mut Vec<usize>,
) -> Result<(), AllocError>
where
    R: Records + ExactRecords + PeekableRecords,
    R::Cell: CellText,
    requires well { R.is_well_formed records.now }
    requires fits { Fits cfg.now (R.grid records.now).rows (R.grid records.now).columns }
    requires long { length sizes.old.items ≡ count_along axis (R.grid records.now) }
    ensures long { OnOk result (length sizes.new.items ≡ count_along axis (R.grid records.now)) }
    ensures grown { OnOk result (sizes.new.items ≡ grown axis style.now (map_grid R.Cell.text_of (R.grid records.now)) (rectangles cfg.now) sizes.old.items) }
{
    let rectangles = put_in_order(alloc, cfg.rectangles(), axis)?;
    let order = rectangles.as_slice();
    let lines = lines_around(axis, style);
    for k in 0..order.len() {
        let Rectangle { first, size } = order[k];
        let need = axis.lines_in(asked(records.get_text(first)));
        let line = axis.line_of(first);
        grow(sizes, axis, lines, line, axis.lines_in(size), need)?;
    }
    Ok(())
}

/// Rectangles, those that take the fewest lines first, and of these those that begin first.
fn put_in_order(
    alloc: Global,
    rectangles: &[Rectangle],
    axis: Axis,
) -> Result<Vec<Rectangle>, AllocError>
    ensures { IfOk result (λ order. IsInOrder axis rectangles.now order.items) }
{
    let mut order = Vec::from_slice(alloc, rectangles)?;
    order.sort_by_key(|rectangle| axis.line_of(rectangle.first))?;
    order.sort_by_key(|rectangle| axis.lines_in(rectangle.size))?;
    Ok(order)
}

/// Lets n sizes grow by what they lack, with the lines that are drawn between them.
fn grow(
    sizes: &mut Vec<usize>,
    axis: Axis,
    lines: Lines,
    at: usize,
    n: usize,
    need: usize,
) -> Result<(), AllocError>
    requires some { 1 ≤ n }
    requires end { at + n ≤ length sizes.old.items }
    ensures grown { OnOk result (sizes.new.items ≡ grown_sizes axis (line_size lines (length sizes.old.items)) sizes.old.items at n need) }
{
    let lack = need.saturating_sub(room(sizes, axis, lines, at, n)?);
    let each = lack / n;
    for k in at..at + n {
        sizes[k] = plus(sizes[k], each)?;
    }
    sizes[at] = plus(sizes[at], lack % n)?;
    Ok(())
}

/// The room of a text in n of the sizes of rows, or of columns, from one on: with the lines that are drawn between them, and
/// what stands beside the texts of each. Refused where this comes to more than `usize::MAX`.
///
/// Of this project.
pub fn room(
    sizes: &[usize],
    axis: Axis,
    lines: Lines,
    at: usize,
    n: usize,
) -> Result<usize, AllocError>
    requires some { 1 ≤ n }
    requires end { at + n ≤ length sizes.now }
    ensures { IfOk result (λ much. much ≡ room axis (line_size lines (length sizes.now)) sizes.now at n) }
{
    let pad = pad(axis);
    let mut room = 0;
    for k in at..at + n {
        let line = line_size(lines, sizes.len(), k);
        room = plus(plus(plus(room, line)?, sizes[k])?, pad)?;
    }
    Ok(
        room.saturating_sub(line_size(lines, sizes.len(), at))
            .saturating_sub(pad),
    )
}

/// A sum; one past `usize::MAX` is a growth refused.
pub(crate) fn plus(a: usize, b: usize) -> Result<usize, AllocError>
    ensures { IfOk result (λ sum. sum ≡ a + b) }
{
    let Some(sum) = a.checked_add(b) else {
        return Err(AllocError);
    };
    Ok(sum)
}
