//! Lists of anchors when a line, which is a row or a column, is put in.

ghost use Rattle.std.specs.Prelude.{◌≡◌, map};
ghost use Rattle.std.specs.Option.{unwrap_or};
ghost use Rattle.std.specs.List.{list_any};
ghost use Rattle.tabled_grid.specs.Shifts.{crosses_line, shifted_in, shifted_place};
ghost use Rattle.tabled_grid.specs.Spans.{rectangle};
ghost use Rattle.tabled_grid.specs.declared.config.rectangle.Rectangle.{Rectangle};

use crate::config::position::Position;
use crate::config::rectangle::Rectangle;
use crate::records::Axis;

/// Moves all anchors from a line on one line further. One that has no index left goes away.
pub(super) fn shift(anchors: &mut Vec<Rectangle>, axis: Axis, from: usize)
    ensures { anchors.new.items ≡ shifted_in axis from anchors.old.items }
{
    anchors.retain(|anchor| place_once_shifted(axis, from, anchor.first).is_some());
    shift_each(anchors, axis, from);
}

/// Moves anchors from a line on one line further, where an index is left.
fn shift_each(anchors: &mut [Rectangle], axis: Axis, from: usize)
    ensures { anchors.new ≡ map (λ (e : Rectangle). rectangle (unwrap_or (shifted_place axis from e.first) e.first) e.size) anchors.old }
{
    for k in 0..anchors.len() {
        let Rectangle { first, size } = anchors[k];
        let first = place_once_shifted(axis, from, first).unwrap_or(first);
        anchors[k] = Rectangle { first, size };
    }
}

/// Says whether a rectangle begins before a line and holds a cell of it.
pub(super) fn cross(anchors: &[Rectangle], axis: Axis, line: usize) -> bool
    ensures { result ≡ list_any (crosses_line axis line) anchors.now }
{
    anchors.iter().any(|anchor| {
        let first = axis.line_of(anchor.first);
        first < line && line - first < axis.lines_in(anchor.size)
    })
}

/// Where a place is once a line is put in before line `from`, if an index is left for it.
fn place_once_shifted(axis: Axis, from: usize, pos: Position) -> Option<Position>
    ensures { result ≡ shifted_place axis from pos }
{
    let line = axis.line_of(pos);
    if line < from {
        return Some(pos);
    }
    let next = line.checked_add(1)?;
    Some(axis.in_line(pos, next))
}
