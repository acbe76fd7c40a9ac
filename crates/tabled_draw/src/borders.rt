//! Which borders lie where, and the characters of corners.

ghost use Rattle.std.specs.Prelude.{◌≡◌, ◌+◌, ◌<◌, ℕ};
ghost use Rattle.tabled_draw.specs.Borders.{corner_if, differ, is_drawn, line_size, lines_around, size_if, weight};
ghost use Rattle.tabled_draw.specs.Sizes.{pad};

use crate::owners::Owner;
use crate::style::{Lines, Style};
use tabled_grid::records::Axis;

/// Says whether the k-th line is drawn of those around n rows, or n columns. The 0-th is before the first of them, and the
/// n-th behind the last one. There is none behind that.
#[inline(always)]
pub(crate) fn is_drawn(lines: Lines, n: usize, k: usize) -> bool
    ensures { result ≡ is_drawn lines n k }
{
    (k == 0 && lines.first)
        || (k == n && lines.last)
        || (k == 1 && lines.second)
        || (0 < k && k < n && lines.inner)
}

/// Says whether the line behind a row or column that is not the last one is drawn.
#[inline(always)]
pub(crate) fn is_drawn_after(lines: Lines, k: usize) -> bool
    ensures { (n : ℕ) → k + 1 < n → result ≡ is_drawn lines n (k + 1) }
{
    lines.inner || (k == 0 && lines.second)
}

/// The size of a line.
#[inline(always)]
pub(crate) fn size_if(drawn: bool) -> usize
    ensures { result ≡ size_if drawn }
{
    if drawn { 1 } else { 0 }
}

/// How many lines of a picture, or columns, the k-th of the lines around n rows, or n columns, takes: one if it is drawn,
/// else none.
#[inline(always)]
pub(crate) fn line_size(lines: Lines, n: usize, k: usize) -> usize
    ensures { result ≡ line_size lines n k }
{
    size_if(is_drawn(lines, n, k))
}

/// What stands beside a text: a blank before it and one after it, and nothing above and below.
#[inline(always)]
pub(crate) fn pad(axis: Axis) -> usize
    ensures { result ≡ pad axis }
{
    match axis {
        Axis::Rows => 0,
        Axis::Columns => 2,
    }
}

/// The lines around the rows, or the columns.
pub(crate) fn lines_around(axis: Axis, style: &Style) -> Lines
    ensures { result ≡ lines_around axis style.now }
{
    match axis {
        Axis::Rows => style.rows,
        Axis::Columns => style.columns,
    }
}

/// Says whether a border lies between two places.
#[inline(always)]
pub(crate) fn differ(a: Owner, b: Owner) -> bool
    ensures { result ≡ differ a b }
{
    match (a, b) {
        (Some(a), Some(b)) => !(a.first.col == b.first.col && a.first.row == b.first.row),
        (None, None) => false,
        _ => true,
    }
}

/// What an arm counts.
#[inline(always)]
fn weight(is: bool, number: usize) -> usize
    ensures { result ≡ weight is number }
{
    if is { number } else { 0 }
}

/// The character of a corner with these arms, unless it has none.
#[inline(always)]
pub(crate) fn corner(style: &Style, up: bool, right: bool, down: bool, left: bool) -> Option<char>
    ensures { result ≡ corner_if style.now (record { up = up; right = right; down = down; left = left }) }
{
    let number = weight(up, 8) + weight(right, 4) + weight(down, 2) + weight(left, 1);
    if number == 0 {
        return None;
    }
    Some(style.corners[number])
}
