//! Rectangles of cells.

ghost use Rattle.std.specs.Prelude.{◌≡◌, ◌+◌, nat_lt};

use crate::config::position::Position;
use crate::config::size::Size;

/// A rectangle of cells.
///
/// Of this project.
#[derive(Clone, Copy, Debug, PartialEq, Eq)]
pub struct Rectangle {
    /// The place of its first cell, at the top left, which it is anchored at.
    pub first: Position,
    pub size: Size,
}

impl Rectangle {
    ghost use Rattle.tabled_grid.specs.Rectangles.{holds, lies_inside, meets};

    /// Says whether this rectangle holds a place.
    pub fn holds(self, pos: Position) -> bool
        ensures { result ≡ holds self pos }
    {
        let Rectangle { first, size } = self;
        first.row <= pos.row
            && begins_before(pos.row, first.row, size.height)
            && first.col <= pos.col
            && begins_before(pos.col, first.col, size.width)
    }

    /// Says whether this rectangle shares a cell with another, where both have some.
    pub fn meets(self, other: Rectangle) -> bool
        ensures { result ≡ meets self other }
    {
        let (p, q) = (self.first, other.first);
        begins_before(p.row, q.row, other.size.height)
            && begins_before(q.row, p.row, self.size.height)
            && begins_before(p.col, q.col, other.size.width)
            && begins_before(q.col, p.col, self.size.width)
    }

    /// Says whether this rectangle lies inside a table (`rows x columns`).
    pub fn is_inside(self, rows: usize, columns: usize) -> bool
        ensures { result ≡ lies_inside rows columns self }
    {
        let Rectangle { first, size } = self;
        size.height <= rows
            && first.row <= rows - size.height
            && size.width <= columns
            && first.col <= columns - size.width
    }
}

/// Says whether an index is below the end of n indexes from another on.
pub(super) fn begins_before(index: usize, first: usize, many: usize) -> bool
    ensures { result ≡ nat_lt index (first + many) }
{
    index < first || index - first < many
}
