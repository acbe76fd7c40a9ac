//! Heights and widths of rectangles.

ghost use Rattle.std.specs.Prelude.{◌≡◌};

/// How many rows and how many columns a rectangle of cells takes.
///
/// Of this project: the original has a number for each.
#[derive(Clone, Copy, Debug, PartialEq, Eq)]
pub struct Size {
    pub height: usize,
    pub width: usize,
}

impl Size {
    ghost use Rattle.tabled_grid.specs.Spans.{is_cell};

    /// One row and one column.
    pub const CELL: Size = Size {
        height: 1,
        width: 1,
    };

    /// Says whether this is the size of one cell.
    pub fn is_cell(self) -> bool
        ensures { result ≡ is_cell self }
    {
        self.height == 1 && self.width == 1
    }
}
