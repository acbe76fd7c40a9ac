//! The place of a cell.

ghost use Rattle.std.specs.Prelude.{◌≡◌, ◌<◌, ◌↔◌, IsTrue};

/// The place of a cell: its row and its column, both counted from 0.
///
/// Ported from `tabled::grid::config::Position`.
#[derive(Clone, Copy, Debug, PartialEq, Eq, PartialOrd, Ord, Hash)]
pub struct Position {
    pub row: usize,
    pub col: usize,
}

impl Position {
    /// The place in a row and a column.
    ///
    /// Ported from `tabled::grid::config::Position::new`.
    pub const fn new(row: usize, col: usize) -> Self
        ensures row { result.row ≡ row }
        ensures col { result.col ≡ col }
    {
        Position { row, col }
    }

    /// Says whether this place is both below `other` and right of it.
    ///
    /// Ported from `tabled::grid::config::Position::has_coverage`.
    pub const fn has_coverage(&self, other: Position) -> bool
        ensures { IsTrue result ↔ ((other.row < self.now.row) × (other.col < self.now.col)) }
    {
        self.row > other.row && self.col > other.col
    }
}

impl From<(usize, usize)> for Position {
    ghost from_gives = { λ pair pos. pos ≡ record { row = pair.0; col = pair.1 } };

    fn from(pair: (usize, usize)) -> Self {
        Position::new(pair.0, pair.1)
    }
}
