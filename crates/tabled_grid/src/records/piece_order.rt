//! The order of the pieces of lines.

ghost use Rattle.std.specs.Prelude.{◌≡◌, ◌*◌, ◌<◌, ◌^◌};
ghost use Rattle.tabled_grid.specs.Pieces.{IsPiece, nth_piece, piece_index};

/// The order of the pieces of lines that are cut.
///
/// Ported from the private `Behavior` of `tabled::settings::split`.
#[derive(Clone, Copy, Debug, PartialEq, Eq)]
pub enum PieceOrder {
    /// The first pieces of all lines, then the second ones, and so on.
    Concat,
    /// The pieces of the first line, then those of the second one, and so on.
    Zip,
}

impl PieceOrder {
    /// The line and the number of the piece that comes n-th, of r lines of c pieces.
    #[doc(hidden)]
    pub fn nth_piece(self, lines: usize, pieces: usize, nth: usize) -> (usize, usize)
        requires lines { 0 < lines }
        requires pieces { 0 < pieces }
        ensures nth { result ≡ nth_piece self lines pieces nth }
        ensures piece { nth < lines * pieces → IsPiece self lines pieces nth result.0 result.1 }
    {
        match self {
            PieceOrder::Zip => (nth / pieces, nth % pieces),
            PieceOrder::Concat => (nth % lines, nth / lines),
        }
    }

    /// How many pieces come before a piece of a line.
    #[doc(hidden)]
    pub fn piece_index(self, lines: usize, pieces: usize, line: usize, number: usize) -> usize
        requires line { line < lines }
        requires number { number < pieces }
        requires numbered { lines * pieces < 2 ^ 64 }
        ensures index { result ≡ piece_index self lines pieces line number }
        ensures below { result < lines * pieces }
    {
        match self {
            PieceOrder::Zip => line * pieces + number,
            PieceOrder::Concat => number * lines + line,
        }
    }
}
