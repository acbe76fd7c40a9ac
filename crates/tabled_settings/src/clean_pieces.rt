//! Where the cells of lines go that are cut into pieces, of which some stay.

ghost use Rattle.std.specs.Prelude.{◌*◌, ◌<◌, ℕ, length, slice_index};
ghost use Rattle.std.specs.List.Sorted.{IsStrictlyIncreasing};
ghost use Rattle.tabled_settings.specs.PiecePlaces.{thinned};

use crate::kept_lines::index_of;
use tabled_carry::{Moves, MovesCells, MovesRectangles, image_of};
use tabled_grid::config::{Position, Rectangle};
use tabled_grid::records::LinePieces;

/// The pieces of lines, of which some stay.
#[derive(Drop)]
pub(crate) struct CleanPieces {
    pub(crate) pieces: LinePieces,
    /// How many pieces come before each of these, in order.
    pub(crate) staying: Vec<usize>,
    ghost rising: { IsStrictlyIncreasing staying.items },
    ghost within: { (k : ℕ) → k < length staying.items → slice_index staying.items k < pieces.lines * pieces.pieces },
}

impl Moves for CleanPieces {
    ghost places = { λ c. thinned c.pieces.axis c.staying.items (⟦<LinePieces as Moves>⟧.places c.pieces) };
}

impl MovesCells for CleanPieces {
    fn new_place(&self, pos: Position) -> Option<Position> {
        let axis = self.pieces.axis;
        let place = self.pieces.new_place(pos)?;
        let line = index_of(&self.staying, axis.line_of(place))?;
        Some(axis.in_line(place, line))
    }
}

impl MovesRectangles for CleanPieces {
    fn new_rectangle(&self, of: Rectangle) -> Option<Rectangle> {
        image_of(self, of)
    }
}
