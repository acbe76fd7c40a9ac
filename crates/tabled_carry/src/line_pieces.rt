//! Where the cells of lines go that are cut into pieces.

use crate::images::{Moves, MovesCells, MovesRectangles, image_of};
use tabled_grid::config::{Position, Rectangle};
use tabled_grid::records::LinePieces;

impl Moves for LinePieces {
    ghost use Rattle.tabled_grid.specs.Pieces.{cut_places};

    ghost places = { λ p. cut_places p.axis p.order p.index p.lines p.width };
}

impl MovesCells for LinePieces {
    fn new_place(&self, pos: Position) -> Option<Position> {
        let line = self.axis.line_of(pos);
        let cell = self.axis.across().line_of(pos);
        if line >= self.lines || cell >= self.width {
            return None;
        }
        let number = cell / self.index;
        let nth = self
            .order
            .piece_index(self.lines, self.pieces, line, number);
        Some(self.axis.place(nth, cell % self.index))
    }
}

impl MovesRectangles for LinePieces {
    fn new_rectangle(&self, of: Rectangle) -> Option<Rectangle> {
        image_of(self, of)
    }
}
