//! What becomes of a rectangle of cells when the cells of a table move.

ghost use Rattle.std.specs.Prelude.{◌≡◌, ◌+◌, ◌*◌, ◌<◌, ◌^◌, IsNone, Some, max, min};
ghost use Rattle.std.specs.Option.{IfSome};
ghost use Rattle.tabled_grid.specs.Entity.{place};
ghost use Rattle.tabled_grid.specs.Rectangles.{HasArea, In};
ghost use Rattle.tabled_grid.specs.Places.{Places};
ghost use Rattle.tabled_grid.specs.declared.config.position.Position.{Position};
ghost use Rattle.tabled_grid.specs.declared.config.rectangle.Rectangle.{Rectangle};
ghost use Rattle.tabled_carry.specs.Corners.{Around};
ghost use Rattle.tabled_carry.specs.Images.{Carries, Takes};

use tabled_grid::config::{Position, Rectangle, Size};

/// Where the cells of a table go when they move, and where they come from.
pub trait Moves {
    /// The new shape, and for each new place its old place or none.
    ghost places: { Self → Places };
}

/// Moves that tell where a cell goes. None goes to two places.
pub trait MovesCells: Moves {
    /// The new place of the cell at an old place, if it has one.
    fn new_place(&self, pos: Position) -> Option<Position>
        ensures takes { IfSome result (λ p. Takes (Self.places self.now) p pos) }
        ensures row { IfSome result (λ p. p.row + 1 < 2 ^ 64) }
        ensures col { IfSome result (λ p. p.col + 1 < 2 ^ 64) }
        ensures finds { (p : Position) → Takes (Self.places self.now) p pos → result ≡ Some p };
}

/// Moves that tell where the cells of a rectangle go: by the new place of each, as `image_of` finds, or
/// without a look at each.
pub trait MovesRectangles: Moves {
    /// The rectangle that a rectangle is carried to, if there is one.
    fn new_rectangle(&self, of: Rectangle) -> Option<Rectangle>
        requires full { HasArea of }
        requires bottom { of.first.row + of.size.height < 2 ^ 64 }
        requires right { of.first.col + of.size.width < 2 ^ 64 }
        ensures carries { IfSome result (λ f. Carries (Self.places self.now) of f) }
        ensures full { IfSome result HasArea }
        ensures finds { (f : Rectangle) → Carries (Self.places self.now) of f → HasArea f → result ≡ Some f };
}

/// The first row and column of some places, and the last ones.
#[derive(Clone, Copy)]
struct Corners {
    first: Position,
    last: Position,
}

impl Corners {
    /// Those of one more place.
    fn with(self, pos: Position) -> Self
        ensures first { result.first ≡ place (min self.first.row pos.row) (min self.first.col pos.col) }
        ensures last { result.last ≡ place (max self.last.row pos.row) (max self.last.col pos.col) }
    {
        Corners {
            first: Position::new(self.first.row.min(pos.row), self.first.col.min(pos.col)),
            last: Position::new(self.last.row.max(pos.row), self.last.col.max(pos.col)),
        }
    }
}

/// The corners of the new places of all cells of a rectangle, if each has one.
fn around<M: MovesCells>(moves: &M, of: Rectangle) -> Option<Corners>
    requires full { HasArea of }
    requires bottom { of.first.row + of.size.height < 2 ^ 64 }
    requires right { of.first.col + of.size.width < 2 ^ 64 }
    ensures around { IfSome result (λ corners. Around (M.places moves.now) of (In of) corners.first corners.last) }
    ensures none { IsNone result → (q : Position) × In of q × ((p : Position) → Takes (M.places moves.now) p q → ⊥) }
{
    let Rectangle { first, size } = of;
    let mut corners: Option<Corners> = None;
    for i in first.row..first.row + size.height {
        for j in first.col..first.col + size.width {
            let pos = moves.new_place(Position::new(i, j))?;
            corners = Some(match corners {
                Some(known) => known.with(pos),
                None => Corners {
                    first: pos,
                    last: pos,
                },
            });
        }
    }
    corners
}

/// How many cells a rectangle has.
fn count_of(rectangle: Rectangle) -> u128
    ensures { result ≡ rectangle.size.height * rectangle.size.width }
{
    rectangle.size.height as u128 * rectangle.size.width as u128
}

/// The rectangle that a rectangle is carried to, if there is one, by the new place of each cell.
pub fn image_of<M: MovesCells>(moves: &M, of: Rectangle) -> Option<Rectangle>
    requires full { HasArea of }
    requires bottom { of.first.row + of.size.height < 2 ^ 64 }
    requires right { of.first.col + of.size.width < 2 ^ 64 }
    ensures carries { IfSome result (λ f. Carries (M.places moves.now) of f) }
    ensures full { IfSome result HasArea }
    ensures finds { (f : Rectangle) → Carries (M.places moves.now) of f → HasArea f → result ≡ Some f }
{
    let Corners { first, last } = around(moves, of)?;
    let size = Size {
        height: last.row - first.row + 1,
        width: last.col - first.col + 1,
    };
    let image = Rectangle { first, size };
    // No two cells come to one place: as many places are those of all cells.
    if count_of(image) == count_of(of) {
        Some(image)
    } else {
        None
    }
}
