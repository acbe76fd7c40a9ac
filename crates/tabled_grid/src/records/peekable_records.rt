//! Stores whose texts can be read.

ghost use Rattle.std.specs.Prelude.{◌≡◌, Some};
ghost use Rattle.tabled_grid.specs.Grid.{IsInside, cell_at, map_grid};

use crate::config::Position;
use crate::records::cell_text::CellText;
use crate::records::grid_store::GridStore;

/// A store whose texts can be read.
///
/// Ported from `tabled::grid::records::PeekableRecords`.
pub trait PeekableRecords: GridStore
where
    Self::Cell: CellText,
{
    /// The text of a cell inside the shape.
    ///
    /// Ported from `tabled::grid::records::PeekableRecords::get_text`.
    fn get_text(&self, pos: Position) -> &str
        requires well { Self.is_well_formed self.now }
        requires inside { IsInside (Self.grid self.now) pos }
        ensures { cell_at (map_grid Self.Cell.text_of (Self.grid self.now)) pos ≡ Some result.now };
}
