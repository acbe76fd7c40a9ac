//! Stores whose texts can be written.

ghost use Rattle.std.specs.Prelude.{◌≡◌, OnOk, OnErr};
ghost use Rattle.tabled_grid.specs.Grid.{IsInside, WritesText, map_grid, with_cell};

use crate::config::Position;
use crate::records::cell_text::CellText;
use crate::records::grid_store::GridStore;
use std::alloc::{AllocError, Global};

/// A store whose texts can be written, as texts of the type `T`.
///
/// Ported from `tabled::grid::records::RecordsMut`.
pub trait RecordsMut<T>: GridStore
where
    T: CellText,
    Self::Cell: CellText,
{
    /// Writes the text of a cell inside the shape, and changes no other cell.
    ///
    /// Refused for memory, it leaves the store as it was.
    ///
    /// Ported from `tabled::grid::records::RecordsMut::set`.
    fn set(&mut self, alloc: Global, pos: Position, text: T) -> Result<(), AllocError>
        requires well { Self.is_well_formed self.old }
        requires inside { IsInside (Self.grid self.old) pos }
        ensures well { Self.is_well_formed self.new }
        ensures ok { OnOk result (WritesText Self.Cell.text_of (Self.grid self.old) (Self.grid self.new) pos (T.text_of text)) }
        ensures err { OnErr result (Self.grid self.new ≡ Self.grid self.old) }

        // The same, for who reads texts alone.
        ensures texts { OnOk result (map_grid Self.Cell.text_of (Self.grid self.new) ≡ with_cell (map_grid Self.Cell.text_of (Self.grid self.old)) pos (T.text_of text)) }
        ensures rows { (Self.grid self.new).rows ≡ (Self.grid self.old).rows }
        ensures columns { (Self.grid self.new).columns ≡ (Self.grid self.old).columns };
}
