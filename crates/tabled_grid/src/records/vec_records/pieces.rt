//! Rows cut into pieces that fill them.

ghost use Rattle.std.specs.Prelude.{◌≡◌, ◌<◌, ◌%◌};
ghost use Rattle.tabled_grid.specs.Pieces.{cut_places};
ghost use Rattle.tabled_grid.specs.Places.{FillsThrough};
ghost use Rattle.tabled_grid.specs.declared.records.axis.Axis.TheVariants.{Rows};
ghost use Rattle.tabled_grid.specs.declared.records.piece_order.PieceOrder.TheVariants.{Zip};

use super::VecRecords;
use crate::records::blank::Blank;

impl<T: Blank> VecRecords<T> {
    /// Cuts rows into pieces that fill them. The cells lie in their order before and after, and none moves.
    pub(super) fn divide_rows(&mut self, index: usize)
        requires some { 0 < self.old.grid.rows }
        requires index { 0 < index }
        requires narrow { index < self.old.grid.columns }
        requires whole { self.old.grid.columns % index ≡ 0 }
        ensures { FillsThrough T.is_blank (cut_places Rows Zip index self.old.grid.rows self.old.grid.columns) self.old.grid self.new.grid }
    {
        self.rows *= self.columns / index;
        self.columns = index;
    }
}
