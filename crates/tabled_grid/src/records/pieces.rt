//! Lines of a store cut into pieces, each cell moved once.

ghost use Rattle.std.specs.Prelude.{◌≡◌, ◌*◌, ◌<◌, ◌^◌, IfOk, OnErr, OnOk};
ghost use Rattle.std.specs.Int.{div_ceil};
ghost use Rattle.tabled_grid.specs.Along.{count_along};
ghost use Rattle.tabled_grid.specs.Axis.{across};
ghost use Rattle.tabled_grid.specs.Pieces.{cut_places};
ghost use Rattle.tabled_grid.specs.Places.{FillsThrough};

use crate::config::Position;
use crate::records::axis::Axis;
use crate::records::blank::Blank;
use crate::records::exact_records::ExactRecords;
use crate::records::gather::{Exchange, Rearrange, gather};
use crate::records::piece_order::PieceOrder;
use crate::records::records::Records;
use std::alloc::{AllocError, Global};

/// n lines of a width in pieces, of which there are at most `usize::MAX`.
#[doc(hidden)]
#[derive(Drop)]
pub struct LinePieces {
    pub axis: Axis,
    pub order: PieceOrder,
    pub index: usize,
    pub lines: usize,
    pub width: usize,
    /// How many pieces a line has.
    pub pieces: usize,
    ghost some: { 0 < lines },
    ghost some_cells: { 0 < index },
    ghost narrow: { index < width },
    ghost counted: { pieces ≡ div_ceil width index },
    ghost numbered: { lines * pieces < 2 ^ 64 },
}

impl LinePieces {
    /// The pieces of lines that are longer than a piece. Refused where there are more than `usize::MAX`.
    pub fn new(
        axis: Axis,
        order: PieceOrder,
        index: usize,
        lines: usize,
        width: usize,
    ) -> Result<Self, AllocError>
        requires some { 0 < lines }
        requires some_cells { 0 < index }
        requires narrow { index < width }
        ensures axis { IfOk result (λ p. p.axis ≡ axis) }
        ensures order { IfOk result (λ p. p.order ≡ order) }
        ensures index { IfOk result (λ p. p.index ≡ index) }
        ensures lines { IfOk result (λ p. p.lines ≡ lines) }
        ensures width { IfOk result (λ p. p.width ≡ width) }
    {
        let pieces = width.div_ceil(index);
        if lines.checked_mul(pieces).is_none() {
            return Err(AllocError);
        }
        Ok(LinePieces {
            axis,
            order,
            index,
            lines,
            width,
            pieces,
        })
    }
}

impl Rearrange for LinePieces {
    ghost use Rattle.tabled_grid.specs.Pieces.{cut_places};

    ghost places = { λ p. cut_places p.axis p.order p.index p.lines p.width };

    fn old_place(&self, to: Position) -> Option<Position> {
        let target = self.axis.line_of(to);
        let cell = self.axis.across().line_of(to);
        let (line, number) = self.order.nth_piece(self.lines, self.pieces, target);
        let start = number * self.index;
        if cell < self.width - start {
            Some(self.axis.place(line, start + cell))
        } else {
            None
        }
    }
}

/// Cuts lines into pieces. Refused, it leaves the store as it was.
pub(super) fn cut_lines<R>(
    alloc: Global,
    records: &mut R,
    axis: Axis,
    order: PieceOrder,
    index: usize,
) -> Result<(), AllocError>
where
    R: Exchange + Records + ExactRecords,
    R::Cell: Blank,
    requires well { R.is_well_formed records.old }
    requires some { 0 < count_along axis (R.grid records.old) }
    requires index { 0 < index }
    requires narrow { index < count_along (across axis) (R.grid records.old) }
    ensures well { R.is_well_formed records.new }
    ensures ok { OnOk result (FillsThrough R.Cell.is_blank (cut_places axis order index (count_along axis (R.grid records.old)) (count_along (across axis) (R.grid records.old))) (R.grid records.old) (R.grid records.new)) }
    ensures err { OnErr result (records.new ≡ records.old) }
{
    let lines = axis.count(records);
    let width = axis.across().count(records);
    let pieces = LinePieces::new(axis, order, index, lines, width)?;
    let all = lines * pieces.pieces;
    let rows = axis.count_of(all, index);
    let columns = axis.count_of(index, all);
    gather(alloc, records, &pieces, rows, columns)
}
