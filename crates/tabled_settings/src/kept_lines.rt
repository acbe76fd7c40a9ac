//! Where the cells go of a table of which some lines are kept.

ghost use Rattle.std.specs.Prelude.{◌≡◌, ◌<◌, ◌↔◌, ℕ, IfOk, IfSome, IsTrue, Some, length, slice_index};
ghost use Rattle.std.specs.List.Sorted.{IsStrictlyIncreasing};
ghost use Rattle.tabled_settings.specs.Lines.{unmarked};
ghost use Rattle.tabled_settings.specs.Rearranged.{kept_lines};

use std::alloc::{AllocError, Global};
use tabled_carry::{Moves, MovesCells, MovesRectangles, image_of};
use tabled_grid::config::{Position, Rectangle, Size};
use tabled_grid::records::Axis;

/// Some of the rows, or of the columns, of a table of a shape.
#[derive(Drop)]
pub(crate) struct KeptLines {
    axis: Axis,
    /// In order.
    indexes: Vec<usize>,
    table: Size,
    ghost rising: { IsStrictlyIncreasing indexes.items },
}

impl KeptLines {
    /// The lines without a mark.
    pub(crate) fn unmarked(
        alloc: Global,
        axis: Axis,
        gone: &[bool],
        table: Size,
    ) -> Result<Self, AllocError>
        ensures { IfOk result (λ k. kept_lines k.axis k.indexes.items k.table.height k.table.width ≡ kept_lines axis (unmarked gone.now) table.height table.width) }
    {
        let indexes = unmarked(alloc, gone)?;
        Ok(KeptLines {
            axis,
            indexes,
            table,
        })
    }
}

/// The indexes without a mark, in order.
fn unmarked(alloc: Global, marks: &[bool]) -> Result<Vec<usize>, AllocError>
    ensures { IfOk result (λ indexes. indexes.items ≡ unmarked marks.now) }
{
    let mut indexes = Vec::new(alloc);
    for (index, mark) in marks.iter().enumerate() {
        if !*mark {
            indexes.push(index)?;
        }
    }
    Ok(indexes)
}

/// Where an index is in a list that rises, if it is there.
pub(crate) fn index_of(rising: &[usize], index: usize) -> Option<usize>
    requires rising { IsStrictlyIncreasing rising.now }
    ensures at { IfSome result (λ k. (k < length rising.now) × (slice_index rising.now k ≡ index)) }
    ensures finds { (k : ℕ) → k < length rising.now → slice_index rising.now k ≡ index → result ≡ Some k }
{
    // Nothing is missing before most indexes, or all that is missing is before them.
    if holds_at(rising, index, index) {
        return Some(index);
    }
    let last = rising.last().copied()?;
    let missing = last.saturating_sub(rising.len() - 1);
    let shifted = index.saturating_sub(missing);
    if holds_at(rising, shifted, index) {
        return Some(shifted);
    }
    rising.binary_search(&index).ok()
}

/// Says whether a list has an index at a place.
fn holds_at(indexes: &[usize], place: usize, index: usize) -> bool
    ensures { IsTrue result ↔ ((place < length indexes.now) × (slice_index indexes.now place ≡ index)) }
{
    place < indexes.len() && indexes[place] == index
}

impl Moves for KeptLines {
    ghost places = { λ k. kept_lines k.axis k.indexes.items k.table.height k.table.width };
}

impl MovesCells for KeptLines {
    fn new_place(&self, pos: Position) -> Option<Position> {
        let across = self.axis.across();
        if across.line_of(pos) >= across.count_of(self.table.height, self.table.width) {
            return None;
        }
        let line = index_of(&self.indexes, self.axis.line_of(pos))?;
        Some(self.axis.in_line(pos, line))
    }
}

impl MovesRectangles for KeptLines {
    fn new_rectangle(&self, of: Rectangle) -> Option<Rectangle> {
        image_of(self, of)
    }
}
