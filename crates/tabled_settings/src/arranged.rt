//! Lines of a table in another order, and merged cells with them.

ghost use Rattle.std.specs.Prelude.{◌≡◌, ◌<◌, ℕ, IfOk, IfSome, OnErr, OnOk, Some, length, slice_index};
ghost use Rattle.std.specs.List.{range_with_len};
ghost use Rattle.tabled_grid.specs.Along.{count_along};
ghost use Rattle.tabled_grid.specs.Axis.{count_of};
ghost use Rattle.tabled_settings.specs.Arranged.{AreDistinct, BringToFront, TellsPlaces};
ghost use Rattle.tabled_settings.specs.Rearranged.{RearrangesLines, kept_lines};

use crate::lines;
use std::alloc::{AllocError, Global};
use tabled_carry::{FittingSpans, Moves, MovesCells, MovesRectangles, image_of};
use tabled_grid::config::{Position, Rectangle, Size, SpannedConfig};
use tabled_grid::records::{Axis, Blank, ExactRecords, Records, Resizable, shape_of};

/// Keeps the lines of some indexes alone, each once, in their order, and carries merged cells along. All memory
/// is asked for before the first cell moves: three numbers for each line of the table.
pub(crate) fn arrange<R>(
    alloc: Global,
    axis: Axis,
    records: &mut R,
    cfg: &mut SpannedConfig,
    indexes: Vec<usize>,
) -> Result<(), AllocError>
where
    R: Records + ExactRecords + Resizable,
    R::Cell: Blank,
    requires well { R.is_well_formed records.old }
    requires once { AreDistinct indexes.items (count_along axis (R.grid records.old)) }
    ensures well { R.is_well_formed records.new }
    ensures ok { OnOk result (RearrangesLines axis indexes.items (R.grid records.old) cfg.old (R.grid records.new) cfg.new) }
    ensures err { OnErr result (R.grid records.new ≡ R.grid records.old) }
    ensures same { OnErr result (cfg.new ≡ cfg.old) }
{
    let table = shape_of(records);
    let arrangement = Arrangement::new(alloc, axis, indexes, table)?;
    let fitting = FittingSpans::of(alloc, cfg, table)?;
    lines::bring(axis, records, &arrangement.swaps);
    fitting.carry_along(alloc, &arrangement, cfg);
    Ok(())
}

/// Lines of a table of a shape, each once, in another order.
#[derive(Drop)]
struct Arrangement {
    axis: Axis,
    /// The old index of each new line.
    indexes: Vec<usize>,
    /// The line with which each new line in turn, from the first on, changes places.
    swaps: Vec<usize>,
    /// The new index of each old line. Those that go have indexes past the new lines.
    places: Vec<usize>,
    table: Size,
    ghost once: { AreDistinct indexes.items (count_of axis table.height table.width) },
    ghost bring: { BringToFront indexes.items swaps.items (count_of axis table.height table.width) },
    ghost tell: { TellsPlaces indexes.items places.items (count_of axis table.height table.width) },
}

impl Arrangement {
    /// The lines of some indexes, in their order.
    fn new(alloc: Global, axis: Axis, indexes: Vec<usize>, table: Size) -> Result<Self, AllocError>
        requires { AreDistinct indexes.items (count_of axis table.height table.width) }
        ensures axis { IfOk result (λ a. a.axis ≡ axis) }
        ensures indexes { IfOk result (λ a. a.indexes.items ≡ indexes.items) }
        ensures table { IfOk result (λ a. a.table ≡ table) }
    {
        let count = axis.count_of(table.height, table.width);
        let (swaps, places) = swaps_to(alloc, &indexes, count)?;
        Ok(Arrangement {
            axis,
            indexes,
            swaps,
            places,
            table,
        })
    }

    /// The new index of an old line, if it has one.
    fn new_line(&self, line: usize) -> Option<usize>
        ensures at { IfSome result (λ k. (k < length self.now.indexes.items) × (slice_index self.now.indexes.items k ≡ line)) }
        ensures finds { (k : ℕ) → k < length self.now.indexes.items → slice_index self.now.indexes.items k ≡ line → result ≡ Some k }
    {
        let place = *self.places.get(line)?;
        if place < self.indexes.len() {
            Some(place)
        } else {
            None
        }
    }
}

impl Moves for Arrangement {
    ghost places = { λ a. kept_lines a.axis a.indexes.items a.table.height a.table.width };
}

impl MovesCells for Arrangement {
    fn new_place(&self, pos: Position) -> Option<Position> {
        let across = self.axis.across();
        if across.line_of(pos) >= across.count_of(self.table.height, self.table.width) {
            return None;
        }
        let line = self.new_line(self.axis.line_of(pos))?;
        Some(self.axis.in_line(pos, line))
    }
}

impl MovesRectangles for Arrangement {
    fn new_rectangle(&self, of: Rectangle) -> Option<Rectangle> {
        image_of(self, of)
    }
}

/// The swaps that bring lines of some indexes to the front, and the places of all lines after these.
fn swaps_to(
    alloc: Global,
    indexes: &[usize],
    count: usize,
) -> Result<(Vec<usize>, Vec<usize>), AllocError>
    requires { AreDistinct indexes.now count }
    ensures bring { IfOk result (λ found. BringToFront indexes.now found.0.items count) }
    ensures tell { IfOk result (λ found. TellsPlaces indexes.now found.1.items count) }
{
    let mut lines = all_indexes(alloc, count)?;
    let mut places = all_indexes(alloc, count)?;
    let mut swaps = Vec::with_capacity(alloc, indexes.len())?;
    for (k, &line) in indexes.iter().enumerate() {
        let place = places[line];
        let other = lines[k];
        lines.swap(k, place);
        places.swap(line, other);
        swaps.push(place)?;
    }
    Ok((swaps, places))
}

/// The indexes below a count, in order.
pub(crate) fn all_indexes(alloc: Global, count: usize) -> Result<Vec<usize>, AllocError>
    ensures { IfOk result (λ all. all.items ≡ range_with_len 0 count) }
{
    let mut all = Vec::with_capacity(alloc, count)?;
    for index in 0..count {
        all.push(index)?;
    }
    Ok(all)
}
