//! Sets of places.

ghost use Rattle.std.specs.Prelude.{◌≡◌, ◌*◌, IfOk, IfSome, List, false, not, true};
ghost use Rattle.std.specs.List.{AllByRecursion};
ghost use Rattle.tabled_grid.specs.declared.config.entity.Entity.{Entity};
ghost use Rattle.tabled_select.specs.Algebra.{flat};
ghost use Rattle.tabled_select.specs.Sets.{covers, marks_of};
ghost use Rattle.tabled_select.specs.Marks.{HasRoom, MarksAll, SetsMark, has};

use crate::object::listed_marks::ListedMarks;
use crate::object::marked::Marked;
use std::alloc::{AllocError, Global};
use tabled_grid::config::{Entity, Position};

/// All cells of a table are given a mark, where it has no more cells than this for each that is named.
const CELLS_PER_NAMED: usize = 128;

/// Some of the places of a table.
#[derive(Drop)]
pub(super) struct PlaceSet {
    marks: PlaceMarks,
}

/// Marks of all places of a table, or of a few.
#[derive(Drop)]
enum PlaceMarks {
    All(Marked),
    Few(ListedMarks),
}

impl PlaceSet {
    /// The places of a table of `rows x columns` that entities name. `named` is how many cells are
    /// gone through in all, or about n.
    ///
    /// Refused where memory runs out.
    pub(super) fn of(
        alloc: Global,
        entities: Vec<Entity>,
        rows: usize,
        columns: usize,
        named: usize,
    ) -> Result<Self, AllocError>
        ensures marked { IfOk result (λ set. MarksAll (marks_of set) (flat entities.items rows columns) true) }
        ensures covers { IfOk result (λ set. (others : List Entity) → AllByRecursion (covers set) (flat others rows columns)) }
    {
        let marks = match dense_size(rows, columns, named) {
            Some(size) => PlaceMarks::All(Marked::of(alloc, entities, rows, columns, size)?),
            None => PlaceMarks::Few(ListedMarks::of(alloc, entities, rows, columns, true)?),
        };
        Ok(PlaceSet { marks })
    }

    /// No place, and room for those that entities name in a table of `rows x columns`.
    ///
    /// Refused where memory runs out.
    pub(super) fn room_for(
        alloc: Global,
        entities: &[Entity],
        rows: usize,
        columns: usize,
        named: usize,
    ) -> Result<Self, AllocError>
        ensures { IfOk result (λ set. MarksAll (marks_of set) (flat entities.now rows columns) false) }
    {
        let marks = match dense_size(rows, columns, named) {
            Some(size) => PlaceMarks::All(Marked::new(alloc, rows, columns, size)?),
            None => {
                let entities = Vec::from_slice(alloc, entities)?;
                PlaceMarks::Few(ListedMarks::of(alloc, entities, rows, columns, false)?)
            }
        };
        Ok(PlaceSet { marks })
    }

    #[inline]
    pub(super) fn contains(&self, pos: Position) -> bool
        requires { covers self.now pos }
        ensures { result ≡ has (marks_of self.now) pos }
    {
        match &self.marks {
            PlaceMarks::All(marks) => marks.contains(pos),
            PlaceMarks::Few(marks) => marks.contains(pos),
        }
    }

    /// Marks a place, and says whether it wasn't marked before.
    #[inline]
    pub(super) fn insert(&mut self, pos: Position) -> bool
        requires { HasRoom (marks_of self.old) pos }
        ensures is_new { result ≡ not (has (marks_of self.old) pos) }
        ensures set { SetsMark (marks_of self.old) (marks_of self.new) pos true }
    {
        match &mut self.marks {
            PlaceMarks::All(marks) => marks.insert(pos),
            PlaceMarks::Few(marks) => marks.insert(pos),
        }
    }
}

/// The cells of a table, where they are worth a mark each.
fn dense_size(rows: usize, columns: usize, named: usize) -> Option<usize>
    ensures { IfSome result (λ size. size ≡ rows * columns) }
{
    let size = rows.checked_mul(columns)?;
    (size / CELLS_PER_NAMED <= named).then_some(size)
}
