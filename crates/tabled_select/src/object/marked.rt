//! Marks of all places of a table.

ghost use Rattle.std.specs.Prelude.{◌≡◌, ◌*◌, ◌<◌, IfOk, List, false, length, not, true};
ghost use Rattle.tabled_grid.specs.declared.config.entity.Entity.{Entity};
ghost use Rattle.std.specs.List.{AllByRecursion};
ghost use Rattle.tabled_select.specs.Algebra.{flat};
ghost use Rattle.tabled_select.specs.Sets.{all_marks};
ghost use Rattle.tabled_select.specs.Marks.{HasRoom, MarksAll, SetsMark, has, mark_index};

use crate::object::named_places::NamedPlaces;
use std::alloc::{AllocError, Global};
use tabled_grid::config::{Entity, Position};

/// A mark for each place of a table.
#[derive(Drop)]
pub(super) struct Marked {
    columns: usize,
    marks: Vec<bool>,
}

impl Marked {
    /// No mark, in a table of `rows x columns`, which are `size` cells.
    pub(super) fn new(
        alloc: Global,
        rows: usize,
        columns: usize,
        size: usize,
    ) -> Result<Self, AllocError>
        requires { size ≡ rows * columns }
        ensures { IfOk result (λ set. (entities : List Entity) → MarksAll (all_marks set) (flat entities rows columns) false) }
    {
        let marks = vec![in alloc; false; size]?;
        Ok(Marked { columns, marks })
    }

    /// A mark for each place that entities name in a table of `rows x columns`, which are `size` cells.
    pub(super) fn of(
        alloc: Global,
        entities: Vec<Entity>,
        rows: usize,
        columns: usize,
        size: usize,
    ) -> Result<Self, AllocError>
        requires { size ≡ rows * columns }
        ensures marked { IfOk result (λ set. MarksAll (all_marks set) (flat entities.items rows columns) true) }
        ensures room { IfOk result (λ set. (others : List Entity) → AllByRecursion (HasRoom (all_marks set)) (flat others rows columns)) }
    {
        let mut set = Marked::new(alloc, rows, columns, size)?;
        for pos in NamedPlaces::new(entities, rows, columns) {
            set.insert(pos);
        }
        Ok(set)
    }

    #[inline]
    pub(super) fn contains(&self, pos: Position) -> bool
        requires { HasRoom (all_marks self.now) pos }
        ensures { result ≡ has (all_marks self.now) pos }
    {
        self.marks[self.index_of(pos)]
    }

    /// Marks a place, and says whether it wasn't marked before.
    #[inline]
    pub(super) fn insert(&mut self, pos: Position) -> bool
        requires { HasRoom (all_marks self.old) pos }
        ensures is_new { result ≡ not (has (all_marks self.old) pos) }
        ensures set { SetsMark (all_marks self.old) (all_marks self.new) pos true }
    {
        let index = self.index_of(pos);
        let is_new = !self.marks[index];
        self.marks[index] = true;
        is_new
    }

    /// Where the mark of a place of the table stands.
    #[inline]
    fn index_of(&self, pos: Position) -> usize
        requires { HasRoom (all_marks self.now) pos }
        ensures place { result ≡ mark_index self.now.columns pos }
        ensures inside { (pos.col < self.now.columns) × (mark_index self.now.columns pos < length self.now.marks.items) }
    {
        pos.row * self.columns + pos.col
    }
}
